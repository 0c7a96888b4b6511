//! An end begins without a handshake.
ghost use Rattle.std.specs.Prelude.{◌≡◌, List};
ghost use Rattle.book_keys.specs.Rows.{Row};
ghost use Rattle.book_endpoint.specs.States.{started};
ghost use Rattle.book_cmd_node.specs.NodeRuns.{NodeState};
ghost use Rattle.book_base.specs.Addresses.{IsOneFamily};
ghost use Rattle.stack_ends.specs.Stands.{Stands, Begun, most_of};

use crate::answer::NodeRefusal;
use crate::ends::Ends;
use book_base::Pair;
use std::alloc::Global;

impl Ends {
    /// An end for the pair begins with both initial sequence numbers known, without a handshake (own).
    /// All else is as for `open`.
    pub fn start(
        &mut self,
        alloc: Global,
        pair: Pair,
        isn: u32,
        peer_isn: u32,
    ) -> Result<(), NodeRefusal>
        requires family { IsOneFamily pair.local.address pair.remote.address }
        ensures begun { (rows : List Row) (n : NodeState) → Stands self.old rows n
            → Begun self.new rows n (record { pair = pair; state = started pair isn peer_isn }) result }
        ensures most { most_of self.new ≡ most_of self.old }
    {
        self.node.start(alloc, &self.table, pair, isn, peer_isn)
    }
}
