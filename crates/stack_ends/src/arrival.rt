//! A datagram comes.
ghost use Rattle.std.specs.Prelude.{◌≡◌, ◌≤◌, ◌+◌, List, true};
ghost use Rattle.book_keys.specs.Rows.{Row};
ghost use Rattle.book_segments.specs.Segments.{Read, SYN, has};
ghost use Rattle.book_cmd_node.specs.NodeRuns.{NodeState};
ghost use Rattle.stack_ends.specs.EndsCosts.{CostsHeard};
ghost use Rattle.stack_ends.specs.Arrivals.{IsJudged, Meets, syn_judged};
ghost use Rattle.stack_ends.specs.Stands.{Stands, most_of};

use crate::answer::NodeArrival;
use crate::ends::Ends;
use ao_base::Steps;
use ao_check::{Refusal, check_syn};
use book_base::Pair;
use std::sync::ledger::Ledger;
use tcp_segment::Datagram;

impl Ends {
    /// A datagram that was read comes: `NoConnection` exactly where no end is held for its pair; else the
    /// end of the pair answers (RFC 9293, section 3.10.7), and tells the TCP-AO option of a segment that
    /// passed. At most 66 steps are counted: none where no end is held; else at most one derivation of a
    /// traffic key, and at most 65 links where a piece passed, as the end counts them.
    pub fn hear_datagram<'a, L: Ledger>(
        &mut self,
        datagram: &Datagram<'a>,
        steps: &mut Steps<L>,
    ) -> NodeArrival<'a>
        ensures meets { (rows : List Row) (n : NodeState) → Stands self.old rows n
            → Meets self.new rows n result (Read datagram.now) }
        ensures costs { CostsHeard self.old.table.rows self.old.clock datagram.now self.old.node self.new.node result
            steps.old steps.new }
        ensures most { most_of self.new ≡ most_of self.old }
        ensures steps { steps.new ≤ steps.old + 66 }
    {
        self.node
            .hear_datagram(&self.table, self.clock, datagram, steps)
    }

    /// Whether a SYN for the pair passes the check as one for a connection of which nothing is known yet,
    /// or the first refusal that holds (RFC 5925, section 7.5). At most one step is counted.
    pub fn check_syn<L: Ledger>(
        &self,
        pair: &Pair,
        datagram: &Datagram<'_>,
        steps: &mut Steps<L>,
    ) -> Result<(), Refusal>
        requires syn { has SYN datagram.now ≡ true }
        requires source { datagram.now.source ≡ pair.now.remote }
        requires destination { datagram.now.destination ≡ pair.now.local }
        ensures judged { (rows : List Row) (n : NodeState) → Stands self.now rows n
            → IsJudged result (syn_judged rows pair.now n.clock datagram.now) }
        ensures steps { steps.new ≤ steps.old + 1 }
    {
        match check_syn(pair, 0, &self.table, self.clock, datagram, steps) {
            Ok(_) => Ok(()),
            Err(why) => Err(why),
        }
    }
}
