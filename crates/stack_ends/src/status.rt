//! Looking at an end.
ghost use Rattle.std.specs.Prelude.{◌≡◌, List, option_map};
ghost use Rattle.book_keys.specs.Rows.{Row};
ghost use Rattle.book_cmd_node.specs.NodeRuns.{NodeState, held_end};
ghost use Rattle.book_stack.specs.Watches.{end_front};
ghost use Rattle.stack_ends.specs.Stands.{Stands};

use crate::ends::Ends;
use crate::send::front_of;
use book_base::Pair;
use book_stack::Front;

impl Ends {
    /// Where the end of the pair stands. `None` exactly where the pair isn't held.
    pub fn front(&self, pair: &Pair) -> Option<Front>
        ensures { (rows : List Row) (n : NodeState) → Stands self.now rows n
            → result ≡ option_map end_front (held_end pair.now n.ends) }
    {
        self.node.end(pair).map(front_of)
    }
}
