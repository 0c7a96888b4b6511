//! A stack that counts.
ghost use Rattle.std.specs.Prelude.{◌≡◌, option_map};
ghost use Rattle.ao_stack.specs.Counts.{changed_by, counted_by};
ghost use Rattle.ao_stack.specs.Tallies.{Becomes, tally_at};

use crate::counts::{Happened, counted};
use crate::stack::Stack;
use crate::tallies::Tallies;
use book_base::Pair;
use book_stack::Counters;

/// A node that runs by itself (`ao_stack::Stack`), with counters of all that happens at it and a tally
/// of each of its connections: its counters, and the key ids that it sent and heard last. The tally of a
/// connection begins with it and goes with it; only calls that begin one take memory for it.
#[derive(Drop)]
pub struct CountedStack {
    pub(crate) stack: Stack,
    pub(crate) tallies: Tallies,
    pub(crate) node: Counters,
}

impl CountedStack {
    /// Something happened at the connection of the pair, and so at the node.
    pub(crate) fn count(&mut self, pair: &Pair, what: Happened)
        ensures stack { self.new.stack ≡ self.old.stack }
        ensures node { self.new.node ≡ counted_by what self.old.node }
        ensures tallies { Becomes self.old.tallies self.new.tallies pair.now
            (option_map (changed_by what) (tally_at self.old.tallies pair.now)) }
    {
        self.node = counted(self.node, what);
        self.tallies.change(pair, what);
    }
}
