//! Looking at a stack that counts.
ghost use Rattle.std.specs.Prelude.{◌≡◌, is_some, option_map};
ghost use Rattle.book_cmd_node.specs.NodeRuns.{held_end};
ghost use Rattle.book_stack.specs.Counters.{StackCounts};
ghost use Rattle.book_stack.specs.Stacks.{StackState, next_deadline, timed_out};
ghost use Rattle.book_stack.specs.Watches.{end_front};
ghost use Rattle.ao_stack.specs.CountersStands.{Stands};

use crate::counted_stack::CountedStack;
use book_base::Pair;
use book_stack::{Counters, Front, Tally};

impl CountedStack {
    /// What was counted of the connection of the pair since it began, and the key ids that it sent and
    /// heard last. `None` exactly where the pair isn't held.
    pub fn counters(&self, pair: &Pair) -> Option<Tally>
        ensures tally { (s : StackState) (n : StackCounts) → Stands self.now s n → result ≡ n.pairs pair.now }
        ensures held { (s : StackState) (n : StackCounts) → Stands self.now s n
            → is_some result ≡ is_some (held_end pair.now s.node.ends) }
    {
        self.tallies.get(pair)
    }

    /// What was counted of all that happened at the node.
    pub fn node_counters(&self) -> Counters
        ensures { (s : StackState) (n : StackCounts) → Stands self.now s n → result ≡ n.node }
    {
        self.node
    }

    /// Where the end of the pair stands. `None` exactly where the pair isn't held.
    pub fn front(&self, pair: &Pair) -> Option<Front>
        ensures { (s : StackState) (n : StackCounts) → Stands self.now s n
            → result ≡ option_map end_front (held_end pair.now s.node.ends) }
    {
        self.stack.front(pair)
    }

    /// Whether the pair is held.
    pub fn holds(&self, pair: &Pair) -> bool
        ensures { (s : StackState) (n : StackCounts) → Stands self.now s n
            → result ≡ is_some (held_end pair.now s.node.ends) }
    {
        self.stack.holds(pair)
    }

    /// When `output` is to be called at the latest, in milliseconds since 1970, once it has nothing more
    /// to hand out: at the earliest deadline of a timer, or at the next full second where an end waits for
    /// a row to send with.
    pub fn next_deadline(&self) -> Option<u64>
        ensures { (s : StackState) (n : StackCounts) → Stands self.now s n → result ≡ next_deadline s }
    {
        self.stack.next_deadline()
    }

    /// Whether the connection of the pair has heard nothing of its peer at `now`, in milliseconds since
    /// 1970, for the user timeout of five minutes while it waits for it (RFC 9293, section 3.9.1.1). False
    /// where the pair isn't held. Nothing is done of itself: its user calls `abort` or waits on.
    pub fn is_overdue(&self, pair: &Pair, now: u64) -> bool
        ensures { (s : StackState) (n : StackCounts) → Stands self.now s n
            → result ≡ timed_out now pair.now s (held_end pair.now s.node.ends) }
    {
        self.stack.is_overdue(pair, now)
    }
}
