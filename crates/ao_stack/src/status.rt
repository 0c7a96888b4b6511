//! Looking at a stack.
ghost use Rattle.std.specs.Prelude.{◌≡◌, is_some, option_map};
ghost use Rattle.book_cmd_node.specs.NodeRuns.{held_end};
ghost use Rattle.book_stack.specs.Stacks.{StackState, next_deadline, timed_out};
ghost use Rattle.book_stack.specs.Watches.{end_front};
ghost use Rattle.ao_stack.specs.Stands.{Stands};

use crate::stack::Stack;
use book_base::Pair;
use book_stack::Front;

impl Stack {
    /// Where the end of the pair stands. `None` exactly where the pair isn't held.
    pub fn front(&self, pair: &Pair) -> Option<Front>
        ensures { (s : StackState) → Stands self.now s → result ≡ option_map end_front (held_end pair.now s.node.ends) }
    {
        self.ends.front(pair)
    }

    /// Whether the pair is held.
    pub fn holds(&self, pair: &Pair) -> bool
        ensures { (s : StackState) → Stands self.now s → result ≡ is_some (held_end pair.now s.node.ends) }
    {
        self.ends.front(pair).is_some()
    }

    /// When `output` is to be called at the latest, in milliseconds since 1970, once it has nothing more
    /// to hand out: at the earliest deadline of a timer, or at the next full second where an end waits for
    /// a row to send with.
    pub fn next_deadline(&self) -> Option<u64>
        ensures { (s : StackState) → Stands self.now s → result ≡ next_deadline s }
    {
        let next_try = if self.line.len() > 0 {
            Some(1000 * (self.ends.clock() + 1))
        } else {
            None
        };
        match (self.alarms.earliest(), next_try) {
            (None, next_try) => next_try,
            (Some(earliest), None) => Some(earliest),
            (Some(earliest), Some(next_try)) => Some(earliest.min(next_try)),
        }
    }

    /// Whether the connection of the pair has heard nothing of its peer at `now`, in milliseconds since
    /// 1970, for the user timeout of five minutes while it waits for it (RFC 9293, section 3.9.1.1). False
    /// where the pair isn't held. Nothing is done of itself: its user calls `abort` or waits on.
    pub fn is_overdue(&self, pair: &Pair, now: u64) -> bool
        ensures { (s : StackState) → Stands self.now s → result
            ≡ timed_out now pair.now s (held_end pair.now s.node.ends) }
    {
        match self.ends.front(pair) {
            None => false,
            Some(front) => match self.watches.get(pair) {
                None => false,
                Some(watch) => watch.is_overdue(now, front.phase),
            },
        }
    }
}
