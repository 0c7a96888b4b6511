//! A stack.
ghost use Rattle.std.specs.Prelude.{◌≤◌};
ghost use Rattle.book_stack.specs.Stacks.{StackState, touched};
ghost use Rattle.book_stack.specs.Turns.{clocked};
ghost use Rattle.stack_timers.specs.Watches.{latest};
ghost use Rattle.ao_stack.specs.Stands.{Stands};

use book_base::Pair;
use stack_ends::Ends;
use stack_timers::{Alarms, Line, Watches};

/// A node that runs by itself: its ends under their table and clock, the timer of each connection, the
/// deadlines of all timers and the line of ends that may have something to send. It stands for stacks
/// of the definitions: each call says that it stands for the next one after. Deadlines and line have a
/// place for each end, so only calls that begin a connection take memory.
#[derive(Drop)]
pub struct Stack {
    pub(crate) ends: Ends,
    pub(crate) watches: Watches,
    pub(crate) alarms: Alarms,
    pub(crate) line: Line,
}

impl Stack {
    /// The end of the pair stands in line.
    pub(crate) fn touch(&mut self, pair: &Pair)
        ensures { (s : StackState) → Stands self.old s → Stands self.new (touched pair.now s) }
    {
        self.line.put(pair);
    }

    /// The clock of the ends goes to the second of `now`, unless it is there.
    pub(crate) fn set_clock(&mut self, now: u64)
        requires { now ≤ latest }
        ensures { (s : StackState) → Stands self.old s → Stands self.new (clocked now s).stack }
    {
        let seconds = now / 1000;
        if self.ends.clock() == seconds {
            return;
        }
        self.ends.tick(seconds);
    }
}
