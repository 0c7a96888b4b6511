//! The next datagram.
ghost use Rattle.std.specs.Prelude.{◌≡◌, ◌≤◌, None, length};
ghost use Rattle.book_stack.specs.Counters.{StackCounts};
ghost use Rattle.book_stack.specs.Calls.{Output, call};
ghost use Rattle.book_stack.specs.Stacks.{StackState};
ghost use Rattle.stack_timers.specs.Watches.{latest};
ghost use Rattle.ao_stack.specs.Answers.{IsHanded};
ghost use Rattle.ao_stack.specs.Turns.{MadeLast, length_of};
ghost use Rattle.ao_stack.specs.CountersAnswers.{Follows};
ghost use Rattle.ao_stack.specs.CountersStands.{Stands};

use crate::counted_stack::CountedStack;
use crate::counts::Happened;
use crate::key_ids::ids_in_front;
use crate::outgoing::Outgoing;

impl CountedStack {
    /// The next datagram that is due at `now`, in milliseconds since 1970 and at most the last one of the year 9999:
    /// it stands in front of `room`, which has at least 1,500 bytes, is counted, and its key ids are kept. Its
    /// connection is told, and whether it is sent for the first time or again. `None` where no datagram is due, and
    /// `room` is as it was: then `output` is to be called again at `next_deadline`, or after another call.
    pub fn output_told(&mut self, now: u64, room: &mut [u8]) -> Option<Outgoing>
        requires time { now ≤ latest }
        requires room { 1500 ≤ length room.old }
        ensures handed { (s : StackState) (n : StackCounts) → Stands self.old s n
            → Follows self.new (Output now) s n (IsHanded room.new (length_of result)) }
        ensures told { (s : StackState) (n : StackCounts) → Stands self.old s n
            → MadeLast result (call (Output now) s).events }
        ensures untouched { (s : StackState) (n : StackCounts) → Stands self.old s n → result ≡ None
            → room.new ≡ room.old }
    {
        match self.stack.output_told(now, room) {
            None => None,
            Some(outgoing) => {
                let ids = ids_in_front(room, outgoing.length);
                self.count(&outgoing.pair, Happened::Sent(outgoing.kind, ids));
                Some(outgoing)
            }
        }
    }

    /// The length of the next datagram that is due at `now`. All else is as for `output_told`.
    pub fn output(&mut self, now: u64, room: &mut [u8]) -> Option<usize>
        requires time { now ≤ latest }
        requires room { 1500 ≤ length room.old }
        ensures handed { (s : StackState) (n : StackCounts) → Stands self.old s n
            → Follows self.new (Output now) s n (IsHanded room.new result) }
        ensures untouched { (s : StackState) (n : StackCounts) → Stands self.old s n → result ≡ None
            → room.new ≡ room.old }
    {
        match self.output_told(now, room) {
            None => None,
            Some(outgoing) => Some(outgoing.length),
        }
    }
}
