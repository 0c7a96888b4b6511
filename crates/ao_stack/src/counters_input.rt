//! A datagram comes.
ghost use Rattle.std.specs.Prelude.{◌≡◌, ◌≤◌};
ghost use Rattle.book_stack.specs.Counters.{StackCounts};
ghost use Rattle.book_segments.specs.Segments.{reading};
ghost use Rattle.book_stack.specs.Calls.{Input};
ghost use Rattle.book_stack.specs.Stacks.{StackState};
ghost use Rattle.book_stack.specs.Turns.{clocked};
ghost use Rattle.stack_timers.specs.Watches.{latest};
ghost use Rattle.ao_stack.specs.Answers.{IsHeard};
ghost use Rattle.ao_stack.specs.Passed.{PassesAs};
ghost use Rattle.ao_stack.specs.CountersAnswers.{CountsTold, Follows};
ghost use Rattle.ao_stack.specs.CountersStands.{Stands};

use crate::counted_stack::CountedStack;
use crate::counts::{Happened, arrived, knocked, refused, stray};
use crate::input::Heard;
use crate::key_ids::ids_passed;
use book_endpoint::Arrival;
use stack_ends::NodeArrival;

impl CountedStack {
    /// A datagram was answered so, and moved its connection on or didn't.
    fn count_told(&mut self, moved: bool, told: &NodeArrival<'_>)
        ensures stack { self.new.stack ≡ self.old.stack }
        ensures counts { CountsTold self.old self.new moved told.now }
    {
        match told {
            NodeArrival::NoConnection => self.node = stray(self.node),
            NodeArrival::Bad(fault) => self.node = arrived(self.node, Arrival::Bad(*fault)),
            NodeArrival::At(pair, answer) => {
                let ids = ids_passed(answer.passed);
                self.count(pair, Happened::Heard(moved, answer.arrival, ids));
            }
        }
    }

    /// A datagram comes at `now`, in milliseconds since 1970 and at most the last one of the year 9999: to
    /// the end of its pair (RFC 9293, section 3.10.7), which is told, or it knocks, or is refused. It is
    /// counted, and the key ids of a segment that passed the check and moved its connection on are kept. All
    /// else is as for `ao_stack::Stack`.
    pub fn input<'a>(&mut self, now: u64, bytes: &'a [u8]) -> Heard<'a>
        requires time { now ≤ latest }
        ensures told { (s : StackState) (n : StackCounts) → Stands self.old s n
            → Follows self.new (Input (record { now = now; bytes = bytes.now })) s n
            (IsHeard (reading bytes.now) result) }
        ensures passed { (s : StackState) (n : StackCounts) → Stands self.old s n
            → PassesAs (clocked now s).stack (reading bytes.now) result }
    {
        match self.stack.input(now, bytes) {
            Heard::Knocks(pair) => {
                self.node = knocked(self.node);
                Heard::Knocks(pair)
            }
            Heard::Refused(why) => {
                self.node = refused(self.node, why);
                Heard::Refused(why)
            }
            Heard::Told(told) => {
                self.count_told(false, &told);
                Heard::Told(told)
            }
            Heard::Moved(told) => {
                self.count_told(true, &told);
                Heard::Moved(told)
            }
        }
    }
}
