//! The next datagram.
ghost use Rattle.std.specs.Prelude.{◌≡◌, ◌≤◌, ◌<◌, ℕ, true, None, is_some, length, List};
ghost use Rattle.book_cmd_node.specs.NodeRuns.{NodeOutcome, held_end};
ghost use Rattle.book_stack.specs.Calls.{Output, call};
ghost use Rattle.book_stack.specs.Stacks.{StackState, watched};
ghost use Rattle.book_stack.specs.Turns.{ask, asked_pair, output_at, segment_in, turns, wake, woken_pair};
ghost use Rattle.book_base.specs.Addresses.{IsOneFamily};
ghost use Rattle.stack_ends.specs.Costs.{CostsSaid};
ghost use Rattle.stack_ends.specs.Said.{Leaves, SaysAs};
ghost use Rattle.stack_timers.specs.Watches.{latest};
ghost use Rattle.ao_stack.specs.Answers.{Follows, IsHanded};
ghost use Rattle.ao_stack.specs.Checksums.{IsFromIf};
ghost use Rattle.ao_stack.specs.Costs.{CostsOutput};
ghost use Rattle.ao_stack.specs.Stands.{Stands};
ghost use Rattle.ao_stack.specs.Turns.{Makes, MadeLast, Turns, length_of, turn_limit, turn_of};
ghost use Rattle.ao_stack.specs.Timers.{asked_by, asked_turn};

use crate::checksum::hand;
use crate::outgoing::Outgoing;
use crate::stack::Stack;
use ao_base::Steps;
use book_base::Pair;
use book_link::Transmission;
use stack_ends::{Says, Spoken};
use std::marker::Brand;
use std::sync::ledger::{Blank, Ledger};

/// What is told of the datagram, where one was made, and it is as it is handed out.
fn made(pair: &Pair, kind: Transmission, says: Says, room: &mut [u8]) -> Option<Outgoing>
    requires { 1500 ≤ length room.old }
    ensures makes { (before : List ℕ) (o : NodeOutcome) → IsOneFamily pair.now.local.address pair.now.remote.address
        → SaysAs room.old says o → IsFromIf pair.now (segment_in o)
        → Leaves before room.old says → Makes pair.now kind before room.new result (segment_in o) }
    ensures costs { (old new : ℕ) → CostsSaid says old new → CostsOutput result old new }
{
    match says {
        Says::Segment(length) => {
            hand(pair, room);
            Some(Outgoing {
                length,
                pair: *pair,
                kind,
            })
        }
        Says::NoKey => None,
        Says::Nothing => None,
    }
}

impl Stack {
    /// What follows where the end of the pair was asked for its next segment.
    fn follow_asked(&mut self, pair: &Pair, now: u64, spoken: &Spoken)
        requires { now ≤ latest }
        ensures { (s : StackState) → Stands self.old s → is_some (held_end pair.now s.node.ends) ≡ true
            → Stands self.new (asked_turn pair.now spoken.now.says
            (watched pair.now (asked_by now spoken.now (s.watches pair.now)) s)) }
    {
        self.time_asked(pair, now, spoken);
        match spoken.says {
            Says::Segment(_) => self.touch(pair),
            Says::NoKey => self.touch(pair),
            Says::Nothing => {}
        }
    }

    /// The end of the pair is asked.
    fn ask_pair<L: Ledger>(
        &mut self,
        pair: &Pair,
        now: u64,
        room: &mut [u8],
        steps: &mut Steps<L>,
    ) -> Option<Outgoing>
        requires time { now ≤ latest }
        requires room { 1500 ≤ length room.old }
        ensures turns { (s : StackState) → Stands self.old s
            → Turns self.new room.old room.new result (asked_pair now pair.now s (held_end pair.now s.node.ends)) }
        ensures costs { CostsOutput result steps.old steps.new }
    {
        match self.ends.speak(pair, room, steps) {
            None => None,
            Some(spoken) => {
                self.follow_asked(pair, now, &spoken);
                made(pair, Transmission::New, spoken.says, room)
            }
        }
    }

    /// The end whose turn it is, is asked.
    fn ask<L: Ledger>(
        &mut self,
        now: u64,
        room: &mut [u8],
        steps: &mut Steps<L>,
    ) -> Option<Outgoing>
        requires time { now ≤ latest }
        requires room { 1500 ≤ length room.old }
        ensures turns { (s : StackState) → Stands self.old s → Turns self.new room.old room.new result (ask now s) }
        ensures costs { CostsOutput result steps.old steps.new }
    {
        match self.line.take_first() {
            None => None,
            Some(pair) => self.ask_pair(&pair, now, room, steps),
        }
    }

    /// The end of the pair sends again.
    fn wake_pair<L: Ledger>(
        &mut self,
        pair: &Pair,
        now: u64,
        room: &mut [u8],
        steps: &mut Steps<L>,
    ) -> Option<Outgoing>
        requires time { now ≤ latest }
        requires room { 1500 ≤ length room.old }
        ensures turns { (s : StackState) → Stands self.old s
            → Turns self.new room.old room.new result (woken_pair now pair.now s (held_end pair.now s.node.ends)) }
        ensures costs { CostsOutput result steps.old steps.new }
    {
        match self.ends.repeat(pair, room, steps) {
            None => None,
            Some(spoken) => {
                self.time_woken(pair, now, spoken.change.before.phase, spoken.says);
                self.touch(pair);
                made(pair, Transmission::Again, spoken.says, room)
            }
        }
    }

    /// The earliest alarm goes off, where its deadline is reached.
    fn wake<L: Ledger>(
        &mut self,
        now: u64,
        room: &mut [u8],
        steps: &mut Steps<L>,
    ) -> Option<Outgoing>
        requires time { now ≤ latest }
        requires room { 1500 ≤ length room.old }
        ensures turns { (s : StackState) → Stands self.old s → Turns self.new room.old room.new result (wake now s) }
        ensures costs { CostsOutput result steps.old steps.new }
    {
        match self.alarms.take_due(now) {
            None => None,
            Some(pair) => self.wake_pair(&pair, now, room, steps),
        }
    }

    /// How many turns of a kind are taken at most: one for each end in line, or for each alarm.
    fn turn_limit(&self, kind: Transmission) -> usize
        ensures { (s : StackState) → Stands self.now s → result ≡ turn_limit kind s }
    {
        match kind {
            Transmission::New => self.line.len(),
            Transmission::Again => self.alarms.len(),
        }
    }

    /// A turn of this kind: an end is asked, or an alarm goes off.
    fn take_turn<L: Ledger>(
        &mut self,
        kind: Transmission,
        now: u64,
        room: &mut [u8],
        steps: &mut Steps<L>,
    ) -> Option<Outgoing>
        requires time { now ≤ latest }
        requires room { 1500 ≤ length room.old }
        ensures turns { (s : StackState) → Stands self.old s
            → Turns self.new room.old room.new result (turn_of kind now s) }
        ensures costs { CostsOutput result steps.old steps.new }
    {
        match kind {
            Transmission::New => self.ask(now, room, steps),
            Transmission::Again => self.wake(now, room, steps),
        }
    }

    /// Turns of this kind, up to the first at which a segment is made: each end in line is asked once at
    /// most, or each alarm whose deadline is reached goes off once at most.
    fn take_turns<L: Ledger>(
        &mut self,
        kind: Transmission,
        now: u64,
        room: &mut [u8],
        steps: &mut Steps<L>,
    ) -> Option<Outgoing>
        requires time { now ≤ latest }
        requires room { 1500 ≤ length room.old }
        ensures turns { (s : StackState) → Stands self.old s
            → Turns self.new room.old room.new result (turns (turn_limit kind s) (turn_of kind now) s) }
        ensures costs { CostsOutput result steps.old steps.new }
    {
        let count = self.turn_limit(kind);
        for _turn in 0..count {
            match self.take_turn(kind, now, room, steps) {
                None => {}
                Some(outgoing) => return Some(outgoing),
            }
        }
        None
    }

    /// The clock goes on, and then the next datagram is made.
    fn advance<L: Ledger>(
        &mut self,
        now: u64,
        room: &mut [u8],
        steps: &mut Steps<L>,
    ) -> Option<Outgoing>
        requires time { now ≤ latest }
        requires room { 1500 ≤ length room.old }
        ensures turns { (s : StackState) → Stands self.old s
            → Turns self.new room.old room.new result (output_at now s) }
        ensures costs { CostsOutput result steps.old steps.new }
    {
        self.set_clock(now);
        match self.take_turns(Transmission::New, now, room, steps) {
            None => self.take_turns(Transmission::Again, now, room, steps),
            Some(outgoing) => Some(outgoing),
        }
    }

    /// The next datagram that is due at `now`, in milliseconds since 1970 and at most the last one of the
    /// year 9999: it stands in front of `room`, which has at least 1,500 bytes. Its connection is told,
    /// and whether it is sent for the first time or again. Each end in line is asked for its next
    /// segment once at most; then each alarm whose deadline is reached goes off once at most. `None`
    /// where no datagram is due, and `room` is as it was: then `output` is to be called again at
    /// `next_deadline`, or after another call.
    ///
    /// At most one step is counted, for the traffic key of the datagram that is handed out; none where
    /// none is, whatever ends were asked.
    pub fn output_counted<L: Ledger>(
        &mut self,
        now: u64,
        room: &mut [u8],
        steps: &mut Steps<L>,
    ) -> Option<Outgoing>
        requires time { now ≤ latest }
        requires room { 1500 ≤ length room.old }
        ensures handed { (s : StackState) → Stands self.old s
            → Follows self.new (Output now) s (IsHanded room.new (length_of result)) }
        ensures told { (s : StackState) → Stands self.old s → MadeLast result (call (Output now) s).events }
        ensures untouched { (s : StackState) → Stands self.old s → result ≡ None → room.new ≡ room.old }
        ensures costs { CostsOutput result steps.old steps.new }
    {
        self.advance(now, room, steps)
    }

    /// The next datagram, with steps in a ledger of its own.
    fn hand_out<L: Ledger>(&mut self, blank: Blank, now: u64, room: &mut [u8]) -> Option<Outgoing>
        requires name { blank.name ≡ L.name }
        requires parts { blank.parts ≡ L.parts }
        requires part { 0 < blank.parts }
        requires time { now ≤ latest }
        requires room { 1500 ≤ length room.old }
        ensures handed { (s : StackState) → Stands self.old s
            → Follows self.new (Output now) s (IsHanded room.new (length_of result)) }
        ensures told { (s : StackState) → Stands self.old s → MadeLast result (call (Output now) s).events }
        ensures untouched { (s : StackState) → Stands self.old s → result ≡ None → room.new ≡ room.old }
    {
        let mut steps = Steps::<L>::new(blank);
        self.output_counted(now, room, &mut steps)
    }

    /// The next datagram that is due at `now`, and nobody counts steps. All else is as for
    /// `output_counted`.
    pub fn output_told(&mut self, now: u64, room: &mut [u8]) -> Option<Outgoing>
        requires time { now ≤ latest }
        requires room { 1500 ≤ length room.old }
        ensures handed { (s : StackState) → Stands self.old s
            → Follows self.new (Output now) s (IsHanded room.new (length_of result)) }
        ensures told { (s : StackState) → Stands self.old s → MadeLast result (call (Output now) s).events }
        ensures untouched { (s : StackState) → Stands self.old s → result ≡ None → room.new ≡ room.old }
    {
        self.hand_out::<Brand>(Blank::new(1), now, room)
    }

    /// The length of the next datagram that is due at `now`. All else is as for `output_told`.
    pub fn output(&mut self, now: u64, room: &mut [u8]) -> Option<usize>
        requires time { now ≤ latest }
        requires room { 1500 ≤ length room.old }
        ensures handed { (s : StackState) → Stands self.old s
            → Follows self.new (Output now) s (IsHanded room.new result) }
        ensures untouched { (s : StackState) → Stands self.old s → result ≡ None → room.new ≡ room.old }
    {
        match self.output_told(now, room) {
            None => None,
            Some(outgoing) => Some(outgoing.length),
        }
    }
}
