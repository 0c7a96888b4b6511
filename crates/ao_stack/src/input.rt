//! A datagram comes.
ghost use Rattle.std.specs.Prelude.{◌≡◌, ◌≤◌, ◌<◌, ◌+◌, ◌&&◌, ℕ, true, List, Option, Some, Err, is_some, option_map};
ghost use Rattle.book_base.specs.declared.address.Pair.{Pair as OnePair};
ghost use Rattle.book_segments.specs.Segments.{Segment, Read, SYN, good, has, reading};
ghost use Rattle.book_endpoint.specs.Arrivals.{syn_alone};
ghost use Rattle.book_endpoint.specs.States.{EndState};
ghost use Rattle.book_cmd_node.specs.NodeRuns.{held_end};
ghost use Rattle.book_segments.specs.Segments.{pair_reached};
ghost use Rattle.book_stack.specs.Calls.{Input, after_segment_heard, asked_for, heard_pair, met};
ghost use Rattle.book_stack.specs.Stacks.{StackState, asking_judged, asks, is_free, is_over};
ghost use Rattle.book_stack.specs.Turns.{clocked};
ghost use Rattle.book_stack.specs.Watches.{end_front, moves_on};
ghost use Rattle.stack_ends.specs.Arrivals.{IsJudged};
ghost use Rattle.stack_timers.specs.Watches.{latest};
ghost use Rattle.stack_ends.specs.declared.answer.NodeArrival.TheVariants.{At};
ghost use Rattle.tcp_endpoint.specs.declared.arrival.Arrived.{Arrived as OneArrived};
ghost use Rattle.ao_stack.specs.Answers.{Does, Follows, IsHeard, heard_moving};
ghost use Rattle.ao_stack.specs.Costs.{CostsHeard, CostsInput};
ghost use Rattle.ao_stack.specs.Passed.{PassesAs};
ghost use Rattle.ao_stack.specs.Stands.{Stands};

use crate::stack::Stack;
use ao_base::Steps;
use book_base::Pair;
use book_endpoint::{Arrival, Phase, Refusal};
use book_stack::{Change, Front};
use stack_ends::NodeArrival;
use stack_timers::{is_heard, moves_on};
use std::marker::Brand;
use std::sync::ledger::{Blank, Ledger};
use tcp_segment::{Datagram, Flag, read_datagram};

/// What a stack answers to a datagram that comes.
#[derive(Clone, Copy, Debug)]
pub enum Heard<'a> {
    /// The answer of its end, or why none heard it. It brought nothing new.
    Told(NodeArrival<'a>),
    /// The answer of its end to a segment that moved its connection on: it acknowledged a number that
    /// wasn't, or brought the one that was expected. What was taken once moves nothing when it is sent again.
    Moved(NodeArrival<'a>),
    /// A SYN for a pair that is free: not held, or in TIME-WAIT, or closed. It passed the check, but
    /// nothing was heard; a user who wants the connection drops the old one, lets a new one listen, and
    /// hands the datagram in again. One of an earlier connection passes too, whoever sends it again.
    Knocks(Pair),
    /// A SYN for a pair that isn't held, and that the check refuses. Nothing was heard.
    Refused(Refusal),
}

/// SYN without ACK, RST and FIN, and the checksum is right.
fn asks(datagram: &Datagram<'_>) -> bool
    ensures { result ≡ (syn_alone datagram.now && good datagram.now) }
{
    datagram.has(Flag::Syn)
        && !datagram.has(Flag::Ack)
        && !datagram.has(Flag::Rst)
        && !datagram.has(Flag::Fin)
        && datagram.checksum_ok()
}

/// Whether no SYN is heard in this phase.
fn is_over(phase: Phase) -> bool
    ensures { result ≡ is_over phase }
{
    matches!(phase, Phase::TimeWait | Phase::Closed)
}

/// Whether a pair is free for a new connection, where its end stands so.
fn is_free(front: Option<Front>) -> bool
    ensures { (held : Option EndState) → front ≡ option_map end_front held → result ≡ is_free held }
{
    match front {
        None => true,
        Some(front) => is_over(front.phase),
    }
}

/// Whether a segment that is such a SYN or isn't asks for a connection, where the end of its pair stands
/// so.
fn asks_anew(alone: bool, front: Option<Front>) -> bool
    ensures asks { (d : Segment) (held : Option EndState) → alone ≡ (syn_alone d && good d)
        → front ≡ option_map end_front held → result ≡ asks d held }
    ensures only { result ≡ true → alone ≡ true }
{
    alone && is_free(front)
}

/// What was told, by whether the segment moved its connection on.
fn heard_moving(told: NodeArrival<'_>, moved: bool) -> Heard<'_>
    ensures { result ≡ heard_moving moved told.entry }
{
    if moved {
        Heard::Moved(told)
    } else {
        Heard::Told(told)
    }
}

impl Stack {
    /// The end of the pair heard a segment with this answer, which changed it so.
    fn follow_change(&mut self, pair: &Pair, now: u64, arrival: Arrival, change: Change)
        requires { now ≤ latest }
        ensures { (s : StackState) → Stands self.old s → is_some (held_end pair.now s.node.ends) ≡ true
            → Stands self.new (after_segment_heard now pair.now arrival change s) }
    {
        let heard = is_heard(arrival);
        if !heard {
            return;
        }
        self.time_arrival(pair, now, change);
        self.touch(pair);
    }

    /// The end of the pair, which stood so before, heard a segment with this answer. Whether that moved
    /// the connection on.
    fn follow(&mut self, pair: &Pair, now: u64, before: Front, arrival: Arrival) -> bool
        requires { now ≤ latest }
        ensures stands { (s : StackState) (e : EndState) → Stands self.old s → held_end pair.now s.node.ends ≡ Some e
            → Stands self.new (after_segment_heard now pair.now arrival
            (record { before = before; after = end_front e }) s) }
        ensures moved { (s : StackState) (e : EndState) → Stands self.old s → held_end pair.now s.node.ends ≡ Some e
            → result ≡ moves_on (record { before = before; after = end_front e }) }
    {
        match self.ends.front(pair) {
            None => false,
            Some(after) => {
                let change = Change { before, after };
                self.follow_change(pair, now, arrival, change);
                moves_on(change)
            }
        }
    }

    /// The end of the pair, which stood so before, was told of a segment. Whether that moved the
    /// connection on.
    fn follow_told(&mut self, pair: &Pair, now: u64, before: Front, told: &NodeArrival<'_>) -> bool
        requires { now ≤ latest }
        ensures stands { (s : StackState) (e : EndState) (p : OnePair) (arrived : OneArrived) → Stands self.old s
            → held_end pair.now s.node.ends ≡ Some e → told.now ≡ At p arrived
            → Stands self.new (after_segment_heard now pair.now arrived.arrival
            (record { before = before; after = end_front e }) s) }
        ensures moved { (s : StackState) (e : EndState) (p : OnePair) (arrived : OneArrived) → Stands self.old s
            → held_end pair.now s.node.ends ≡ Some e → told.now ≡ At p arrived
            → result ≡ moves_on (record { before = before; after = end_front e }) }
    {
        match told {
            NodeArrival::Bad(_) => false,
            NodeArrival::NoConnection => false,
            NodeArrival::At(_, arrived) => self.follow(pair, now, before, arrived.arrival),
        }
    }

    /// A segment comes for the pair.
    fn hear<'a, L: Ledger>(
        &mut self,
        pair: &Pair,
        now: u64,
        datagram: &Datagram<'a>,
        steps: &mut Steps<L>,
    ) -> Heard<'a>
        requires time { now ≤ latest }
        ensures told { (s : StackState) (bytes : List ℕ) → Stands self.old s → reading bytes ≡ Read datagram.now
            → pair.now ≡ pair_reached datagram.now
            → Does self.new (IsHeard (Read datagram.now) result)
            (heard_pair (record { now = now; bytes = bytes }) (pair_reached datagram.now) datagram.now s
            (held_end (pair_reached datagram.now) s.node.ends)) }
        ensures passed { (s : StackState) → Stands self.old s → PassesAs s (Read datagram.now) result }
        ensures costs { CostsHeard datagram.now result steps.old steps.new }
        ensures steps { steps.new ≤ steps.old + 66 }
    {
        match self.ends.front(pair) {
            None => Heard::Told(NodeArrival::NoConnection),
            Some(before) => {
                let told = self.ends.hear_datagram(datagram, steps);
                let moved = self.follow_told(pair, now, before, &told);
                heard_moving(told, moved)
            }
        }
    }

    /// A SYN that the check refused comes for the pair, whose end, if it is held, stands so and is over:
    /// that end answers it.
    fn refuse<'a, L: Ledger>(
        &mut self,
        why: Refusal,
        front: Option<Front>,
        pair: &Pair,
        now: u64,
        datagram: &Datagram<'a>,
        steps: &mut Steps<L>,
    ) -> Heard<'a>
        requires time { now ≤ latest }
        ensures told { (s : StackState) (bytes : List ℕ) → Stands self.old s → reading bytes ≡ Read datagram.now
            → pair.now ≡ pair_reached datagram.now
            → front ≡ option_map end_front (held_end (pair_reached datagram.now) s.node.ends)
            → Does self.new (IsHeard (Read datagram.now) result)
            (asked_for (record { now = now; bytes = bytes }) datagram.now s
            (held_end (pair_reached datagram.now) s.node.ends) (Err why)) }
        ensures passed { (s : StackState) → Stands self.old s → PassesAs s (Read datagram.now) result }
        ensures costs { CostsHeard datagram.now result steps.old steps.new }
        ensures steps { steps.new ≤ steps.old + 66 }
    {
        match front {
            None => Heard::Refused(why),
            Some(_) => self.hear(pair, now, datagram, steps),
        }
    }

    /// Whether a SYN passes the check as one for a connection of which nothing is known yet, or the first
    /// refusal.
    fn judge<L: Ledger>(
        &self,
        pair: &Pair,
        datagram: &Datagram<'_>,
        steps: &mut Steps<L>,
    ) -> Result<(), Refusal>
        requires syn { has SYN datagram.now ≡ true }
        requires reached { pair.now ≡ pair_reached datagram.now }
        ensures judged { (s : StackState) → Stands self.now s → IsJudged result (asking_judged s datagram.now) }
        ensures steps { steps.new ≤ steps.old + 1 }
    {
        self.ends.check_syn(pair, datagram, steps)
    }

    /// A segment comes for the pair, and asks for a connection or not.
    fn meet<'a, L: Ledger>(
        &mut self,
        pair: &Pair,
        asks: bool,
        now: u64,
        datagram: &Datagram<'a>,
        steps: &mut Steps<L>,
    ) -> Heard<'a>
        requires time { now ≤ latest }
        requires reached { pair.now ≡ pair_reached datagram.now }
        requires asks { asks ≡ (syn_alone datagram.now && good datagram.now) }
        ensures told { (s : StackState) (bytes : List ℕ) → Stands self.old s → reading bytes ≡ Read datagram.now
            → Does self.new (IsHeard (Read datagram.now) result)
            (met (record { now = now; bytes = bytes }) datagram.now s
            (held_end (pair_reached datagram.now) s.node.ends)) }
        ensures passed { (s : StackState) → Stands self.old s → PassesAs s (Read datagram.now) result }
        ensures costs { (s : StackState) → Stands self.old s → CostsInput s (Read datagram.now) result steps.old
            steps.new }
        ensures steps { steps.new ≤ steps.old + 67 }
    {
        let front = self.ends.front(pair);
        let asks_anew = asks_anew(asks, front);
        if !asks_anew {
            return self.hear(pair, now, datagram, steps);
        }
        match self.judge(pair, datagram, steps) {
            Ok(()) => Heard::Knocks(*pair),
            Err(why) => self.refuse(why, front, pair, now, datagram, steps),
        }
    }

    /// A datagram comes at `now`, in milliseconds since 1970 and at most the last one of the year 9999: to
    /// the end of its pair (RFC 9293, section 3.10.7), which is told, or it knocks, or is a SYN that the check
    /// refuses where no connection is held. Of a segment that its end heard the answer has the row, the number,
    /// the context and the TCP-AO option that were found, and of no other.
    ///
    /// Steps are counted: none where the bytes are no datagram; at most one derivation of a traffic key for
    /// a SYN that asks for a connection; and where an end hears the segment, at most one for its check, and at
    /// most 65 links where a piece passed. Both only for a refused SYN to a connection that is over.
    pub fn input_counted<'a, L: Ledger>(
        &mut self,
        now: u64,
        bytes: &'a [u8],
        steps: &mut Steps<L>,
    ) -> Heard<'a>
        requires time { now ≤ latest }
        ensures told { (s : StackState) → Stands self.old s
            → Follows self.new (Input (record { now = now; bytes = bytes.now })) s
            (IsHeard (reading bytes.now) result) }
        ensures passed { (s : StackState) → Stands self.old s
            → PassesAs (clocked now s).stack (reading bytes.now) result }
        ensures costs { (s : StackState) → Stands self.old s → CostsInput (clocked now s).stack (reading bytes.now)
            result steps.old steps.new }
        ensures steps { steps.new ≤ steps.old + 67 }
    {
        self.set_clock(now);
        match read_datagram(bytes) {
            Err(fault) => Heard::Told(NodeArrival::Bad(fault)),
            Ok(datagram) => {
                let pair = Pair {
                    local: datagram.destination(),
                    remote: datagram.source(),
                };
                let asks = asks(&datagram);
                self.meet(&pair, asks, now, &datagram, steps)
            }
        }
    }

    /// A datagram comes, with steps in a ledger of its own.
    fn hear_bytes<'a, L: Ledger>(&mut self, blank: Blank, now: u64, bytes: &'a [u8]) -> Heard<'a>
        requires name { blank.name ≡ L.name }
        requires parts { blank.parts ≡ L.parts }
        requires part { 0 < blank.parts }
        requires time { now ≤ latest }
        ensures told { (s : StackState) → Stands self.old s
            → Follows self.new (Input (record { now = now; bytes = bytes.now })) s
            (IsHeard (reading bytes.now) result) }
        ensures passed { (s : StackState) → Stands self.old s
            → PassesAs (clocked now s).stack (reading bytes.now) result }
    {
        let mut steps = Steps::<L>::new(blank);
        self.input_counted(now, bytes, &mut steps)
    }

    /// A datagram comes, and nobody counts steps. All else is as for `input_counted`.
    pub fn input<'a>(&mut self, now: u64, bytes: &'a [u8]) -> Heard<'a>
        requires time { now ≤ latest }
        ensures told { (s : StackState) → Stands self.old s
            → Follows self.new (Input (record { now = now; bytes = bytes.now })) s
            (IsHeard (reading bytes.now) result) }
        ensures passed { (s : StackState) → Stands self.old s
            → PassesAs (clocked now s).stack (reading bytes.now) result }
    {
        self.hear_bytes::<Brand>(Blank::new(1), now, bytes)
    }
}
