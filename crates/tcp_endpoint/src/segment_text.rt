//! Payload and FIN of an acceptable segment.
ghost use Rattle.std.specs.Prelude.{◌≡◌, ◌+◌, ◌-◌, ◌≤◌, ◌<◌, ◌^◌, ◌==◌, ◌&&◌, ◌||◌, not};
ghost use Rattle.std.specs.Prelude.{nat_le, nat_lt, ℕ, Option, Some, None, true, false, is_some, length, if◌then◌else◌};
ghost use Rattle.tcp_segment.specs.Counter.{number};
ghost use Rattle.book_segments.specs.Segments.{has, FIN};
ghost use Rattle.book_endpoint.specs.States.{EndState, hears};
ghost use Rattle.book_endpoint.specs.Hearing as hearing;
ghost use Rattle.endpoint_steps.specs.Arriving as stages;
ghost use Rattle.tcp_endpoint.specs.Numbers.{value_in};
ghost use Rattle.tcp_endpoint.specs.Ends.{Stands};
ghost use Rattle.tcp_endpoint.specs.Arrivals.{Reaches, LeavesAll};
ghost use Rattle.tcp_endpoint.specs.Fins.{is_at, past_or, phase_past};

use crate::endpoint::Endpoint;
use crate::sequence::Received;
use ao_base::Steps;
use book_endpoint::{Arrival, Phase};
use std::sync::ledger::Ledger;
use tcp_segment::{Counter, Datagram, Flag};

/// How long TIME-WAIT lasts, in seconds (RFC 9293, section 3.4.2).
const TIME_WAIT_SECONDS: u64 = 240;

/// The value of a counter, where there is one.
fn value_in(counter: Option<Counter>) -> Option<u64>
    ensures { result ≡ value_in counter }
{
    counter.map(|counter| counter.value())
}

/// A counter at a value, where there is one.
fn counter_in(value: Option<u64>) -> Option<Counter>
    ensures { value_in result ≡ value }
{
    value.map(Counter::of)
}

/// The FIN that is recorded: the first stays.
fn fin_then(fin: Option<u64>, records: bool, new: u64) -> Option<u64>
    ensures { result ≡ hearing.fin_of fin records new }
{
    fin.or(records.then_some(new))
}

/// Whether a FIN stands at a number.
fn is_at(fin: Option<u64>, number: u64) -> bool
    ensures { result ≡ is_at fin number }
{
    fin == Some(number)
}

/// The number behind one, where it is passed.
fn past_or(passes: bool, number: u64) -> u64
    requires { number < 2 ^ 64 - 1 }
    ensures { result ≡ past_or passes number }
{
    if passes { number + 1 } else { number }
}

/// The phase, once the peer's FIN is passed.
fn phase_past(passes: bool, phase: Phase) -> Phase
    ensures { result ≡ phase_past passes phase }
{
    if !passes {
        return phase;
    }
    match phase {
        Phase::Established => Phase::CloseWait,
        Phase::FinWait1 => Phase::Closing,
        Phase::FinWait2 => Phase::TimeWait,
        _ => phase,
    }
}

/// Whether a FIN at a number is recorded, from the flag, the window and whether a byte is kept at or
/// past it.
fn is_heard(fin: bool, at: u64, expected: u64, window: u64, kept: bool) -> bool
    requires { expected + window < 2 ^ 64 }
    ensures { result ≡ (fin && hearing.in_range at expected (expected + window) && not kept) }
{
    fin && expected <= at && at < expected + window && !kept
}

impl Endpoint {
    /// Entering TIME-WAIT sets its deadline (RFC 9293, section 3.4.2).
    pub(crate) fn rest(&mut self, now: u64)
        requires { now < 2 ^ 63 }
        ensures stands { (s : EndState) → Stands self.old s → Stands self.new
            (hearing.rested s now s.phase s.deadline) }
        ensures bond { self.new.association ≡ self.old.association }
        ensures pair { self.new.pair ≡ self.old.pair }
    {
        match self.phase {
            Phase::TimeWait => match self.deadline {
                Some(_) => {}
                None => self.deadline = Some(now + TIME_WAIT_SECONDS),
            },
            _ => {}
        }
    }

    /// Payload and FIN are heard (RFC 9293, section 3.10.7.4).
    pub(crate) fn hear_data<L: Ledger>(
        &mut self,
        datagram: &Datagram<'_>,
        number: u64,
        now: u64,
        steps: &mut Steps<L>,
    ) -> Arrival
        requires hears { hears self.old.phase ≡ true }
        requires range { number + length datagram.now.payload ≤ 2 ^ 63 }
        requires last { has FIN datagram.now ≡ true → number + length datagram.now.payload < 2 ^ 63 }
        requires now { now < 2 ^ 63 }
        ensures reaches { (s : EndState) → Stands self.old s → Reaches self.new result
            (stages.hear_data s datagram.now number now true) }
        ensures bond { self.new.association ≡ self.old.association }
        ensures told { LeavesAll result → ⊥ }
        ensures pair { self.new.pair ≡ self.old.pair }
        ensures steps { steps.new ≤ steps.old + 65 }
        ensures bare { length datagram.now.payload ≡ 0 → steps.new ≡ steps.old }
    {
        let received = match self.sequence.received {
            Some(received) => received,
            None => unreachable!(),
        };
        let payload = datagram.payload();
        let expected = self.reassembly.expected();
        let window = u64::from(self.reassembly.window());
        self.ack_owed = true;
        match self
            .reassembly
            .keep(number, payload, value_in(received.fin), steps)
        {
            Ok(()) => {}
            Err(_) => return Arrival::TooManyRuns,
        }
        let end = number + payload.len() as u64;
        let kept = self.reassembly.kept_from(end);
        let records = is_heard(datagram.has(Flag::Fin), end, expected, window, kept);
        let fin = fin_then(value_in(received.fin), records, end);
        let reached = self.reassembly.expected();
        let passes = is_at(fin, reached);
        self.sequence.received = Some(Received {
            expected: Counter::of(past_or(passes, reached)),
            wl1: received.wl1,
            wl2: received.wl2,
            fin: counter_in(fin),
        });
        self.phase = phase_past(passes, self.phase);
        self.rest(now);
        Arrival::Taken
    }
}
