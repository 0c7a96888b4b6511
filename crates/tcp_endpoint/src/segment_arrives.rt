//! A segment that passed the check.
ghost use Rattle.std.specs.Prelude.{◌≡◌, ◌+◌, ◌-◌, ◌≤◌, ◌<◌, ◌^◌, ◌==◌, ◌&&◌, ◌||◌, not, nat_le};
ghost use Rattle.std.specs.Prelude.{nat_lt, ℕ, List, Option, Some, None, true, false, is_some, length, if◌then◌else◌};
ghost use Rattle.tcp_segment.specs.Counter.{number as value_of};
ghost use Rattle.book_segments.specs.Meant.{meant};
ghost use Rattle.book_segments.specs.Segments.{has, FIN, SYN};
ghost use Rattle.book_keys.specs.Rows.{Row};
ghost use Rattle.book_endpoint.specs.States.{EndState, is_closed};
ghost use Rattle.book_endpoint.specs.Arrivals as book;
ghost use Rattle.book_endpoint.specs.Hearing as hearing;
ghost use Rattle.endpoint_steps.specs.Arriving as stages;
ghost use Rattle.ao_check.specs.Bonds.{Fits};
ghost use Rattle.tcp_endpoint.specs.Halves.{waits};
ghost use Rattle.tcp_endpoint.specs.Numbers.{expected_in};
ghost use Rattle.tcp_endpoint.specs.Ends.{Stands};
ghost use Rattle.tcp_endpoint.specs.Arrivals.{Reaches, InRange, LeavesAll, is_computed};

use crate::endpoint::Endpoint;
use crate::phases::hears;
use crate::sequence::Received;
use crate::windows::is_acceptable;
use ao_base::Steps;
use book_endpoint::{Arrival, Phase};
use key_table::Table;
use std::sync::ledger::Ledger;
use tcp_segment::{Counter, Datagram, Flag, ahead};

/// Whether a segment carries payload or a FIN.
fn carries(datagram: &Datagram<'_>) -> bool
    ensures { result ≡ (nat_lt 0 (length datagram.now.payload) || has FIN datagram.now) }
{
    !datagram.payload().is_empty() || datagram.has(Flag::Fin)
}

/// Whether a number that may be below 0 is above another.
fn is_above(number: Option<u64>, bound: u64) -> bool
    ensures { result ≡ hearing.above number bound }
{
    number.is_some_and(|number| bound < number)
}

/// The number that an acknowledgement means near the oldest one that isn't acknowledged: as far
/// from that as their low halves are around the ring. `None` is below 0.
fn acknowledged_by(acknowledgement: u32, una: Counter) -> Option<u64>
    requires { value_of una ≤ 2 ^ 63 + 1 }
    ensures { result ≡ meant acknowledgement (value_of una) }
{
    una.value()
        .checked_add_signed(ahead(acknowledgement, una.low))
}

/// The number expected next; 0 while nothing is known of the peer.
fn expected_in(received: Option<Received>) -> Counter
    ensures { value_of result ≡ expected_in received }
{
    match received {
        Some(received) => received.expected,
        None => Counter::of(0),
    }
}

impl Endpoint {
    /// Window, own FIN, payload and FIN (RFC 9293, section 3.10.7.4).
    fn go_on<L: Ledger>(
        &mut self,
        old_una: u64,
        datagram: &Datagram<'_>,
        number: u64,
        now: u64,
        acknowledged: Option<u64>,
        steps: &mut Steps<L>,
    ) -> Arrival
        requires known { is_some self.old.sequence.received ≡ true }
        requires range { InRange datagram.now number }
        requires now { now < 2 ^ 63 }
        ensures reaches { (s : EndState) → Stands self.old s → Reaches self.new result
            (stages.go_on s old_una datagram.now number now acknowledged) }
        ensures bond { self.new.association ≡ self.old.association }
        ensures told { LeavesAll result → ⊥ }
        ensures pair { self.new.pair ≡ self.old.pair }
        ensures steps { steps.new ≤ steps.old + 65 }
        ensures bare { length datagram.now.payload ≡ 0 → steps.new ≡ steps.old }
    {
        self.hear_window(old_una, datagram, number, acknowledged);
        self.hear_own_fin(acknowledged);
        if hears(self.phase) && carries(datagram) {
            return self.hear_data(datagram, number, now, steps);
        }
        self.rest(now);
        Arrival::Taken
    }

    /// The acknowledgement, by the phase (RFC 9293, section 3.10.7.4).
    fn hear_ack<L: Ledger>(
        &mut self,
        datagram: &Datagram<'_>,
        number: u64,
        now: u64,
        steps: &mut Steps<L>,
    ) -> Arrival
        requires known { is_some self.old.sequence.received ≡ true }
        requires opened { waits self.old.phase ≡ false }
        requires range { InRange datagram.now number }
        requires now { now < 2 ^ 63 }
        ensures reaches { (s : EndState) → Stands self.old s
            → Reaches self.new result (stages.acknowledged s datagram.now number now
            (meant datagram.now.acknowledgement s.una) s.phase) }
        ensures bond { self.new.association ≡ self.old.association }
        ensures told { LeavesAll result → ⊥ }
        ensures pair { self.new.pair ≡ self.old.pair }
        ensures steps { steps.new ≤ steps.old + 65 }
        ensures bare { length datagram.now.payload ≡ 0 → steps.new ≡ steps.old }
    {
        let una = self.sequence.una.value();
        let acknowledged = acknowledged_by(datagram.acknowledgement(), self.sequence.una);
        let past = is_above(acknowledged, self.sequence.next.value());
        match self.phase {
            Phase::SynReceived => {
                if !is_above(acknowledged, una) {
                    return Arrival::BadAck;
                }
                if past {
                    return Arrival::BadAck;
                }
                self.acknowledge(acknowledged);
                self.phase = Phase::Established;
                self.go_on(una, datagram, number, now, acknowledged, steps)
            }
            _ => {
                if past {
                    self.ack_owed = true;
                    return Arrival::BadAck;
                }
                self.acknowledge(acknowledged);
                self.go_on(una, datagram, number, now, acknowledged, steps)
            }
        }
    }

    /// An acceptable segment: RST, SYN, ACK (RFC 9293, section 3.10.7.4; RFC 5961, sections 3.2 and
    /// 4.2). The RNextKeyID is heard behind the RST.
    fn hear_acceptable<L: Ledger>(
        &mut self,
        table: &Table,
        datagram: &Datagram<'_>,
        number: u64,
        rnext: u8,
        now: u64,
        steps: &mut Steps<L>,
    ) -> Arrival
        requires known { is_some self.old.sequence.received ≡ true }
        requires opened { waits self.old.phase ≡ false }
        requires range { InRange datagram.now number }
        requires now { now < 2 ^ 63 }
        ensures reaches { (s : EndState) → Stands self.old s
            → Reaches self.new result (stages.ordinary s (book.heard table.now.rows self.old.pair now s rnext)
            datagram.now number now) }
        ensures told { LeavesAll result → ⊥ }
        ensures pair { self.new.pair ≡ self.old.pair }
        ensures fits { Fits table.now.rows self.old.association → Fits table.now.rows self.new.association }
        ensures keys { self.new.association.keys ≡ self.old.association.keys }
        ensures steps { steps.new ≤ steps.old + 65 }
        ensures bare { length datagram.now.payload ≡ 0 → steps.new ≡ steps.old }
    {
        if datagram.has(Flag::Rst) {
            if number == expected_in(self.sequence.received).value() {
                self.phase = Phase::Closed;
                return Arrival::Reset;
            }
            self.ack_owed = true;
            return Arrival::Challenge;
        }
        self.association.follow(table, rnext, now);
        if datagram.has(Flag::Syn) {
            self.ack_owed = true;
            return Arrival::Challenge;
        }
        if !datagram.has(Flag::Ack) {
            return Arrival::NoAck;
        }
        self.hear_ack(datagram, number, now, steps)
    }

    /// A segment that passed, by the phase (RFC 9293, sections 3.10.7.2 to 3.10.7.4). Before the
    /// peer's initial sequence number is known its number is its sequence; then, without SYN, the
    /// one that its sequence means near the number expected.
    pub(crate) fn hear<L: Ledger>(
        &mut self,
        table: &Table,
        datagram: &Datagram<'_>,
        number: u64,
        rnext: u8,
        now: u64,
        steps: &mut Steps<L>,
    ) -> Arrival
        requires alive { is_closed self.old.phase ≡ false }
        requires range { InRange datagram.now number }
        requires number { waits self.old.phase ≡ true → number ≡ datagram.now.sequence }
        requires near { waits self.old.phase ≡ false → has SYN datagram.now ≡ false
            → meant datagram.now.sequence (expected_in self.old.sequence.received) ≡ Some number }
        requires now { now < 2 ^ 63 }
        ensures reaches { (s : EndState) → Stands self.old s
            → Reaches self.new result (stages.after_check self.old.pair s
            (book.heard table.now.rows self.old.pair now s rnext) datagram.now number now s.phase) }
        ensures unchanged { LeavesAll result → self.new ≡ self.old }
        ensures pair { self.new.pair ≡ self.old.pair }
        ensures fits { Fits table.now.rows self.old.association → Fits table.now.rows self.new.association }
        ensures checked { is_computed result ≡ true }
        ensures keys { self.new.association.keys ≡ self.old.association.keys }
        ensures steps { steps.new ≤ steps.old + 65 }
        ensures bare { length datagram.now.payload ≡ 0 → steps.new ≡ steps.old }
    {
        match self.phase {
            Phase::Listen => self.hear_syn(table, datagram, rnext, now),
            Phase::SynSent => self.hear_syn_ack(table, datagram, rnext, now),
            _ => {
                let expected = expected_in(self.sequence.received);
                let window = self.reassembly.window();
                if !is_acceptable(datagram, number, expected, window) {
                    self.owe_unless(datagram.has(Flag::Rst));
                    return Arrival::Window;
                }
                self.hear_acceptable(table, datagram, number, rnext, now, steps)
            }
        }
    }

    /// An ACK is owed, but not for a RST.
    fn owe_unless(&mut self, reset: bool)
        ensures stands { (s : EndState) → Stands self.old s → Stands self.new (if reset then s else hearing.owing s) }
        ensures bond { self.new.association ≡ self.old.association }
        ensures pair { self.new.pair ≡ self.old.pair }
    {
        if !reset {
            self.ack_owed = true;
        }
    }
}
