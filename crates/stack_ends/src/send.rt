//! An end is asked for a segment.
ghost use Rattle.std.specs.Prelude.{◌≡◌, ◌≤◌, ◌+◌, length, List, nat_lt, not};
ghost use Rattle.book_keys.specs.Rows.{Row};
ghost use Rattle.book_endpoint.specs.States.{EndState, gives};
ghost use Rattle.book_endpoint.specs.Emissions.{unsent};
ghost use Rattle.book_cmd_node.specs.declared.node.Act.TheVariants as act;
ghost use Rattle.stack_ends.specs.EndsCalls.{act_on};
ghost use Rattle.tcp_endpoint.specs.Ends.{Stands, FitsEnd, pair_at_end};
ghost use Rattle.tcp_endpoint.specs.Numbers.{expected_in};
ghost use Rattle.book_stack.specs.Watches.{awaits, end_front};
ghost use Rattle.stack_ends.specs.Costs.{CostsSaid};
ghost use Rattle.stack_ends.specs.Said.{Leaves, Speaks, said, said_again};

use ao_base::Steps;
use book_endpoint::Phase;
use book_stack::{Change, Front};
use key_table::Table;
use std::sync::ledger::Ledger;
use tcp_endpoint::{Emission, Endpoint, GiveAnswer, Received, Resent};

/// What an end answered that was asked for a segment.
#[derive(Clone, Copy, Debug, PartialEq, Eq)]
pub enum Says {
    /// A segment of so many bytes was made.
    Segment(usize),
    /// One would be made, but no row is sendable.
    NoKey,
    /// Nothing is to be sent.
    Nothing,
}

/// An end was asked for a segment: what it answered, where it stood before and after, and whether it
/// waits for its peer.
#[derive(Clone, Copy, Debug, PartialEq, Eq)]
pub struct Spoken {
    pub says: Says,
    pub change: Change,
    pub waits: bool,
}

/// The number that is expected next, 0 before any.
fn expected_in(received: &Option<Received>) -> u64
    ensures { result ≡ expected_in received.now }
{
    match received {
        None => 0,
        Some(received) => received.expected.value(),
    }
}

/// Where an end stands.
pub(crate) fn front_of(end: &Endpoint) -> Front
    ensures { (s : EndState) → Stands end.now s → result ≡ end_front s }
{
    Front {
        phase: end.phase(),
        una: end.una(),
        next: end.next(),
        expected: expected_in(&end.sequence().received),
    }
}

/// Whether `close` or `abort` was called at an end, or it is closed: then no byte is taken, and else an
/// empty piece is, which changes nothing.
fn is_finished(end: &mut Endpoint) -> bool
    ensures finished { (s : EndState) → Stands end.old s → result ≡ not (gives s) }
    ensures stands { (s : EndState) → Stands end.old s → Stands end.new s }
    ensures pair { pair_at_end end.new ≡ pair_at_end end.old }
    ensures fits { (rows : List Row) → FitsEnd rows end.old → FitsEnd rows end.new }
{
    match end.give(&[]) {
        GiveAnswer::Closed => true,
        GiveAnswer::Full => false,
        GiveAnswer::Ok => false,
    }
}

/// Whether given bytes aren't sent.
fn has_unsent(end: &Endpoint) -> bool
    ensures { (s : EndState) → Stands end.now s → result ≡ nat_lt 0 (unsent s) }
{
    u128::from(end.next()) < u128::from(end.isn()) + 1 + u128::from(end.given())
}

/// Whether something isn't acknowledged or waits for the peer's window.
fn waits(end: &mut Endpoint) -> bool
    ensures waits { (s : EndState) → Stands end.old s → result ≡ awaits s }
    ensures stands { (s : EndState) → Stands end.old s → Stands end.new s }
    ensures pair { pair_at_end end.new ≡ pair_at_end end.old }
    ensures fits { (rows : List Row) → FitsEnd rows end.old → FitsEnd rows end.new }
{
    match end.phase() {
        Phase::SynSent => u64::from(end.isn()) < end.next(),
        Phase::SynReceived => u64::from(end.isn()) < end.next(),
        Phase::Established => end.una() < end.next() || has_unsent(end) || is_finished(end),
        Phase::CloseWait => end.una() < end.next() || has_unsent(end) || is_finished(end),
        Phase::FinWait1 => end.una() < end.next(),
        Phase::Closing => end.una() < end.next(),
        Phase::LastAck => end.una() < end.next(),
        Phase::Listen => false,
        Phase::FinWait2 => false,
        Phase::TimeWait => false,
        Phase::Closed => false,
    }
}

/// What an end says that made a segment, or didn't.
fn said(emission: &Emission) -> Says
    ensures { result ≡ said emission.now }
{
    match emission {
        Emission::Segment(made) => Says::Segment(made.length),
        Emission::NoKey => Says::NoKey,
        Emission::Idle => Says::Nothing,
    }
}

/// The same of a segment that is made again.
fn said_again(resent: &Resent) -> Says
    ensures { result ≡ said_again resent.now }
{
    match resent {
        Resent::Segment(made) => Says::Segment(made.length),
        Resent::NoKey => Says::NoKey,
        Resent::Nothing => Says::Nothing,
    }
}

/// An end makes its next segment in front of `room`, which stays where it makes none.
pub(crate) fn speak<L: Ledger>(
    end: &mut Endpoint,
    table: &Table,
    clock: u64,
    room: &mut [u8],
    steps: &mut Steps<L>,
) -> Spoken
    requires fits { FitsEnd table.now.rows end.old }
    requires room { 1500 ≤ length room.old }
    ensures speaks { (s : EndState) → Stands end.old s
        → Speaks end.new room.new result s (act_on table.now.rows (pair_at_end end.old) clock s act.Send) }
    ensures room { Leaves room.old room.new result.says }
    ensures pair { pair_at_end end.new ≡ pair_at_end end.old }
    ensures fits { FitsEnd table.now.rows end.new }
    ensures costs { CostsSaid result.says steps.old steps.new }
    ensures steps { steps.new ≤ steps.old + 1 }
{
    let before = front_of(end);
    let emission = end.emit(table, clock, room, steps);
    let after = front_of(end);
    let waits = waits(end);
    Spoken {
        says: said(&emission),
        change: Change { before, after },
        waits,
    }
}

/// An end makes a segment again in front of `room`, which stays where it makes none.
pub(crate) fn repeat<L: Ledger>(
    end: &mut Endpoint,
    table: &Table,
    clock: u64,
    room: &mut [u8],
    steps: &mut Steps<L>,
) -> Spoken
    requires fits { FitsEnd table.now.rows end.old }
    requires room { 1500 ≤ length room.old }
    ensures speaks { (s : EndState) → Stands end.old s
        → Speaks end.new room.new result s (act_on table.now.rows (pair_at_end end.old) clock s act.Resend) }
    ensures room { Leaves room.old room.new result.says }
    ensures pair { pair_at_end end.new ≡ pair_at_end end.old }
    ensures fits { FitsEnd table.now.rows end.new }
    ensures costs { CostsSaid result.says steps.old steps.new }
    ensures steps { steps.new ≤ steps.old + 1 }
{
    let before = front_of(end);
    let resent = end.resend(table, clock, room, steps);
    let after = front_of(end);
    let waits = waits(end);
    Spoken {
        says: said_again(&resent),
        change: Change { before, after },
        waits,
    }
}
