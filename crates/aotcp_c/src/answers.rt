//! What a datagram was answered, as numbers.
ghost use Rattle.std.specs.Prelude.{◌≡◌};
ghost use Rattle.tcp_endpoint.specs.Arrivals.{found_of};
ghost use Rattle.aotcp_c.specs.Shapes.{answered, heard_of, number_in, row_in, told_of};

use crate::numbers::{arrival_number, datagram_number, reason_number, verdict_number};
use crate::pairs::{no_pair, told_pair};
use crate::shapes::CHeard;
use ao_stack::Heard;
use stack_ends::NodeArrival;
use tcp_endpoint::Passing;

/// The row under which a segment passed, 0 for none.
fn row_in(passed: Option<Passing<'_>>) -> u8
    ensures { result ≡ row_in (found_of passed.entry) }
{
    match passed {
        Some(one) => one.passed.row,
        None => 0,
    }
}

/// The number of a segment that passed, 0 for none.
fn number_in(passed: Option<Passing<'_>>) -> u64
    ensures { result ≡ number_in (found_of passed.entry) }
{
    match passed {
        Some(one) => one.passed.number,
        None => 0,
    }
}

/// An answer without a pair.
fn answered(answer: u8, reason: u8) -> CHeard
    ensures { result ≡ answered answer reason }
{
    CHeard {
        number: 0,
        pair: no_pair(),
        answer,
        reason,
        passed: false,
        row: 0,
    }
}

/// What a node answered, as numbers.
fn told_of(told: &NodeArrival<'_>) -> CHeard
    ensures { result ≡ told_of told.now }
{
    match told {
        NodeArrival::Bad(fault) => answered(0, datagram_number(*fault)),
        NodeArrival::NoConnection => answered(13, 0),
        NodeArrival::At(pair, arrived) => CHeard {
            number: number_in(arrived.passed),
            pair: told_pair(pair),
            answer: arrival_number(arrived.arrival),
            reason: reason_number(arrived.arrival),
            passed: arrived.passed.is_some(),
            row: row_in(arrived.passed),
        },
    }
}

/// What a stack answered, as numbers.
pub(crate) fn heard_of(heard: &Heard<'_>) -> CHeard
    ensures { result ≡ heard_of heard.now }
{
    match heard {
        Heard::Told(told) => told_of(told),
        Heard::Moved(told) => told_of(told),
        Heard::Refused(why) => answered(4, verdict_number(*why)),
        Heard::Knocks(pair) => CHeard {
            number: 0,
            pair: told_pair(pair),
            answer: 14,
            reason: 0,
            passed: false,
            row: 0,
        },
    }
}
