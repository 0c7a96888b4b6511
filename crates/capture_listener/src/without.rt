//! Who does without a row.
ghost use Rattle.std.specs.Prelude.{◌≡◌, ◌||◌, ◌&&◌, not};
ghost use Rattle.std.specs.List.{list_all, list_any};
ghost use Rattle.book_sessions.specs.OutcomeTexts.{is_verified};
ghost use Rattle.book_sessions.specs.Retiring.{all_without, both_without, does_without, goes_without, is_at_row};
ghost use Rattle.book_sessions.specs.Retiring.{is_in_use, wanting_by, wants_row};
ghost use Rattle.capture_listener.specs.Known.{HasSession, Knows};

use crate::evidence::Evidence;
use crate::rows_of::{is_at_row, wants_row};
use crate::seen::is_verified;
use crate::wanting::wanting_among;
use book_base::Socket;
use book_sessions::{KeyUse, Wanting};
use key_table::{Row, Table};

// What goes from one socket to the other shows of the row, found among the uses of the session that is known
// between the two.
fn wanting_by(
    evidence: &Evidence,
    table: &Table,
    number: u64,
    row: &Row,
    session: u64,
    source: &Socket,
    destination: &Socket,
) -> Wanting
    requires { Knows evidence.now.uses source.now destination.now session }
    ensures { result ≡ wanting_by (wants_row table.now number row.now) source.now destination.now evidence.now.uses }
{
    wanting_among(
        table,
        number,
        row,
        source,
        destination,
        evidence.uses(),
        evidence.places_of(session),
    )
}

/// Whether what goes the way of these does without the row: behind all that wants it a verified segment moved
/// on that doesn't.
pub fn goes_without(
    evidence: &Evidence,
    table: &Table,
    number: u64,
    row: &Row,
    one: &KeyUse,
) -> bool
    requires { HasSession evidence.now.uses one.now }
    ensures { result ≡ goes_without (wants_row table.now number row.now) evidence.now.uses one.now }
{
    let wanting = wanting_by(
        evidence,
        table,
        number,
        row,
        one.session,
        &one.source,
        &one.destination,
    );
    wanting.wanted < wanting.moved
}

/// Whether what goes the other way than these does without the row.
pub fn returns_without(
    evidence: &Evidence,
    table: &Table,
    number: u64,
    row: &Row,
    one: &KeyUse,
) -> bool
    requires { HasSession evidence.now.uses one.now }
    ensures { result ≡ does_without (wants_row table.now number row.now) one.now.destination one.now.source
        evidence.now.uses }
{
    let wanting = wanting_by(
        evidence,
        table,
        number,
        row,
        one.session,
        &one.destination,
        &one.source,
    );
    wanting.wanted < wanting.moved
}

// Whether both sides of these do without the row.
fn both_without(evidence: &Evidence, table: &Table, number: u64, row: &Row, one: &KeyUse) -> bool
    requires { HasSession evidence.now.uses one.now }
    ensures { result ≡ both_without (wants_row table.now number row.now) evidence.now.uses one.now }
{
    goes_without(evidence, table, number, row, one)
        && returns_without(evidence, table, number, row, one)
}

// Whether these aren't at the row, or both sides of them do without it.
fn is_without(evidence: &Evidence, table: &Table, number: u64, row: &Row, one: &KeyUse) -> bool
    requires { HasSession evidence.now.uses one.now }
    ensures { result ≡ (not (is_at_row table.now row.now one.now)
        || both_without (wants_row table.now number row.now) evidence.now.uses one.now) }
{
    !is_at_row(table, row, one) || both_without(evidence, table, number, row, one)
}

/// Whether both sides of each connection at the row that goes on do without it.
pub fn all_without(evidence: &Evidence, table: &Table, number: u64, row: &Row) -> bool
    ensures { result ≡ all_without evidence.now table.now number row.now }
{
    for one in evidence.live() {
        if !is_without(evidence, table, number, row, one) {
            return false;
        }
    }
    true
}

// Whether a verified one of these wants the row, and what goes its way doesn't do without it.
fn is_using(evidence: &Evidence, table: &Table, number: u64, row: &Row, one: &KeyUse) -> bool
    requires { HasSession evidence.now.uses one.now }
    ensures { result ≡ ((is_verified one.now.outcome && wants_row table.now number row.now one.now)
        && not (goes_without (wants_row table.now number row.now) evidence.now.uses one.now)) }
{
    (is_verified(one.outcome) && wants_row(table, number, row, one))
        && !goes_without(evidence, table, number, row, one)
}

/// Whether a verified segment of a connection that goes on wants the row, and what goes its way doesn't do
/// without it.
pub(crate) fn is_in_use(evidence: &Evidence, table: &Table, number: u64, row: &Row) -> bool
    ensures { result ≡ is_in_use evidence.now table.now number row.now }
{
    for one in evidence.live() {
        if is_using(evidence, table, number, row, one) {
            return true;
        }
    }
    false
}
