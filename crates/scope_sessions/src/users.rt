//! Who used a row of a key file last, and who asks for it.
ghost use Rattle.std.specs.Prelude.{◌≡◌, Some, if◌then◌else◌};
ghost use Rattle.std.specs.List.{find};
ghost use Rattle.book_sessions.specs.KeyLines.{asks_still, last_of, later_of};
ghost use Rattle.book_sessions.specs.Retiring.{carries_row};
ghost use Rattle.capture_listener.specs.Known.{HasSession};

use book_sessions::KeyUse;
use capture_listener::{Evidence, asks_for_row, carries_row, goes_without};
use key_table::{Row, Table};

fn later_of(one: &KeyUse, last: Option<KeyUse>) -> KeyUse
    ensures { result ≡ later_of one.now last }
{
    match last {
        None => *one,
        Some(last) => { if last.packet < one.packet { *one } else { last } }
    }
}

fn with_chosen(chosen: bool, one: &KeyUse, last: Option<KeyUse>) -> Option<KeyUse>
    ensures { result ≡ (if chosen then Some (later_of one.now last) else last) }
{
    if chosen {
        Some(later_of(one, last))
    } else {
        last
    }
}

/// The segments that carry the KeyID of row number `number` and were seen last, if there are some.
pub(crate) fn last_carrying(
    uses: &[KeyUse],
    table: &Table,
    number: u64,
    row: &Row,
) -> Option<KeyUse>
    ensures { result ≡ last_of (carries_row table.now number row.now) uses.now }
{
    let mut last = None;
    let mut left = uses.len();
    while left > 0 {
        left -= 1;
        let one = &uses[left];
        last = with_chosen(carries_row(table, number, row, one), one, last);
    }
    last
}

// Whether these ask for the row, and what goes their way doesn't do without it.
fn asks_still(evidence: &Evidence, table: &Table, number: u64, row: &Row, one: &KeyUse) -> bool
    requires { HasSession evidence.now.uses one.now }
    ensures { result ≡ asks_still evidence.now table.now number row.now one.now }
{
    asks_for_row(table, row, one) && !goes_without(evidence, table, number, row, one)
}

/// The first segments of those that ask for the row still, if there are some.
pub(crate) fn first_asking(
    evidence: &Evidence,
    table: &Table,
    number: u64,
    row: &Row,
) -> Option<KeyUse>
    ensures { result ≡ find (asks_still evidence.now table.now number row.now) evidence.now.live }
{
    for one in evidence.live() {
        if asks_still(evidence, table, number, row, one) {
            return Some(*one);
        }
    }
    None
}
