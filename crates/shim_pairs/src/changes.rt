//! Whether what is kept of a pair must be saved.
ghost use Rattle.std.specs.Prelude.{◌≡◌};
ghost use Rattle.book_shim.specs.Saving as book;

use book_shim::{Isns, Kept};

/// How far a number may go before what is kept is saved again.
const STRETCH: u64 = 536_870_912;

/// Whether these are the same two numbers, or none.
fn same_isns(one: Option<Isns>, other: Option<Isns>) -> bool
    ensures { result ≡ book.is_same_connection one other }
{
    match (one, other) {
        (None, other) => other.is_none(),
        (Some(_), None) => false,
        (Some(one), Some(other)) => other.own == one.own && other.peer == one.peer,
    }
}

/// Whether this is the same row, or none.
fn same_row(one: Option<u8>, other: Option<u8>) -> bool
    ensures { result ≡ book.same_row one other }
{
    match (one, other) {
        (None, other) => other.is_none(),
        (Some(_), None) => false,
        (Some(one), Some(other)) => other == one,
    }
}

/// Whether what is kept must be saved before the datagram goes on that made it so.
pub(crate) fn is_to_save(before: &Kept, after: &Kept) -> bool
    ensures { result ≡ book.is_to_save before.now after.now }
{
    !same_isns(before.isns, after.isns)
        || (after.isns.is_some() && !same_row(before.current, after.current))
        || before.sent / STRETCH != after.sent / STRETCH
        || before.heard / STRETCH != after.heard / STRETCH
}
