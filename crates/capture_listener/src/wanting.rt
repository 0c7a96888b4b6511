//! What goes from one socket to another shows of a row.
ghost use Rattle.std.specs.Prelude.{◌≡◌, Some};
ghost use Rattle.std.specs.List.{slice_get};
ghost use Rattle.book_sessions.specs.Retiring.{and_wanting, goes_from, wanting_by, wants_row};
ghost use Rattle.capture_listener.specs.Places.{uses_at};
ghost use Rattle.capture_listener.specs.AtPlaces.{wanting_found};

use crate::ending::with_mark;
use crate::live::is_counted;
use crate::rows_of::wants_row;
use crate::seen::is_verified;
use ao_base::is_same_socket;
use book_base::Socket;
use book_sessions::{KeyUse, Wanting};
use key_table::{Row, Table};

/// Whether these go from one socket to the other.
pub fn goes_from(source: &Socket, destination: &Socket, one: &KeyUse) -> bool
    ensures { result ≡ goes_from source.now destination.now one.now }
{
    is_same_socket(&one.source, source) && is_same_socket(&one.destination, destination)
}

// What these show of their way, where it is told whether they want the row.
fn and_wanting(wants: bool, one: &KeyUse, wanting: Wanting) -> Wanting
    ensures { result ≡ and_wanting wants one.now wanting }
{
    Wanting {
        wanted: with_mark(wants && is_counted(one), one.packet, wanting.wanted),
        moved: with_mark(!wants && is_verified(one.outcome), one.moved, wanting.moved),
    }
}

// The same by one use, if it goes this way.
fn wanting_one(
    table: &Table,
    number: u64,
    row: &Row,
    source: &Socket,
    destination: &Socket,
    one: &KeyUse,
    wanting: Wanting,
) -> Wanting
    ensures { result ≡ wanting_found (wants_row table.now number row.now) source.now destination.now (Some one.now)
        wanting }
{
    if goes_from(source, destination, one) {
        and_wanting(wants_row(table, number, row, one), one, wanting)
    } else {
        wanting
    }
}

// The same by the use at this place, if there is one.
fn wanting_with(
    table: &Table,
    number: u64,
    row: &Row,
    source: &Socket,
    destination: &Socket,
    uses: &[KeyUse],
    place: usize,
    wanting: Wanting,
) -> Wanting
    ensures { result ≡ wanting_found (wants_row table.now number row.now) source.now destination.now
        (slice_get uses.now place) wanting }
{
    match uses.get(place) {
        None => wanting,
        Some(one) => wanting_one(table, number, row, source, destination, one, wanting),
    }
}

/// What goes from one socket to the other shows of the row, by the uses at these places.
pub(crate) fn wanting_among(
    table: &Table,
    number: u64,
    row: &Row,
    source: &Socket,
    destination: &Socket,
    uses: &[KeyUse],
    places: &[usize],
) -> Wanting
    ensures { result ≡ wanting_by (wants_row table.now number row.now) source.now destination.now
        (uses_at uses.now places.now) }
{
    let mut wanting = Wanting {
        wanted: 0,
        moved: 0,
    };
    let mut left = places.len();
    while left > 0 {
        left -= 1;
        wanting = wanting_with(
            table,
            number,
            row,
            source,
            destination,
            uses,
            places[left],
            wanting,
        );
    }
    wanting
}
