//! How the connection of segments ends, by the uses of its session.
ghost use Rattle.std.specs.Prelude.{◌≡◌, ◌&&◌, ◌||◌, nat_lt};
ghost use Rattle.std.specs.List.{slice_get};
ghost use Rattle.book_sessions.specs.Retiring.{and_ending, ending_by, fits_peer, if_both, both_finished, is_ended};
ghost use Rattle.book_sessions.specs.Retiring.{is_onward, is_other_side, is_return, is_this_side, with_mark};
ghost use Rattle.capture_listener.specs.Places.{uses_at};
ghost use Rattle.capture_listener.specs.AtPlaces.{ending_found};

use ao_base::is_same_socket;
use book_sessions::{Ending, FlowIsns, KeyUse};

fn fits_peer(asked: Option<u32>, found: Option<u32>) -> bool
    ensures { result ≡ fits_peer asked found }
{
    match asked {
        None => true,
        Some(_) => found == asked,
    }
}

fn is_this_side(one: &FlowIsns, other: &FlowIsns) -> bool
    ensures { result ≡ is_this_side one.now other.now }
{
    one.own == other.own && fits_peer(one.peer, other.peer)
}

fn is_other_side(one: &FlowIsns, other: &FlowIsns) -> bool
    ensures { result ≡ is_other_side one.now other.now }
{
    other.peer == Some(one.own) && fits_peer(one.peer, Some(other.own))
}

// Whether both have numbers, and those of the second are of the first's connection, as its side sees it.
fn are_this_side(one: Option<FlowIsns>, other: Option<FlowIsns>) -> bool
    ensures { result ≡ if_both is_this_side one other }
{
    match (one, other) {
        (Some(one), Some(other)) => is_this_side(&one, &other),
        _ => false,
    }
}

// The same, as the other side sees it.
fn are_other_side(one: Option<FlowIsns>, other: Option<FlowIsns>) -> bool
    ensures { result ≡ if_both is_other_side one other }
{
    match (one, other) {
        (Some(one), Some(other)) => is_other_side(&one, &other),
        _ => false,
    }
}

/// Whether the second are of the connection of the first, and go its way.
pub(crate) fn is_onward(one: &KeyUse, other: &KeyUse) -> bool
    ensures { result ≡ is_onward one.now other.now }
{
    (is_same_socket(&one.source, &other.source)
        && is_same_socket(&one.destination, &other.destination))
        && are_this_side(one.isns, other.isns)
}

/// Whether the second are of the connection of the first, and go the other way.
pub(crate) fn is_return(one: &KeyUse, other: &KeyUse) -> bool
    ensures { result ≡ is_return one.now other.now }
{
    (is_same_socket(&one.source, &other.destination)
        && is_same_socket(&one.destination, &other.source))
        && are_other_side(one.isns, other.isns)
}

/// A number, with another that counts in one case.
pub(crate) fn with_mark(counts: bool, mark: u64, before: u64) -> u64
    ensures { result ≡ with_mark counts mark before }
{
    if counts { mark.max(before) } else { before }
}

fn is_reset(onward: bool, back: bool, mark: u64, before: bool) -> bool
    ensures { result ≡ (((onward || back) && nat_lt 0 mark) || before) }
{
    ((onward || back) && mark > 0) || before
}

// What the second show of the ending of the connection of the first.
fn and_ending(one: &KeyUse, other: &KeyUse, ending: Ending) -> Ending
    ensures { result ≡ and_ending one.now other.now ending }
{
    let onward = is_onward(one, other);
    let back = is_return(one, other);
    Ending {
        reset: is_reset(onward, back, other.reset, ending.reset),
        onward: with_mark(onward, other.finished, ending.onward),
        back: with_mark(back, other.finished, ending.back),
        moved: with_mark(onward || back, other.moved, ending.moved),
    }
}

// The same by the use at this place, if there is one.
fn ending_with(uses: &[KeyUse], place: usize, one: &KeyUse, ending: Ending) -> Ending
    ensures { result ≡ ending_found (slice_get uses.now place) one.now ending }
{
    match uses.get(place) {
        None => ending,
        Some(other) => and_ending(one, other, ending),
    }
}

/// How the connection of a use ends, by the uses at these places.
pub(crate) fn ending_among(uses: &[KeyUse], places: &[usize], one: &KeyUse) -> Ending
    ensures { result ≡ ending_by one.now (uses_at uses.now places.now) }
{
    let mut ending = Ending {
        reset: false,
        onward: 0,
        back: 0,
        moved: 0,
    };
    let mut left = places.len();
    while left > 0 {
        left -= 1;
        ending = ending_with(uses, places[left], one, ending);
    }
    ending
}

fn both_finished(ending: &Ending) -> bool
    ensures { result ≡ both_finished ending.now }
{
    (ending.onward > 0 && ending.back > 0) && ending.moved <= ending.onward.max(ending.back)
}

/// Whether the connection ended: by a RST at the number expected, or by a FIN of either side.
pub(crate) fn is_ended(ending: &Ending) -> bool
    ensures { result ≡ is_ended ending.now }
{
    ending.reset || both_finished(ending)
}
