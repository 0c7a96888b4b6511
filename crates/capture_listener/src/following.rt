//! Whether another connection followed between the same sockets, by the uses of the session.
ghost use Rattle.std.specs.Prelude.{◌≡◌, ◌&&◌, ◌||◌, nat_lt};
ghost use Rattle.std.specs.List.{slice_get};
ghost use Rattle.book_sessions.specs.Retiring.{goes_from, is_elsewhere, is_followed, is_onward, is_return};
ghost use Rattle.book_sessions.specs.Sessions.{knows_both};
ghost use Rattle.capture_listener.specs.Places.{uses_at};
ghost use Rattle.capture_listener.specs.AtPlaces.{followed_found};
ghost use Rattle.capture_listener.specs.Known.{HasSession};

use crate::ending::{is_onward, is_return};
use crate::evidence::Evidence;
use crate::wanting::goes_from;
use book_sessions::{FlowIsns, KeyUse};

fn knows_both(isns: Option<FlowIsns>) -> bool
    ensures { result ≡ knows_both isns }
{
    match isns {
        None => false,
        Some(isns) => isns.peer.is_some(),
    }
}

// Whether the second go between the sockets of the first, in either direction.
fn is_alongside(one: &KeyUse, other: &KeyUse) -> bool
    ensures { result ≡ (goes_from one.now.source one.now.destination other.now
        || goes_from one.now.destination one.now.source other.now) }
{
    goes_from(&one.source, &one.destination, other)
        || goes_from(&one.destination, &one.source, other)
}

fn is_same_connection(one: &KeyUse, other: &KeyUse) -> bool
    ensures { result ≡ (is_onward one.now other.now || is_return one.now other.now) }
{
    is_onward(one, other) || is_return(one, other)
}

// Whether the second passed between the sockets of the first, in another connection.
fn is_elsewhere(one: &KeyUse, other: &KeyUse) -> bool
    ensures { result ≡ is_elsewhere one.now other.now }
{
    is_alongside(one, other) && (knows_both(other.isns) && !is_same_connection(one, other))
}

// Whether the second follow the first in another connection.
fn comes_later(one: &KeyUse, other: &KeyUse) -> bool
    ensures { result ≡ (is_elsewhere one.now other.now && nat_lt one.now.moved other.now.packet) }
{
    is_elsewhere(one, other) && one.moved < other.packet
}

// Whether the use at this place follows them, if there is one, or others do.
fn followed_with(uses: &[KeyUse], place: usize, one: &KeyUse, others: bool) -> bool
    ensures { result ≡ followed_found (slice_get uses.now place) one.now others }
{
    match uses.get(place) {
        None => others,
        Some(other) => comes_later(one, other) || others,
    }
}

// Whether another connection followed, by the uses at these places.
fn is_followed_among(uses: &[KeyUse], places: &[usize], one: &KeyUse) -> bool
    ensures { result ≡ is_followed (uses_at uses.now places.now) one.now }
{
    let mut followed = false;
    let mut left = places.len();
    while left > 0 {
        left -= 1;
        followed = followed_with(uses, places[left], one, followed);
    }
    followed
}

/// Whether behind the last of these that moved on another connection was seen between their sockets.
pub(crate) fn is_followed(evidence: &Evidence, one: &KeyUse) -> bool
    requires { HasSession evidence.now.uses one.now }
    ensures { result ≡ is_followed evidence.now.uses one.now }
{
    is_followed_among(evidence.uses(), evidence.places_of(one.session), one)
}
