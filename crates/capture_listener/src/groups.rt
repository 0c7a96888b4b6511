//! Segments, counted among the uses of their session.
ghost use Rattle.std.specs.Prelude.{◌≡◌, ◌≤◌, ◌<◌, ◌+◌, ◌++◌, ℕ, IfOk, List, None, OnErr, OnOk, Some, length};
ghost use Rattle.std.specs.BTreeMap.{is_at};
ghost use Rattle.std.specs.List.{slice_get};
ghost use Rattle.std.specs.Map.{lookup};
ghost use Rattle.book_base.specs.declared.address.Pair.{Pair as Ends};
ghost use Rattle.book_base.specs.Orders.{by_pair, sorted_pair};
ghost use Rattle.book_sessions.specs.declared.uses.KeyUse.{KeyUse as Use};
ghost use Rattle.capture_listener.specs.Groups.{CountsAgain, CountsNext, CountsSegment, IsIndexed, lists_of};
ghost use Rattle.book_sessions.specs.Sessions.{signs_of};
ghost use Rattle.capture_listener.specs.Places.{and_found, is_use_found, number_between, place_among, reached_among};
ghost use Rattle.capture_listener.specs.Places.{reached_with, uses_at};

use crate::segment::{first_use, is_use_of, used_again};
use crate::signs::{greater_of, is_flow_of, signs_at};
use book_base::Pair;
use book_sessions::{KeyUse, SeenSegment, Signs};
use std::alloc::{AllocError, Global};
use std::collections::BTreeMap;

fn is_use_at(segment: &SeenSegment, uses: &[KeyUse], place: usize) -> bool
    ensures { result ≡ is_use_found segment.now (slice_get uses.now place) }
{
    uses.get(place).is_some_and(|one| is_use_of(segment, one))
}

// The first of these places at which a segment is one of the use.
fn place_among(segment: &SeenSegment, uses: &[KeyUse], places: &[usize]) -> Option<usize>
    ensures { result ≡ place_among segment.now uses.now places.now }
{
    for place in places {
        if is_use_at(segment, uses, *place) {
            return Some(*place);
        }
    }
    None
}

fn reached_with(segment: &SeenSegment, one: &KeyUse, others: Option<u64>) -> Option<u64>
    ensures { result ≡ reached_with segment.now (Some one.now) others }
{
    if is_flow_of(segment, one) {
        Some(greater_of(one.reached, others))
    } else {
        others
    }
}

fn reached_at(
    segment: &SeenSegment,
    uses: &[KeyUse],
    place: usize,
    others: Option<u64>,
) -> Option<u64>
    ensures { result ≡ reached_with segment.now (slice_get uses.now place) others }
{
    match uses.get(place) {
        None => others,
        Some(one) => reached_with(segment, one, others),
    }
}

// How far the uses at these places came that passed in the segment's connection and go its way.
fn reached_among(segment: &SeenSegment, uses: &[KeyUse], places: &[usize]) -> Option<u64>
    ensures { result ≡ reached_among segment.now uses.now places.now }
{
    let mut reached = None;
    let mut left = places.len();
    while left > 0 {
        left -= 1;
        reached = reached_at(segment, uses, places[left], reached);
    }
    reached
}

/// What a segment of the session of this number shows, behind those that were seen.
pub(crate) fn signs_among(
    uses: &[KeyUse],
    groups: &Vec<Vec<usize>>,
    number: usize,
    segment: &SeenSegment,
) -> Signs
    requires least { 1 ≤ number }
    requires most { number ≤ length groups.now.items }
    ensures { (numbers : List (Ends × ℕ)) → IsIndexed uses.now (lists_of groups.now.items) numbers
        → number_between segment.now.source segment.now.destination uses.now ≡ Some number
        → result ≡ signs_of segment.now uses.now }
{
    signs_at(
        reached_among(segment, uses, groups[number - 1].as_slice()),
        segment,
    )
}

// One more of the segments at this place. Where 2^64 - 1 are counted nothing has changed.
fn count_again(
    uses: &mut Vec<KeyUse>,
    place: usize,
    signs: Signs,
    segment: &SeenSegment,
) -> Result<(), AllocError>
    requires { place < length uses.old.items }
    ensures counted { OnOk result (CountsAgain signs segment.now place uses.old.items uses.new.items) }
    ensures unchanged { OnErr result (uses.new.items ≡ uses.old.items) }
{
    let again = used_again(signs, segment, &uses[place]).ok_or(AllocError)?;
    uses[place] = again;
    Ok(())
}

// The first of its kind, in a session that has uses at these places. After want of memory nothing has
// changed.
fn count_next(
    uses: &mut Vec<KeyUse>,
    places: &mut Vec<usize>,
    number: u64,
    signs: Signs,
    segment: &SeenSegment,
) -> Result<(), AllocError>
    ensures counted { OnOk result (CountsNext number signs segment.now uses.old.items uses.new.items places.old.items
        places.new.items) }
    ensures unchanged { OnErr result ((uses.new.items ≡ uses.old.items) × (places.new.items ≡ places.old.items)) }
{
    uses.reserve(1)?;
    places.push(uses.len())?;
    uses.push_reserved(first_use(number, signs, segment));
    Ok(())
}

/// The number that is kept for the two sockets of a segment.
pub(crate) fn number_of(numbers: &BTreeMap<Pair, usize>, segment: &SeenSegment) -> Option<usize>
    ensures { result ≡ lookup (is_at (by_pair (sorted_pair segment.now.source segment.now.destination)))
        numbers.now.entries }
{
    numbers
        .get(&Pair::sorted(segment.source, segment.destination))
        .copied()
}

/// Counts a segment of the session of this number. After an error nothing has changed: it comes for want
/// of memory, or where 2^64 - 1 segments of its kind are counted.
pub(crate) fn count_known(
    uses: &mut Vec<KeyUse>,
    groups: &mut Vec<Vec<usize>>,
    number: usize,
    signs: Signs,
    segment: &SeenSegment,
) -> Result<(), AllocError>
    requires least { 1 ≤ number }
    requires most { number ≤ length groups.old.items }
    ensures counted { (numbers : List (Ends × ℕ)) → IsIndexed uses.old.items (lists_of groups.old.items) numbers
        → number_between segment.now.source segment.now.destination uses.old.items ≡ Some number
        → OnOk result (CountsSegment number signs segment.now uses.old.items uses.new.items (lists_of groups.new.items)
        numbers) }
    ensures unchanged { OnErr result ((uses.new.items ≡ uses.old.items)
        × (lists_of groups.new.items ≡ lists_of groups.old.items)) }
    ensures size { length groups.new.items ≡ length groups.old.items }
{
    let group = number - 1;
    match place_among(segment, uses.as_slice(), groups[group].as_slice()) {
        Some(place) => count_again(uses, place, signs, segment),
        None => count_next(uses, &mut groups[group], number as u64, signs, segment),
    }
}

/// Counts a segment that begins another session. After want of memory nothing has changed.
pub(crate) fn count_first(
    alloc: Global,
    uses: &mut Vec<KeyUse>,
    groups: &mut Vec<Vec<usize>>,
    numbers: &mut BTreeMap<Pair, usize>,
    signs: Signs,
    segment: &SeenSegment,
) -> Result<(), AllocError>
    ensures counted { IsIndexed uses.old.items (lists_of groups.old.items) numbers.old.entries
        → number_between segment.now.source segment.now.destination uses.old.items ≡ None
        → OnOk result (CountsSegment (length groups.old.items + 1) signs segment.now uses.old.items uses.new.items
        (lists_of groups.new.items) numbers.new.entries) }
    ensures size { OnOk result (length groups.new.items ≡ length groups.old.items + 1) }
    ensures unchanged { OnErr result ((uses.new.items ≡ uses.old.items)
        × ((groups.new.items ≡ groups.old.items) × (numbers.new.entries ≡ numbers.old.entries))) }
{
    let mut places = Vec::new(alloc);
    places.push(uses.len())?;
    uses.reserve(1)?;
    groups.reserve(1)?;
    let number = groups.len() + 1;
    numbers.insert(Pair::sorted(segment.source, segment.destination), number)?;
    groups.push_reserved(places);
    uses.push_reserved(first_use(number as u64, signs, segment));
    Ok(())
}

// Puts the use at this place behind others, if there is one.
fn push_at(out: &mut Vec<KeyUse>, uses: &[KeyUse], place: usize) -> Result<(), AllocError>
    ensures { (others : List Use)
        → OnOk result (out.new.items ++ others ≡ out.old.items ++ and_found (slice_get uses.now place) others) }
{
    match uses.get(place) {
        None => Ok(()),
        Some(one) => {
            out.push(*one)?;
            Ok(())
        }
    }
}

/// The uses at these places.
pub(crate) fn uses_at(
    alloc: Global,
    uses: &[KeyUse],
    places: &[usize],
) -> Result<Vec<KeyUse>, AllocError>
    ensures { IfOk result (λ v. v.items ≡ uses_at uses.now places.now) }
{
    let mut out = Vec::new(alloc);
    for place in places {
        push_at(&mut out, uses, *place)?;
    }
    Ok(out)
}
