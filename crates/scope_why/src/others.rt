//! The initial sequence numbers of other connections on the sockets of a segment.
ghost use Rattle.std.specs.Prelude.{◌≡◌, ◌++◌, ◌&&◌, IfOk, OnOk, Some};
ghost use Rattle.std.specs.List.{list_any};
ghost use Rattle.book_segments.specs.Segments.{Read, reading};
ghost use Rattle.book_segments.specs.Sockets.{same_socket};
ghost use Rattle.book_why.specs.OtherIsns.{are_own, destination_isn_by, isns_seen_from, may_tell, other_isns};
ghost use Rattle.book_why.specs.OtherIsns.{same_isn_pair, told_at, told_by_reading, numbers_of_syn};
ghost use Rattle.book_why.specs.OtherIsns.{with_destination, with_isn_pair, with_isn_pairs};

use crate::sight::isns_of_syn;
use ao_base::is_same_socket;
use book_base::Socket;
use book_sessions::GivenIsns;
use book_why::IsnPair;
use capture_check::acknowledged_isn;
use std::alloc::{AllocError, Global};
use tcp_segment::{Datagram, Flag, read_datagram};

fn are_sockets(given: &GivenIsns, one: &Socket, other: &Socket) -> bool
    ensures { result ≡ (same_socket given.now.one one.now && same_socket given.now.other other.now) }
{
    is_same_socket(&given.one, one) && is_same_socket(&given.other, other)
}

fn seen_from(datagram: &Datagram<'_>, given: &GivenIsns) -> Option<IsnPair>
    ensures { result ≡ isns_seen_from datagram.now given.now }
{
    let source = datagram.source();
    let destination = datagram.destination();
    if are_sockets(given, &source, &destination) {
        return Some(IsnPair {
            source_isn: given.one_isn,
            destination_isn: given.other_isn,
        });
    }
    if are_sockets(given, &destination, &source) {
        return Some(IsnPair {
            source_isn: given.other_isn,
            destination_isn: given.one_isn,
        });
    }
    None
}

fn is_same_pair(one: IsnPair, other: IsnPair) -> bool
    ensures { result ≡ same_isn_pair one other }
{
    one.source_isn == other.source_isn && one.destination_isn == other.destination_isn
}

// A pair is that of the own connection, or of its SYN.
fn is_of(own: IsnPair, pair: IsnPair) -> bool
    ensures { result ≡ are_own (Some own) pair }
{
    let of_syn = IsnPair {
        source_isn: own.source_isn,
        destination_isn: 0,
    };
    is_same_pair(own, pair) || is_same_pair(of_syn, pair)
}

fn is_own(own: Option<IsnPair>, pair: IsnPair) -> bool
    ensures { result ≡ are_own own pair }
{
    match own {
        None => false,
        Some(own) => is_of(own, pair),
    }
}

fn is_among(pairs: &[IsnPair], pair: IsnPair) -> bool
    ensures { result ≡ list_any (same_isn_pair pair) pairs.now }
{
    pairs.iter().any(|one| is_same_pair(pair, *one))
}

fn push_new(pairs: &mut Vec<IsnPair>, own: Option<IsnPair>, pair: IsnPair) -> Result<(), AllocError>
    ensures { OnOk result (pairs.new.items ≡ with_isn_pair own pairs.old.items (Some pair)) }
{
    if is_own(own, pair) || is_among(pairs.as_slice(), pair) {
        return Ok(());
    }
    pairs.push(pair)?;
    Ok(())
}

fn push_pair(
    pairs: &mut Vec<IsnPair>,
    own: Option<IsnPair>,
    pair: Option<IsnPair>,
) -> Result<(), AllocError>
    ensures { OnOk result (pairs.new.items ≡ with_isn_pair own pairs.old.items pair) }
{
    match pair {
        None => Ok(()),
        Some(pair) => push_new(pairs, own, pair),
    }
}

// The initial sequence number of a SYN's destination, as a segment behind the SYN tells it.
fn destination_isn_by(datagram: &Datagram<'_>, given: &GivenIsns) -> u32
    ensures { result ≡ destination_isn_by datagram.now given.now }
{
    if is_same_socket(&given.one, &datagram.source()) {
        acknowledged_isn(datagram)
    } else {
        datagram.sequence().wrapping_sub(1)
    }
}

// Whether a segment itself may tell the number that a SYN couldn't.
fn may_tell(datagram: &Datagram<'_>, given: &GivenIsns) -> bool
    ensures { result ≡ may_tell datagram.now given.now }
{
    given.other_isn == 0 && datagram.has(Flag::Ack) && !datagram.has(Flag::Syn)
}

// What is told of a connection with the number that a segment tells.
fn with_destination(datagram: &Datagram<'_>, given: &GivenIsns) -> GivenIsns
    ensures { result ≡ with_destination datagram.now given.now }
{
    GivenIsns {
        one: given.one,
        one_isn: given.one_isn,
        other: given.other,
        other_isn: destination_isn_by(datagram, given),
    }
}

fn push_told_at(
    pairs: &mut Vec<IsnPair>,
    datagram: &Datagram<'_>,
    own: Option<IsnPair>,
    given: &GivenIsns,
) -> Result<(), AllocError>
    ensures { OnOk result (pairs.new.items ≡ with_isn_pairs datagram.now own pairs.old.items
        (told_at datagram.now given.now)) }
{
    push_pair(pairs, own, seen_from(datagram, given))?;
    if !may_tell(datagram, given) {
        return Ok(());
    }
    let told = with_destination(datagram, given);
    push_pair(pairs, own, seen_from(datagram, &told))
}

/// The initial sequence numbers of other connections on the sockets of a segment: of those that are told each
/// pair once, but for those of its own connection.
#[tactic(auto, unfolding(book_why::specs::OtherIsns::other_isns))]
pub(crate) fn other_isns(
    alloc: Global,
    datagram: &Datagram<'_>,
    own: Option<IsnPair>,
    told: &[GivenIsns],
) -> Result<Vec<IsnPair>, AllocError>
    ensures { IfOk result (λ v. v.items ≡ other_isns datagram.now own told.now) }
{
    let mut pairs = Vec::new(alloc);
    for given in told {
        push_told_at(&mut pairs, datagram, own, given)?;
    }
    Ok(pairs)
}

// What a SYN tells.
fn numbers_of_syn(datagram: &Datagram<'_>) -> GivenIsns
    ensures { result ≡ numbers_of_syn datagram.now }
{
    let isns = isns_of_syn(datagram);
    GivenIsns {
        one: datagram.source(),
        one_isn: isns.source_isn,
        other: datagram.destination(),
        other_isn: isns.destination_isn,
    }
}

fn push_told_by(told: &mut Vec<GivenIsns>, datagram: &Datagram<'_>) -> Result<(), AllocError>
    ensures { OnOk result (told.new.items ≡ told.old.items ++ told_by_reading (Read datagram.now)) }
{
    if datagram.has(Flag::Syn) {
        told.push(numbers_of_syn(datagram))?;
    }
    Ok(())
}

/// Puts the initial sequence numbers that stored bytes tell behind `told`: those of a SYN. Where memory runs
/// out `told` is as it was.
pub(crate) fn push_told(told: &mut Vec<GivenIsns>, bytes: &[u8]) -> Result<(), AllocError>
    ensures { OnOk result (told.new.items ≡ told.old.items ++ told_by_reading (reading bytes.now)) }
{
    match read_datagram(bytes) {
        Err(_) => Ok(()),
        Ok(datagram) => push_told_by(told, &datagram),
    }
}
