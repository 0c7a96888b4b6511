//! The numbers that are kept of a pair, and a connection that begins.
ghost use Rattle.std.specs.Prelude.{◌≡◌, ◌≤◌, ◌^◌, ◌+◌, ◌↔◌, IsTrue, max};
ghost use Rattle.book_segments.specs.Segments.{segment_length};
ghost use Rattle.book_shim.specs.Keeping as book;

use book_shim::{Isns, Kept};
use tcp_segment::{Datagram, Flag};

/// Nothing was seen of a pair.
pub fn fresh() -> Kept
    ensures { result ≡ book.fresh }
{
    Kept {
        opening: None,
        given_up: None,
        late: None,
        isns: None,
        settled: false,
        sent: 0,
        heard: 0,
        current: None,
    }
}

/// Whether there is a number, and it is this one.
pub(crate) fn is_the_number(known: Option<u32>, number: u32) -> bool
    ensures { result ≡ book.is_the_number known number }
{
    match known {
        None => false,
        Some(known) => known == number,
    }
}

/// Whether these are the numbers of the connection in use.
pub(crate) fn are_isns(isns: Option<Isns>, own: u32, peer: u32) -> bool
    ensures { result ≡ book.are_isns isns own peer }
{
    match isns {
        None => false,
        Some(isns) => isns.own == own && isns.peer == peer,
    }
}

/// The own number of the connection in use.
pub fn own_isn(kept: &Kept) -> Option<u32>
    ensures { result ≡ book.own_isn kept.now }
{
    match kept.isns {
        None => None,
        Some(isns) => Some(isns.own),
    }
}

/// The peer's number of the connection in use.
pub fn peer_isn(kept: &Kept) -> Option<u32>
    ensures { result ≡ book.peer_isn kept.now }
{
    match kept.isns {
        None => None,
        Some(isns) => Some(isns.peer),
    }
}

/// Whether a segment is a SYN without ACK.
pub fn is_opening_syn(datagram: &Datagram<'_>) -> bool
    ensures { result ≡ book.is_opening_syn datagram.now }
{
    datagram.has(Flag::Syn) && !datagram.has(Flag::Ack)
}

/// The initial sequence number that a SYN with ACK answers.
pub fn answered_isn(datagram: &Datagram<'_>) -> u32
    ensures { result ≡ book.answered_isn datagram.now }
{
    datagram.acknowledgement().wrapping_sub(1)
}

/// A connection begins with these numbers.
pub(crate) fn connection_begun(kept: &Kept, own: u32, peer: u32) -> Kept
    ensures { result ≡ book.connection_begun kept.now own peer }
{
    Kept {
        opening: None,
        given_up: None,
        late: None,
        isns: Some(Isns { own, peer }),
        settled: false,
        sent: u64::from(own) + 1,
        heard: u64::from(peer) + 1,
        current: kept.current,
    }
}

/// The number after a segment that was sent or heard, where it is greater.
pub(crate) fn end_after(greatest: u64, number: u64, datagram: &Datagram<'_>) -> u64
    requires { number ≤ 2 ^ 63 }
    ensures { result ≡ max greatest (number + segment_length datagram.now) }
{
    let end = number + datagram.segment_length();
    if greatest < end { end } else { greatest }
}

/// Whether both are of the same connection.
pub fn is_same_connection(one: &Kept, other: &Kept) -> bool
    ensures { IsTrue result ↔ (one.now.isns ≡ other.now.isns) }
{
    one.isns == other.isns
}
