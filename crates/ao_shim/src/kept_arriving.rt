//! What is kept of a pair once a segment from the peer passed, and once it was heard.
ghost use Rattle.std.specs.Prelude.{◌≡◌, ◌≤◌, ◌^◌};
ghost use Rattle.book_shim.specs.Arriving as book;

use crate::numbers::{
    answered_isn, are_isns, connection_begun, end_after, is_opening_syn, is_the_number, own_isn,
};
use book_shim::{Isns, Kept};
use tcp_segment::{Datagram, Flag};

/// Whether a SYN with ACK is awaited: it answers the own SYN that is out, the one given up, or that of the
/// connection in use.
pub fn is_awaited(kept: &Kept, datagram: &Datagram<'_>) -> bool
    ensures { result ≡ book.is_awaited kept.now datagram.now }
{
    let own = answered_isn(datagram);
    is_the_number(kept.opening, own)
        || (is_the_number(kept.given_up, own) || is_the_number(own_isn(kept), own))
}

/// The peer answered the SYN of the connection in use: with another number it began anew, as long as
/// nothing but SYNs passed.
fn answered_anew(kept: &Kept, own: u32, peer: u32) -> Kept
    ensures { result ≡ book.answered_anew kept.now own peer }
{
    if are_isns(kept.isns, own, peer) || kept.settled {
        *kept
    } else {
        Kept {
            isns: Some(Isns { own, peer }),
            heard: u64::from(peer) + 1,
            ..*kept
        }
    }
}

/// A SYN with ACK of these numbers passed.
fn joined(kept: &Kept, own: u32, peer: u32) -> Kept
    ensures { result ≡ book.joined kept.now own peer }
{
    if is_the_number(kept.opening, own) {
        return connection_begun(kept, own, peer);
    }
    if is_the_number(kept.given_up, own) {
        return Kept {
            late: Some(Isns { own, peer }),
            ..*kept
        };
    }
    answered_anew(kept, own, peer)
}

/// What is kept once a segment passed.
pub fn admitted(kept: &Kept, datagram: &Datagram<'_>) -> Kept
    ensures { result ≡ book.admitted kept.now datagram.now }
{
    if datagram.has(Flag::Syn) && datagram.has(Flag::Ack) {
        joined(kept, answered_isn(datagram), datagram.sequence())
    } else {
        *kept
    }
}

/// Whether a segment is of the connection in use: a SYN with ACK has its two numbers.
fn is_of_connection(kept: &Kept, datagram: &Datagram<'_>) -> bool
    ensures { result ≡ book.is_of_connection kept.now datagram.now }
{
    if datagram.has(Flag::Syn) {
        datagram.has(Flag::Ack) && are_isns(kept.isns, answered_isn(datagram), datagram.sequence())
    } else {
        true
    }
}

/// What is kept once the segment of this number was heard.
pub fn past_heard(kept: &Kept, datagram: &Datagram<'_>, number: u64) -> Kept
    requires { number ≤ 2 ^ 63 }
    ensures { result ≡ book.past_heard kept.now datagram.now number }
{
    if !is_of_connection(kept, datagram) {
        return *kept;
    }
    Kept {
        heard: end_after(kept.heard, number, datagram),
        settled: kept.settled || !datagram.has(Flag::Syn),
        ..*kept
    }
}

/// Whether a segment of this number that passed may be a replay.
pub fn may_be_replayed(kept: &Kept, datagram: &Datagram<'_>, number: u64) -> bool
    requires { number ≤ 2 ^ 63 }
    ensures { result ≡ book.may_be_replayed kept.now datagram.now number }
{
    if is_opening_syn(datagram) {
        return kept.isns.is_some() || kept.opening.is_some();
    }
    let after = admitted(kept, datagram);
    !is_of_connection(&after, datagram) || number + datagram.segment_length() < after.heard
}
