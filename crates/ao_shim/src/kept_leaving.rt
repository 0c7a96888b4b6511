//! What is kept of a pair once the own kernel has made a segment, and once it was sent.
ghost use Rattle.std.specs.Prelude.{◌≡◌, ◌≤◌, ◌^◌};
ghost use Rattle.book_shim.specs.Leaving as book;

use crate::numbers::{
    answered_isn, are_isns, connection_begun, end_after, is_opening_syn, is_the_number, own_isn,
};
use book_shim::Kept;
use tcp_segment::{Datagram, Flag};

/// The own kernel sends a SYN: the one that was out, if another was, is given up.
fn opening(kept: &Kept, own: u32) -> Kept
    ensures { result ≡ book.opening kept.now own }
{
    if is_the_number(own_isn(kept), own) || is_the_number(kept.opening, own) {
        *kept
    } else {
        Kept {
            opening: Some(own),
            given_up: kept.opening,
            current: None,
            ..*kept
        }
    }
}

/// The own kernel answers a SYN: with it a connection begins, unless it is that in use.
fn accepting(kept: &Kept, own: u32, peer: u32) -> Kept
    ensures { result ≡ book.accepting kept.now own peer }
{
    if are_isns(kept.isns, own, peer) {
        *kept
    } else {
        connection_begun(kept, own, peer)
    }
}

/// What is kept once the own kernel has made a segment.
pub fn entered(kept: &Kept, datagram: &Datagram<'_>) -> Kept
    ensures { result ≡ book.entered kept.now datagram.now }
{
    if !datagram.has(Flag::Syn) {
        return *kept;
    }
    if datagram.has(Flag::Ack) {
        accepting(kept, datagram.sequence(), answered_isn(datagram))
    } else {
        opening(kept, datagram.sequence())
    }
}

/// Whether a segment is the RST by which the own kernel answers a late SYN with ACK, one that answered a
/// SYN given up.
pub fn resets(kept: &Kept, datagram: &Datagram<'_>) -> bool
    ensures { result ≡ book.resets kept.now.late datagram.now }
{
    match kept.late {
        None => false,
        Some(late) => {
            datagram.has(Flag::Rst)
                && !datagram.has(Flag::Syn)
                && datagram.sequence() == late.own.wrapping_add(1)
        }
    }
}

/// As if the late connection were in use, where there is one.
fn as_late(kept: &Kept) -> Kept
    ensures late { result ≡ book.as_late kept.now kept.now.late }
    ensures low { kept.now.sent ≤ 2 ^ 63 → result.sent ≤ 2 ^ 63 }
{
    match kept.late {
        None => *kept,
        Some(late) => connection_begun(kept, late.own, late.peer),
    }
}

/// By what a segment of the own kernel is sealed: the RST that answers a late SYN with ACK as if that
/// connection were in use.
pub fn kept_for(kept: &Kept, datagram: &Datagram<'_>) -> Kept
    ensures kept { result ≡ book.kept_for kept.now datagram.now }
    ensures low { kept.now.sent ≤ 2 ^ 63 → result.sent ≤ 2 ^ 63 }
{
    if resets(kept, datagram) {
        as_late(kept)
    } else {
        *kept
    }
}

/// What is kept once the segment of this number was sent.
pub fn past_sent(kept: &Kept, datagram: &Datagram<'_>, number: u64) -> Kept
    requires { number ≤ 2 ^ 63 }
    ensures { result ≡ book.past_sent kept.now datagram.now number }
{
    if is_opening_syn(datagram) {
        return *kept;
    }
    if resets(kept, datagram) {
        return Kept {
            late: None,
            ..*kept
        };
    }
    Kept {
        sent: end_after(kept.sent, number, datagram),
        settled: kept.settled || !datagram.has(Flag::Syn),
        ..*kept
    }
}
