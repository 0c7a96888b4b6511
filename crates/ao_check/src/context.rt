//! The context of a segment's traffic key, and its number.
ghost use Rattle.std.specs.Prelude.{◌≡◌, ◌<◌, ◌≤◌, ◌+◌, ◌^◌, Option, Some, None, true, false, IfSome, option_map};
ghost use Rattle.std.specs.Prelude.{is_some, nat_lt, not, ◌&&◌};
ghost use Rattle.book_segments.specs.Segments.{has, segment_length, SYN};
ghost use Rattle.book_macs.specs.Contexts.{context_of};
ghost use Rattle.book_endpoint.specs.Verdicts.{segment_number};
ghost use Rattle.book_macs.specs.Contexts.{bytes_of};
ghost use Rattle.ao_check.specs.Contexts.{HasSockets, IsBelow, IsPlanned};

use ao_kdf::Context;
use tcp_segment::{Datagram, Flag, extend};

/// The context with these initial sequence numbers.
fn between(datagram: &Datagram<'_>, source_isn: u32, dest_isn: u32) -> Context
    ensures { result
        ≡ record {
          source = datagram.now.source;
          destination = datagram.now.destination;
          source_isn = source_isn;
          dest_isn = dest_isn;
        } }
{
    Context {
        source: datagram.source(),
        destination: datagram.destination(),
        source_isn,
        dest_isn,
    }
}

/// The context of a segment, from the initial sequence numbers of its source and its destination as
/// far as they are known (RFC 5925, section 5.2).
#[tactic(auto, unfolding(book_macs::specs::Contexts::context_of))]
pub(crate) fn context_of(
    datagram: &Datagram<'_>,
    source_isn: Option<u32>,
    dest_isn: Option<u32>,
) -> Option<Context>
    ensures context { option_map bytes_of result ≡ context_of datagram.now source_isn dest_isn }
    ensures sockets { IfSome result (λ c. HasSockets datagram.now c) }
{
    if datagram.has(Flag::Syn) {
        if !datagram.has(Flag::Ack) {
            return Some(between(datagram, datagram.sequence(), 0));
        }
        return Some(between(datagram, datagram.sequence(), dest_isn?));
    }
    Some(between(datagram, source_isn?, dest_isn?))
}

/// The number of a segment: with SYN its sequence, else what that means near the number expected
/// (RFC 5925, section 6.2).
pub(crate) fn number_of(datagram: &Datagram<'_>, expected: Option<u64>) -> Option<u64>
    requires { IsBelow expected }
    ensures number { result ≡ segment_number datagram.now expected }
    ensures most { IfSome result (λ n. n ≤ 2 ^ 63 + 2 ^ 32) }
{
    match expected {
        None => Some(u64::from(datagram.sequence())),
        Some(expected) => {
            if datagram.has(Flag::Syn) {
                Some(u64::from(datagram.sequence()))
            } else {
                extend(datagram.sequence(), expected)
            }
        }
    }
}

/// Whether a segment has no SYN and nothing is expected.
pub(crate) fn is_silent(datagram: &Datagram<'_>, expected: Option<u64>) -> bool
    ensures { result ≡ (not (has SYN datagram.now) && not (is_some expected)) }
{
    if datagram.has(Flag::Syn) {
        false
    } else {
        expected.is_none()
    }
}

/// Whether a segment of this number ends past 2^63.
pub(crate) fn ends_late(datagram: &Datagram<'_>, number: u64) -> bool
    requires { number ≤ 2 ^ 63 + 2 ^ 32 }
    ensures { result ≡ nat_lt 9223372036854775808 (number + segment_length datagram.now) }
{
    number + datagram.segment_length() > 1 << 63
}

/// The context of a segment that is being sent, and whether it has SYN.
#[derive(Drop)]
pub(crate) struct Plan {
    pub(crate) syn: bool,
    pub(crate) context: Context,
}

/// The context of a segment that is being sent; it has SYN without ACK, or the peer's initial
/// sequence number is known.
#[tactic(auto, unfolding(book_macs::specs::Contexts::context_of))]
pub(crate) fn outgoing(datagram: &Datagram<'_>, own_isn: u32, peer_isn: Option<u32>) -> Plan
    requires { IsPlanned datagram.now peer_isn }
    ensures syn { result.syn ≡ has SYN datagram.now }
    ensures context { context_of datagram.now (Some own_isn) peer_isn ≡ Some (bytes_of result.context) }
{
    let syn = datagram.has(Flag::Syn);
    if syn && !datagram.has(Flag::Ack) {
        return Plan {
            syn,
            context: between(datagram, datagram.sequence(), 0),
        };
    }
    let peer_isn = match peer_isn {
        Some(peer_isn) => peer_isn,
        None => unreachable!(),
    };
    let own_isn = if syn { datagram.sequence() } else { own_isn };
    Plan {
        syn,
        context: between(datagram, own_isn, peer_isn),
    }
}
