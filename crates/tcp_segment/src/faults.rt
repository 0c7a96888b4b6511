//! The nine tests of a datagram.
ghost use Rattle.std.specs.Prelude.{◌≡◌, ℕ, List, ◌+◌, ◌*◌, ◌/◌, ◌%◌, ◌<◌, ◌≤◌, length, slice_index, Some, None};
ghost use Rattle.std.specs.Prelude.{MatchResult};
ghost use Rattle.book_segments.specs.Segments.{tcp_fault, v4_fault, v6_fault, first_fault, two_octets_at, is_extension};
ghost use Rattle.tcp_segment.specs.Places.{PlacedBy, Placed};

use crate::headers::{
    DONT_FRAGMENT_BIT, IPV4, IPV4_HEADER, IPV6, IPV6_HEADER, TCP_HEADER, TCP_PROTOCOL,
};
use crate::options::read_options;
use crate::sums::{is_right, two};
use book_segments::DatagramFault;

/// Where the TCP header and the payload begin, and the datagram ends.
#[derive(Clone, Copy)]
pub(crate) struct Places {
    pub header: usize,
    pub payload: usize,
    pub end: usize,
}

/// The length of the TCP header with its options.
fn tcp_header_length(tcp: &[u8]) -> Result<usize, DatagramFault>
    ensures { MatchResult result (λ n. (n ≡ 4 * (slice_index tcp.now 12 / 16)) × (tcp_fault tcp.now ≡ None))
        (λ fault. tcp_fault tcp.now ≡ Some fault) }
{
    if tcp.len() < TCP_HEADER {
        return Err(DatagramFault::DataOffset);
    }
    let length = 4 * (tcp[12] / 16) as usize;
    if length < TCP_HEADER {
        return Err(DatagramFault::DataOffset);
    }
    if tcp.len() < length {
        return Err(DatagramFault::DataOffset);
    }
    read_options(&tcp[TCP_HEADER..length]).map_err(DatagramFault::BadOption)?;
    Ok(length)
}

fn read_v4(bytes: &[u8]) -> Result<Places, DatagramFault>
    ensures { MatchResult result (λ places. PlacedBy bytes.now (4 * (slice_index bytes.now 0 % 16))
        (two_octets_at bytes.now 2) places × (v4_fault bytes.now ≡ None)) (λ fault. v4_fault bytes.now ≡ Some fault) }
{
    if bytes.len() < IPV4_HEADER {
        return Err(DatagramFault::Truncated);
    }
    let end = two(bytes, 2) as usize;
    if bytes.len() < end {
        return Err(DatagramFault::Truncated);
    }
    let header = 4 * (bytes[0] % 16) as usize;
    if header < IPV4_HEADER {
        return Err(DatagramFault::HeaderLength);
    }
    if end < header {
        return Err(DatagramFault::HeaderLength);
    }
    if !is_right(&bytes[..header]) {
        return Err(DatagramFault::HeaderChecksum);
    }
    if two(bytes, 6) % DONT_FRAGMENT_BIT != 0 {
        return Err(DatagramFault::Fragment);
    }
    if bytes[9] != TCP_PROTOCOL {
        return Err(DatagramFault::NotTcp);
    }
    let length = tcp_header_length(&bytes[header..end])?;
    Ok(Places {
        header,
        payload: header + length,
        end,
    })
}

fn is_extension_header(next: u8) -> bool
    ensures { result ≡ is_extension next }
{
    next == 0 || next == 43 || next == 44 || next == 60
}

fn read_v6(bytes: &[u8]) -> Result<Places, DatagramFault>
    ensures { MatchResult result (λ places. PlacedBy bytes.now 40 (40 + two_octets_at bytes.now 4) places
        × (v6_fault bytes.now ≡ None)) (λ fault. v6_fault bytes.now ≡ Some fault) }
{
    if bytes.len() < IPV6_HEADER {
        return Err(DatagramFault::Truncated);
    }
    let end = IPV6_HEADER + two(bytes, 4) as usize;
    if bytes.len() < end {
        return Err(DatagramFault::Truncated);
    }
    let next = bytes[6];
    let extension = is_extension_header(next);
    if next != TCP_PROTOCOL && !extension {
        return Err(DatagramFault::NotTcp);
    }
    if extension {
        return Err(DatagramFault::ExtensionHeader);
    }
    let length = tcp_header_length(&bytes[IPV6_HEADER..end])?;
    Ok(Places {
        header: IPV6_HEADER,
        payload: IPV6_HEADER + length,
        end,
    })
}

/// The places of the datagram that a prefix of the bytes is, by the nine tests in their order.
#[tactic(auto, unfolding(book_segments::specs::Segments::first_fault))]
pub(crate) fn places_in(bytes: &[u8]) -> Result<Places, DatagramFault>
    ensures { MatchResult result (λ places. Placed bytes.now places × (first_fault bytes.now ≡ None))
        (λ fault. first_fault bytes.now ≡ Some fault) }
{
    if bytes.is_empty() {
        return Err(DatagramFault::Truncated);
    }
    let version = bytes[0] / 16;
    if version == IPV4 {
        read_v4(bytes)
    } else if version == IPV6 {
        read_v6(bytes)
    } else {
        Err(DatagramFault::Version)
    }
}
