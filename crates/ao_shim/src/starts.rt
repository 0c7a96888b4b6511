//! The headers of a datagram that is laid out again, up to where they stay as they came.
ghost use Rattle.std.specs.Prelude.{◌≡◌, ℕ, [], ◌+◌, ◌/◌, ◌==◌, ◌≤◌, ◌<◌, length, slice_index, slice_set};
ghost use Rattle.tcp_segment.specs.Places.{header_end};
ghost use Rattle.tcp_segment.specs.Sums.{complement_at};
ghost use Rattle.book_segments.specs.Segments.{words_sum};
ghost use Rattle.ao_shim.specs.Starts.{v4_start, v6_start, offset_of};

use byteorder::{BigEndian, ByteOrder};
use tcp_segment::{complement, words};

/// The version of IPv4 (RFC 791, section 3.1).
const IPV4: u8 = 4;

/// How many bytes an IPv6 header has (RFC 8200, section 3).
const IPV6_HEADER: usize = 40;

/// The byte of the data offset in a TCP header without options: five words (RFC 9293, section 3.1).
const FIVE_WORDS: u8 = 0x50;

/// Whether a datagram is of IPv4.
pub(crate) fn is_ipv4(datagram: &[u8]) -> bool
    requires { 0 < length datagram.now }
    ensures { result ≡ (slice_index datagram.now 0 / 16 == 4) }
{
    datagram[0] / 16 == IPV4
}

/// How many bytes the IP header of a datagram has.
pub(crate) fn header_length(datagram: &[u8]) -> usize
    requires { 0 < length datagram.now }
    ensures { result ≡ header_end datagram.now }
{
    if is_ipv4(datagram) {
        4 * (datagram[0] % 16) as usize
    } else {
        IPV6_HEADER
    }
}

/// An IPv4 header up to its addresses, with another total length and checksum.
pub(crate) fn ipv4_start(header: &[u8], total: u16, checksum: u16) -> [u8; 12]
    requires { 12 ≤ length header.now }
    ensures { result ≡ v4_start header.now total checksum }
{
    let mut start = [
        header[0], header[1], 0, 0, header[4], header[5], header[6], header[7], header[8],
        header[9], 0, 0,
    ];
    BigEndian::write_u16(&mut start[2..], total);
    BigEndian::write_u16(&mut start[10..], checksum);
    start
}

/// The checksum of an IPv4 header with another total length, whose addresses and options are given.
pub(crate) fn ipv4_checksum(header: &[u8], total: u16, behind: &[u8]) -> u16
    requires header { 12 ≤ length header.now }
    requires behind { length behind.now ≤ 48 }
    ensures { result ≡ complement_at (words_sum (v4_start header.now total 0) + words_sum behind.now) }
{
    let start = ipv4_start(header, total, 0);
    complement(words(&start) + words(behind))
}

/// An IPv6 header up to its addresses, with another length.
pub(crate) fn ipv6_start(header: &[u8], size: u16) -> [u8; 8]
    requires { 8 ≤ length header.now }
    ensures { result ≡ v6_start header.now size }
{
    let mut start = [
        header[0], header[1], header[2], header[3], 0, 0, header[6], header[7],
    ];
    BigEndian::write_u16(&mut start[4..], size);
    start
}

/// A TCP header without its options, over options of another length.
pub(crate) fn tcp_start(header: &[u8], area_length: usize) -> [u8; 20]
    requires long { length header.now ≡ 20 }
    requires most { area_length ≤ 40 }
    ensures { result ≡ slice_set header.now 12 (offset_of header.now area_length) }
{
    let mut start = [0; 20];
    start.copy_from_slice(header);
    start[12] = FIVE_WORDS + 4 * area_length as u8 + header[12] % 16;
    start
}
