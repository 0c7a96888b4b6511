//! The headers of IP and of ICMP: versions, lengths, and what they say they carry.
ghost use Rattle.std.specs.Prelude.{◌≡◌, ◌+◌, ◌<◌, ◌/◌, ◌==◌, length, slice_index};
ghost use Rattle.book_segments.specs.Segments.{two_octets_at};

use byteorder::{BigEndian, ByteOrder};

/// The version of IPv4 (RFC 791, section 3.1).
pub(crate) const IPV4: u8 = 4;

/// The version of IPv6 (RFC 8200, section 3).
pub(crate) const IPV6: u8 = 6;

/// How many bytes an IPv4 header has without options (RFC 791, section 3.1).
pub(crate) const IPV4_HEADER: usize = 20;

/// How many bytes an IPv6 header has (RFC 8200, section 3).
pub(crate) const IPV6_HEADER: usize = 40;

/// How many bytes an ICMP message has in front of a quote (RFC 792; RFC 4443, section 3.1).
pub(crate) const ICMP_HEADER: usize = 8;

/// The protocol number of TCP (RFC 9293, section 3.1).
pub(crate) const TCP_PROTOCOL: u8 = 6;

/// The protocol number of ICMP over IPv4 (RFC 792).
pub(crate) const ICMP_PROTOCOL: u8 = 1;

/// The next header of ICMP over IPv6 (RFC 4443, section 1).
pub(crate) const ICMPV6_HEADER: u8 = 58;

/// The next header of an authentication header (RFC 4302, section 2).
pub(crate) const AUTHENTICATION_HEADER: u8 = 51;

/// The bit of the flag that forbids fragments. Below it lie the flag for more fragments and the
/// fragment offset (RFC 791, section 3.1).
pub(crate) const DONT_FRAGMENT_BIT: u16 = 0x4000;

/// The bit of the flag for more fragments. Below it lies the fragment offset (RFC 791, section 3.1).
pub(crate) const MORE_FRAGMENTS_BIT: u16 = 0x2000;

/// The big-endian number of two bytes.
pub(crate) fn two(bytes: &[u8], at: usize) -> u16
    requires { at + 1 < length bytes.now }
    ensures { result ≡ two_octets_at bytes.now at }
{
    BigEndian::read_u16(&bytes[at..])
}
