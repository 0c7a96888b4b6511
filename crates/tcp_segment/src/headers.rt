//! The headers of IP and TCP: versions, lengths, and the bytes that every written one has.
ghost use Rattle.std.specs.Prelude.{◌≡◌, ◌<◌, ◌/◌, ◌==◌, length, slice_index};

/// The version of IPv4 (RFC 791, section 3.1).
pub(crate) const IPV4: u8 = 4;

/// The version of IPv6 (RFC 8200, section 3).
pub(crate) const IPV6: u8 = 6;

/// How many bytes an IPv4 header has without options (RFC 791, section 3.1).
pub(crate) const IPV4_HEADER: usize = 20;

/// How many bytes an IPv6 header has (RFC 8200, section 3).
pub(crate) const IPV6_HEADER: usize = 40;

/// How many bytes a TCP header has without options (RFC 9293, section 3.1).
pub(crate) const TCP_HEADER: usize = 20;

/// The protocol number of TCP (RFC 9293, section 3.1).
pub const TCP_PROTOCOL: u8 = 6;

/// The first byte of an IPv4 header without options: version 4, and five words (RFC 791, section 3.1).
pub(crate) const IPV4_FIRST: u8 = 0x45;

/// The first byte of an IPv6 header of traffic class 0: version 6 (RFC 8200, section 3).
pub(crate) const IPV6_FIRST: u8 = 0x60;

/// The byte of the data offset in a TCP header without options: five words (RFC 9293, section 3.1).
pub(crate) const FIVE_WORDS: u8 = 0x50;

/// The flag that forbids fragments, in the first byte of its field (RFC 791, section 3.1).
pub(crate) const DONT_FRAGMENT: u8 = 0x40;

/// The bit of that flag in the whole field. Below it lie the flag for more fragments and the fragment
/// offset (RFC 791, section 3.1).
pub(crate) const DONT_FRAGMENT_BIT: u16 = 0x4000;

/// How many hops a written datagram may take: its TTL or hop limit (own).
pub(crate) const HOPS: u8 = 64;

/// Whether a datagram is of IPv4.
pub(crate) fn is_ipv4(datagram: &[u8]) -> bool
    requires { 0 < length datagram.now }
    ensures { result ≡ (slice_index datagram.now 0 / 16 == 4) }
{
    datagram[0] / 16 == IPV4
}
