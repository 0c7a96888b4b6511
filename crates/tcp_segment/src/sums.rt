//! Sums of 16-bit words, and the checksums that they make (RFC 1071).
ghost use Rattle.std.specs.Prelude.{◌≡◌, ℕ, ◌+◌, ◌-◌, ◌*◌, ◌%◌, ◌^◌, ◌<◌, ◌≤◌, ◌++◌, List, [], length, take, drop};
ghost use Rattle.std.specs.Prelude.{slice_index};
ghost use Rattle.book_segments.specs.Segments.{words_sum, sums, two_octets_at, four_octets_at, Segment, spell_as};
ghost use Rattle.book_segments.specs.Segments.{pseudo, tcp_length, complement_of};
ghost use Rattle.book_segments.specs.Bytes.{put2};
ghost use Rattle.book_segments.specs.Spelling.{AreBytes, with_right_checksum, addresses_in, ip_length};
ghost use Rattle.tcp_segment.specs.Parts.{spliced};
ghost use Rattle.tcp_segment.specs.Sums.{complement_at, HasPlainHeader, IsSet};

use crate::headers::{IPV4_HEADER, IPV6_HEADER, TCP_PROTOCOL, is_ipv4};
use byteorder::{BigEndian, ByteOrder};

/// The big-endian number of two bytes.
pub(crate) fn two(bytes: &[u8], at: usize) -> u16
    requires { at + 1 < length bytes.now }
    ensures { result ≡ two_octets_at bytes.now at }
{
    BigEndian::read_u16(&bytes[at..])
}

/// The big-endian number of four bytes.
pub(crate) fn four(bytes: &[u8], at: usize) -> u32
    requires { at + 3 < length bytes.now }
    ensures { result ≡ four_octets_at bytes.now at }
{
    BigEndian::read_u32(&bytes[at..])
}

/// The sum of the big-endian words, an odd length filled with a zero byte.
pub fn words(bytes: &[u8]) -> u64
    requires { length bytes.now < 2 ^ 32 }
    ensures sum { result ≡ words_sum bytes.now }
    ensures small { result ≤ 65535 * length bytes.now }
{
    let mut rest = bytes;
    let mut sum: u64 = 0;
    while let [_, _, behind @ ..] = rest {
        sum += u64::from(BigEndian::read_u16(rest));
        rest = behind;
    }
    if let [last] = rest {
        sum += 256 * u64::from(*last);
    }
    sum
}

/// The sum of the big-endian words modulo 65535. Numbers of four bytes are added, of which the upper
/// half counts once, since 65536 leaves 1: that takes half as many steps.
pub(crate) fn words_modulo(bytes: &[u8]) -> u64
    requires { length bytes.now < 2 ^ 32 }
    ensures sum { result % 65535 ≡ words_sum bytes.now % 65535 }
    ensures small { result ≤ 4294967295 * length bytes.now }
{
    let mut rest = bytes;
    let mut sum: u64 = 0;
    while let [_, _, _, _, behind @ ..] = rest {
        sum += u64::from(BigEndian::read_u32(rest));
        rest = behind;
    }
    sum + words(rest)
}

/// Whether the one's complement sum is ffff.
#[tactic(auto, using(book_segments::proofs::Folding::sums_by))]
pub(crate) fn is_right(bytes: &[u8]) -> bool
    requires { length bytes.now < 2 ^ 32 }
    ensures { result ≡ sums bytes.now }
{
    let sum = words(bytes);
    sum > 0 && sum % 65535 == 0
}

/// The complement of the one's complement sum, for a plain sum.
pub fn complement(sum: u64) -> u16
    ensures { result ≡ complement_at sum }
{
    if sum == 0 {
        return 65535;
    }
    if sum % 65535 == 0 {
        return 0;
    }
    (65535 - sum % 65535) as u16
}

/// Writes two bytes.
pub(crate) fn put_two(bytes: &mut [u8], at: usize, number: u16)
    requires { at + 2 ≤ length bytes.old }
    ensures { bytes.new ≡ spliced bytes.old at (put2 number []) }
{
    BigEndian::write_u16(&mut bytes[at..], number);
}

/// The length of an IP header without options.
fn plain_header_length(datagram: &[u8]) -> usize
    requires { 0 < length datagram.now }
    ensures { result ≡ ip_length datagram.now }
{
    if is_ipv4(datagram) {
        IPV4_HEADER
    } else {
        IPV6_HEADER
    }
}

/// The sum of the words of both addresses.
pub(crate) fn address_sum(datagram: &[u8]) -> u64
    requires { 40 ≤ length datagram.now }
    ensures sum { result ≡ words_sum (addresses_in datagram.now) }
    ensures small { result ≤ 2097120 }
    ensures bytes { AreBytes datagram.now }
{
    if is_ipv4(datagram) {
        words(&datagram[12..20])
    } else {
        words(&datagram[8..40])
    }
}

/// Sets the TCP checksum of the datagram in front of a buffer, whose TCP header is at `header` and which ends at
/// `end`. All other bytes stay.
pub fn set_checksum(out: &mut [u8], header: usize, end: usize)
    requires addresses { 40 ≤ length out.old }
    requires least { header + 20 ≤ end }
    requires most { end < header + 65536 }
    requires room { end ≤ length out.old }
    ensures set { IsSet out.old out.new header end }
    ensures bytes { AreBytes out.old }
{
    let addresses = address_sum(out);
    let place = header + 16;
    put_two(out, place, 0);
    let sum = addresses + TCP_PROTOCOL as u64 + (end - header) as u64 + words(&out[header..end]);
    put_two(out, place, complement(sum));
}

/// Sets the TCP checksum of a datagram, whatever else its TCP bytes hold (RFC 9293, section 3.1).
///
/// The bytes are an IP header of the written form, which has no options, and then at least 20 TCP
/// bytes, as many as its length says. The checksum field becomes the complement of the one's
/// complement sum over the pseudo-header and the TCP bytes with that field zero. All other bytes stay.
pub fn fix_checksum(datagram: &mut [u8])
    requires { HasPlainHeader datagram.old }
    ensures { datagram.new ≡ with_right_checksum datagram.old }
{
    let header = plain_header_length(datagram);
    let end = datagram.len();
    set_checksum(datagram, header, end);
}
