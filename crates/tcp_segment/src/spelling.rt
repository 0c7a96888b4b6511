//! The written form of a datagram.
ghost use Rattle.std.specs.Prelude.{◌≡◌, ◌+◌, ◌-◌, ◌*◌, ◌/◌, ◌%◌, ◌≤◌, ◌<◌, ◌++◌, ◌∷◌, List, [], ℕ, length, take};
ghost use Rattle.std.specs.Prelude.{drop, replicate, ◌⊎◌, Option, Some, None};
ghost use Rattle.book_segments.specs.Bytes.{put2};
ghost use Rattle.book_segments.specs.Sockets.{octets};
ghost use Rattle.book_segments.specs.Segments.{complement_of};
ghost use Rattle.tcp_segment.specs.Written.{ip_words};
ghost use Rattle.tcp_segment.specs.Layout.{ip_start, ip_size, tcp_start, mss_length, option_heads, header_length};
ghost use Rattle.tcp_segment.specs.Layout.{IsSized, HasNumbers, IsHead, HoldsDraft};
ghost use Rattle.tcp_segment.specs.Drafts.{Drafted, InBuffer};

use crate::draft::{DatagramMut, Draft};
use crate::headers::{
    DONT_FRAGMENT, FIVE_WORDS, HOPS, IPV4_FIRST, IPV4_HEADER, IPV6_FIRST, IPV6_HEADER, TCP_HEADER,
    TCP_PROTOCOL,
};
use crate::kinds::{AO_HEAD, AO_KIND, MSS_KIND};
use crate::parts::{put, put_zeros};
use crate::sums::{complement, words};
use book_base::{Address, Socket};
use byteorder::{BigEndian, ByteOrder};

/// What a sender sets in a datagram. The addresses are of one family, and the MAC of TCP-AO has 12
/// or 16 bytes.
#[derive(Clone, Copy, Debug)]
pub struct Head {
    pub source: Socket,
    pub destination: Socket,
    pub sequence: u32,
    pub acknowledgement: u32,
    pub flags: u8,
    pub window: u16,
    pub mss: Option<u16>,
    pub key_id: u8,
    pub rnext: u8,
    pub mac_length: u8,
}

/// The bytes of an address.
fn octets_of(address: &Address) -> &[u8]
    ensures bytes { result.now ≡ octets address.now }
    ensures sized { IsSized address.now }
    ensures most { length result.now ≤ 16 }
{
    match address {
        Address::V4(bytes) => bytes,
        Address::V6(bytes) => bytes,
    }
}

/// An IPv4 header up to its addresses.
fn ipv4_start(total: u16, checksum: u16) -> [u8; 12]
    ensures { result ≡ 69 ∷ 0 ∷ put2 total (0 ∷ 0 ∷ 64 ∷ 0 ∷ 64 ∷ 6 ∷ put2 checksum []) }
{
    let mut start = [
        IPV4_FIRST,
        0,
        0,
        0,
        0,
        0,
        DONT_FRAGMENT,
        0,
        HOPS,
        TCP_PROTOCOL,
        0,
        0,
    ];
    BigEndian::write_u16(&mut start[2..], total);
    BigEndian::write_u16(&mut start[10..], checksum);
    start
}

/// An IPv6 header up to its addresses.
fn ipv6_start(length: u16) -> [u8; 8]
    ensures { result ≡ 96 ∷ 0 ∷ 0 ∷ 0 ∷ put2 length (6 ∷ 64 ∷ []) }
{
    let mut start = [IPV6_FIRST, 0, 0, 0, 0, 0, TCP_PROTOCOL, HOPS];
    BigEndian::write_u16(&mut start[4..], length);
    start
}

/// A TCP header over options of this length, its checksum zero.
fn tcp_start_of(head: &Head, area_length: u8) -> [u8; 20]
    requires { area_length ≤ 40 }
    ensures bytes { result ≡ tcp_start head.now 0 area_length }
    ensures numbers { HasNumbers head.now }
{
    let mut start = [0; 20];
    BigEndian::write_u16(&mut start, head.source.port);
    BigEndian::write_u16(&mut start[2..], head.destination.port);
    BigEndian::write_u32(&mut start[4..], head.sequence);
    BigEndian::write_u32(&mut start[8..], head.acknowledgement);
    start[12] = FIVE_WORDS + 4 * area_length;
    start[13] = head.flags;
    BigEndian::write_u16(&mut start[14..], head.window);
    start
}

/// The length of the IP header.
fn ip_length_of(head: &Head) -> usize
    ensures { result ≡ ip_size head.now.source.address }
{
    match head.source.address {
        Address::V4(_) => IPV4_HEADER,
        Address::V6(_) => IPV6_HEADER,
    }
}

/// The length of the options in front of the MAC.
fn heads_length_of(head: &Head) -> usize
    ensures { result ≡ 4 + mss_length head.now.mss }
{
    match head.mss {
        Some(_) => 8,
        None => 4,
    }
}

/// The checksum of the IPv4 header.
fn ip_checksum_of(head: &Head, total: u16) -> u16
    ensures { result ≡ complement_of (ip_words head.now.source.address head.now.destination.address total) }
{
    let start = ipv4_start(total, 0);
    let addresses = words(octets_of(&head.source.address))
        + words(octets_of(&head.destination.address));
    complement(words(&start) + addresses)
}

/// Writes the IP header up to its addresses.
fn put_ip_start(out: &mut [u8], head: &Head, tcp_length: u16) -> usize
    requires room { 40 ≤ length out.old }
    requires small { tcp_length ≤ 1500 }
    ensures end { result ≡ length (ip_start head.now tcp_length head.now.source.address) }
    ensures most { result ≤ 12 }
    ensures front { take result out.new ≡ ip_start head.now tcp_length head.now.source.address }
    ensures rest { (n : ℕ) → result ≤ n → drop n out.new ≡ drop n out.old }
{
    match head.source.address {
        Address::V4(_) => {
            let total = IPV4_HEADER as u16 + tcp_length;
            put(out, 0, &ipv4_start(total, ip_checksum_of(head, total)))
        }
        Address::V6(_) => put(out, 0, &ipv6_start(tcp_length)),
    }
}

/// Writes the MSS, where there is one, and the head of the TCP-AO option.
fn put_options(out: &mut [u8], at: usize, head: &Head) -> usize
    requires fits { at + 8 ≤ length out.old }
    requires mac { head.now.mac_length ≤ 16 }
    ensures end { result ≡ at + length (option_heads head.now head.now.mac_length) }
    ensures size { result ≡ at + (4 + mss_length head.now.mss) }
    ensures front { take result out.new ≡ take at out.old ++ option_heads head.now head.now.mac_length }
    ensures rest { (n : ℕ) → result ≤ n → drop n out.new ≡ drop n out.old }
{
    let ao = [AO_KIND, AO_HEAD + head.mac_length, head.key_id, head.rnext];
    match head.mss {
        Some(mss) => {
            let mut heads = [MSS_KIND, 4, 0, 0, ao[0], ao[1], ao[2], ao[3]];
            BigEndian::write_u16(&mut heads[2..], mss);
            put(out, at, &heads)
        }
        None => put(out, at, &ao),
    }
}

/// Where the parts of a draft begin: TCP header, MAC, payload and what is behind it.
struct Layout {
    header: usize,
    mac: usize,
    payload: usize,
    len: usize,
}

/// Writes the headers and options of a head, and zeros for its MAC and payload.
fn lay_out(out: &mut [u8], head: &Head, payload_len: usize) -> Layout
    requires head { IsHead head.now payload_len }
    requires room { 1500 ≤ length out.old }
    ensures { HoldsDraft out.new result.header result.mac result.payload result.len head.now 0
        (replicate head.now.mac_length 0) (replicate payload_len 0)
        (drop (header_length head.now + payload_len) out.old) }
{
    let header = ip_length_of(head);
    let mac = header + TCP_HEADER + heads_length_of(head);
    let payload = mac + head.mac_length as usize;
    let len = payload + payload_len;
    let area_length = (payload - header - TCP_HEADER) as u8;
    let at = put_ip_start(out, head, (len - header) as u16);
    let at = put(out, at, octets_of(&head.source.address));
    let at = put(out, at, octets_of(&head.destination.address));
    let at = put(out, at, &tcp_start_of(head, area_length));
    let at = put_options(out, at, head);
    put_zeros(out, at, len);
    Layout {
        header,
        mac,
        payload,
        len,
    }
}

/// Lays a datagram out in a buffer: the headers and options of the head, with the payload and the
/// MAC zero, and the TCP checksum zero until `finish`.
///
/// The form is IPv4 with type of service and identification 0, don't fragment, TTL 64 and no
/// options, or IPv6 with traffic class and flow label 0 and hop limit 64; in TCP the reserved bits
/// and the urgent pointer are 0, and the options are the MSS where there is one, then TCP-AO,
/// without padding (RFC 791, RFC 8200, RFC 9293, RFC 5925). The addresses are of one family, the MAC
/// has 12 or 16 bytes, the payload at most 1,460, the datagram at most 1,500, and the buffer at
/// least 1,500. The bytes of the buffer behind the datagram stay.
pub fn write_datagram<'a>(out: &'a mut [u8], head: &Head, payload_len: usize) -> DatagramMut<'a>
    requires head { IsHead head.now payload_len }
    requires room { 1500 ≤ length out.old }
    ensures same_buffer { InBuffer out.entry result }
    ensures drafted { Drafted result head.now (replicate head.now.mac_length 0) (replicate payload_len 0)
        (drop (header_length head.now + payload_len) out.old) }
{
    let Layout {
        header,
        mac,
        payload,
        len,
    } = lay_out(out, head, payload_len);
    Draft {
        out,
        header,
        mac,
        payload,
        len,
    }
}
