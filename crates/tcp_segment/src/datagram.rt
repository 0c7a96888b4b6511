//! A datagram in the caller's bytes.
ghost use Rattle.std.specs.Prelude.{◌≡◌, ℕ, List, [], ◌+◌, ◌*◌, ◌/◌, ◌%◌, ◌≤◌, ◌<◌, ◌++◌, length, take, drop};
ghost use Rattle.std.specs.Prelude.{slice_index, slice_range, IfOk, IfErr, IsOkAnd};
ghost use Rattle.book_base.specs.declared.address.Address.TheVariants.{V4, V6};
ghost use Rattle.book_segments.specs.Segments.{Segment, reading, Read, Bad, first_fault, fields, spell, header};
ghost use Rattle.book_segments.specs.Segments.{good, has, segment_length};
ghost use Rattle.book_segments.specs.Spelling.{AreBytes, Fits, Spells};
ghost use Rattle.tcp_segment.specs.Flags.{bit_of_flag};
ghost use Rattle.tcp_segment.specs.Places.{IsRead};

use crate::faults::{Places, places_in};
use crate::flags::Flag;
use crate::headers::{TCP_HEADER, TCP_PROTOCOL, is_ipv4};
use crate::options::{Options, options_over};
use crate::sums::{address_sum, four, two, words_modulo};
use book_base::{Address, Socket};
use book_segments::DatagramFault;
use std::marker::Model;

/// A datagram in the caller's bytes; seen as its fields.
#[derive(Drop)]
pub struct Datagram<'a> {
    bytes: &'a [u8],
    places: Places,
}

impl<'a> Model for Datagram<'a> {
    ghost use Rattle.book_segments.specs.Segments.{Segment, fields};
    ghost use Rattle.tcp_segment.specs.Places.{IsRead};

    ghost Value = { Segment };

    ghost view = { λ d. fields d.bytes.now };

    ghost invariant = { λ d. IsRead d.bytes.now d.places };
}

/// Reads the datagram that a prefix of the bytes is (RFC 791, RFC 8200, RFC 9293).
///
/// The answer is a fault exactly where no prefix of the bytes spells a datagram, and then it is the
/// first of the nine tests that holds, in the order of `DatagramFault`. Bytes behind the datagram's
/// end are left unread. A wrong TCP checksum is no fault: `checksum_ok` tells.
pub fn read_datagram(bytes: &[u8]) -> Result<Datagram<'_>, DatagramFault>
    ensures read { IfOk result (λ datagram. reading bytes.now ≡ Read datagram) }
    ensures refused { IfErr result (λ fault. reading bytes.now ≡ Bad fault) }
    ensures spelled { IfOk result (λ datagram. Spells datagram (take (length (spell datagram)) bytes.now)) }
    ensures only { (d : Segment) (rest : List ℕ) → Fits d → bytes.now ≡ spell d ++ rest
        → IsOkAnd result (λ datagram. datagram ≡ d) }
{
    let places = places_in(bytes)?;
    Ok(Datagram { bytes, places })
}

/// The datagram whose parts are at these places.
pub(crate) fn datagram_at(bytes: &[u8], places: Places) -> Datagram<'_>
    requires { AreBytes bytes.now → IsRead bytes.now places }
    ensures fields { result ≡ fields bytes.now }
    ensures bytes { AreBytes bytes.now }
{
    Datagram { bytes, places }
}

/// The address at a place.
fn address_v4(bytes: &[u8], at: usize) -> Address
    requires { at + 4 ≤ length bytes.now }
    ensures { result ≡ V4 (slice_range bytes.now at (at + 4)) }
{
    let mut octets = [0; 4];
    octets.copy_from_slice(&bytes[at..at + 4]);
    Address::V4(octets)
}

/// The address at a place.
fn address_v6(bytes: &[u8], at: usize) -> Address
    requires { at + 16 ≤ length bytes.now }
    ensures { result ≡ V6 (slice_range bytes.now at (at + 16)) }
{
    let mut octets = [0; 16];
    octets.copy_from_slice(&bytes[at..at + 16]);
    Address::V6(octets)
}

impl<'a> Datagram<'a> {
    /// How many bytes the datagram has, IP header and payload included.
    pub fn length(&self) -> usize
        ensures length { result ≡ length (spell self.now) }
        ensures fits { Fits self.now }
    {
        self.places.end
    }

    /// Address and port of the sender.
    pub fn source(&self) -> Socket
        ensures value { result ≡ self.now.source }
        ensures fits { Fits self.now }
    {
        let port = two(self.bytes, self.places.header);
        let address = if is_ipv4(self.bytes) {
            address_v4(self.bytes, 12)
        } else {
            address_v6(self.bytes, 8)
        };
        Socket { address, port }
    }

    /// Address and port of the receiver.
    pub fn destination(&self) -> Socket
        ensures value { result ≡ self.now.destination }
        ensures fits { Fits self.now }
    {
        let port = two(self.bytes, self.places.header + 2);
        let address = if is_ipv4(self.bytes) {
            address_v4(self.bytes, 16)
        } else {
            address_v6(self.bytes, 24)
        };
        Socket { address, port }
    }

    /// The sequence number.
    pub fn sequence(&self) -> u32
        ensures { result ≡ self.now.sequence }
    {
        four(self.bytes, self.places.header + 4)
    }

    /// The acknowledgement number, also where ACK isn't set.
    pub fn acknowledgement(&self) -> u32
        ensures { result ≡ self.now.acknowledgement }
    {
        four(self.bytes, self.places.header + 8)
    }

    /// The byte of flags, FIN lowest and CWR highest.
    pub fn flags(&self) -> u8
        ensures { result ≡ self.now.flags }
    {
        self.bytes[self.places.header + 13]
    }

    /// Whether a flag is set.
    pub fn has(&self, flag: Flag) -> bool
        ensures { result ≡ has (bit_of_flag flag) self.now }
    {
        flag.is_in(self.flags())
    }

    /// The window.
    pub fn window(&self) -> u16
        ensures { result ≡ self.now.window }
    {
        two(self.bytes, self.places.header + 14)
    }

    /// The urgent pointer.
    pub fn urgent(&self) -> u16
        ensures { result ≡ self.now.urgent }
    {
        two(self.bytes, self.places.header + 18)
    }

    /// The 20 bytes of the TCP header without its options.
    pub fn header(&self) -> &'a [u8]
        ensures bytes { result.now ≡ header self.now self.now.checksum [] }
        ensures length { length result.now ≡ 20 }
        ensures fits { Fits self.now }
    {
        &self.bytes[self.places.header..self.places.header + TCP_HEADER]
    }

    /// The options of TCP.
    pub fn options(&self) -> Options<'a>
        ensures value { result ≡ self.now.area }
        ensures fits { Fits self.now }
    {
        options_over(&self.bytes[self.places.header + TCP_HEADER..self.places.payload])
    }

    /// The payload.
    pub fn payload(&self) -> &'a [u8]
        ensures value { result.now ≡ self.now.payload }
        ensures fits { Fits self.now }
    {
        &self.bytes[self.places.payload..self.places.end]
    }

    /// How many sequence numbers the segment takes: its payload, SYN and FIN (RFC 9293, section 3.4).
    pub fn segment_length(&self) -> u64
        ensures length { result ≡ segment_length self.now }
        ensures most { result ≤ 65537 }
    {
        let payload = self.payload().len() as u64;
        payload + u64::from(self.has(Flag::Syn)) + u64::from(self.has(Flag::Fin))
    }

    /// Whether the TCP checksum is right (RFC 9293, section 3.1).
    pub fn checksum_ok(&self) -> bool
        ensures { result ≡ good self.now }
    {
        let tcp = &self.bytes[self.places.header..self.places.end];
        let sum = address_sum(self.bytes)
            + TCP_PROTOCOL as u64
            + tcp.len() as u64
            + words_modulo(tcp);
        sum > 0 && sum % 65535 == 0
    }
}
