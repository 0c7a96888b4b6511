//! The head of a segment that an end makes.
ghost use Rattle.std.specs.Prelude.{◌≡◌, ◌<◌, ◌%◌};
ghost use Rattle.book_segments.specs.Bytes.{ring};
ghost use Rattle.book_endpoint.specs.States.{own_mss};
ghost use Rattle.tcp_segment.specs.Counter.{number as value_of};
ghost use Rattle.segment_writer.specs.Heads.{head_of, mss_with, window_with, expected_with};

use crate::outgoing::Outgoing;
use ao_check::Sending;
use book_base::{Address, Pair};
use tcp_segment::{Counter, Flag, Head};

/// The own maximum segment size, by the family of the own address: 1,460 or 1,440, which with 40 or
/// 60 bytes of headers make 1,500 (RFC 9293, section 3.7.1).
pub fn own_mss(address: &Address) -> u16
    ensures { result ≡ own_mss address.now }
{
    match address {
        Address::V4(_) => 1460,
        Address::V6(_) => 1440,
    }
}

/// The sequence field: the low half of the number.
fn sequence_of(number: Counter) -> u32
    ensures { result ≡ value_of number % ring }
{
    number.low
}

/// The maximum segment size, which is told with SYN alone.
fn mss_of(flags: u8, address: &Address) -> Option<u16>
    ensures { result ≡ mss_with flags address.now }
{
    Flag::Syn.is_in(flags).then_some(own_mss(address))
}

/// The acknowledgement field: the number expected with ACK, else 0.
fn acknowledgement_of(flags: u8, expected: u32) -> u32
    ensures { result ≡ expected_with flags expected }
{
    if Flag::Ack.is_in(flags) { expected } else { 0 }
}

/// The window field: none with RST, the widest before the peer is heard.
fn window_of(flags: u8, window: u16) -> u16
    ensures { result ≡ window_with flags window }
{
    if Flag::Rst.is_in(flags) {
        return 0;
    }
    if Flag::Ack.is_in(flags) {
        window
    } else {
        65535
    }
}

/// What a sender sets in the datagram of a segment, with a MAC of so many bytes.
pub(crate) fn head_of(
    pair: &Pair,
    outgoing: &Outgoing<'_>,
    sending: &Sending,
    mac_length: u8,
) -> Head
    ensures { result ≡ head_of pair.now outgoing.now sending.now mac_length }
{
    let flags = outgoing.flags;
    Head {
        source: pair.local,
        destination: pair.remote,
        sequence: sequence_of(outgoing.number),
        acknowledgement: acknowledgement_of(flags, outgoing.expected),
        flags,
        window: window_of(flags, outgoing.window),
        mss: mss_of(flags, &pair.local.address),
        key_id: sending.key_id,
        rnext: sending.rnext,
        mac_length,
    }
}
