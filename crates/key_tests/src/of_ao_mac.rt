//! A segment that is sealed has its MAC, and what two inputs share. The segments of RFC 9235 stand in
//! `examples/rfc9235`.
ghost use Rattle.std.specs.Prelude.{◌≡◌, ◌<◌, ◌≤◌, length, IfSome};
ghost use Rattle.book_base.specs.Algorithms.{mac_length_of};
ghost use Rattle.book_macs.specs.Keys.{key_length};
ghost use Rattle.tcp_segment.specs.Layout.{IsHead};
ghost use Rattle.book_segments.specs.Options.{One, find_ao};
ghost use Rattle.tcp_segment.specs.Views.{view_ao};
ghost use Rattle.ao_mac.specs.Macs.{HasAo};

mod segments;

use ao_base::Steps;
use ao_kdf::{Context, TrafficKey, traffic_key};
use ao_mac::{MacInput, mac, same_input, seal};
use book_base::{Address, Algorithm, Socket};
use segments::{ALONE, SYN_HMAC};
use std::marker::Brand;
use std::sync::ledger::{Blank, Ledger};
use std::test::Fail;
use tcp_segment::{AoFound, Datagram, Head, read_datagram, write_datagram};

/// The master key of RFC 9235, section 3.1.
const MASTER: &[u8; 10] = b"testvector";

/// An address of IPv6.
const ONE: [u8; 16] = [0x20, 1, 0xd, 0xb8, 0, 0, 0, 0, 0, 0, 0, 0, 0, 0, 0, 1];

/// Another.
const TWO: [u8; 16] = [0x20, 1, 0xd, 0xb8, 0, 0, 0, 0, 0, 0, 0, 0, 0, 0, 0, 2];

/// The context of a connection whose ends both chose their first numbers.
fn over_ipv6() -> Context {
    Context {
        source: Socket {
            address: Address::V6(ONE),
            port: 50000,
        },
        destination: Socket {
            address: Address::V6(TWO),
            port: 179,
        },
        source_isn: 100,
        dest_isn: 200,
    }
}

/// The MAC field of a segment with one TCP-AO option.
fn mac_field<'a>(datagram: &Datagram<'a>) -> Option<&'a [u8]>
    ensures { IfSome result (λ field. HasAo datagram.now) }
{
    let options = datagram.options();
    match options.find_ao() {
        AoFound::One(ao) => Some(ao.mac),
        _ => None,
    }
}

/// Whether a segment has the MAC under the traffic key of a context.
fn passes<L: Ledger>(
    blank: Blank,
    alg: Algorithm,
    context: &Context,
    sne: u32,
    datagram: &Datagram<'_>,
    with_options: bool,
) -> bool
    requires name { blank.name ≡ L.name }
    requires parts { blank.parts ≡ L.parts }
    requires part { 0 < blank.parts }
{
    let mut steps = Steps::<L>::new(blank);
    let key = traffic_key(alg, MASTER, context, &mut steps);
    let Some(field) = mac_field(datagram) else {
        return false;
    };
    mac(&key, alg, sne, datagram, with_options).as_slice() == field
}

/// Lays a segment out, and seals it.
fn send(
    out: &mut [u8],
    key: &TrafficKey,
    alg: Algorithm,
    head: &Head,
    payload: &[u8],
    with_options: bool,
) -> usize
    requires head { IsHead head.now (length payload.now) }
    requires mac { head.now.mac_length ≡ mac_length_of alg }
    requires key { length key.now ≡ key_length alg }
    requires room { 1500 ≤ length out.old }
{
    let mut datagram = write_datagram(out, head, payload.len());
    datagram.payload_mut().copy_from_slice(payload);
    seal(key, alg, 1, &mut datagram, with_options);
    datagram.finish()
}

/// A segment over IPv6, whose number is past the first 2^32.
fn sealed<L: Ledger>(blank: Blank, out: &mut [u8], alg: Algorithm, with_options: bool) -> usize
    requires name { blank.name ≡ L.name }
    requires parts { blank.parts ≡ L.parts }
    requires part { 0 < blank.parts }
    requires room { 1500 ≤ length out.old }
{
    let context = over_ipv6();
    let mut steps = Steps::<L>::new(blank);
    let key = traffic_key(alg, MASTER, &context, &mut steps);
    let head = Head {
        source: Socket {
            address: Address::V6(ONE),
            port: 50000,
        },
        destination: Socket {
            address: Address::V6(TWO),
            port: 179,
        },
        sequence: 101,
        acknowledgement: 201,
        flags: 0x18,
        window: 512,
        mss: Some(1460),
        key_id: 7,
        rnext: 8,
        mac_length: alg.mac_length(),
    };
    send(out, &key, alg, &head, b"hello", with_options)
}

/// Seals a segment, and says how long it is.
fn written(out: &mut [u8], alg: Algorithm, with_options: bool) -> usize
    requires { 1500 ≤ length out.old }
{
    sealed::<Brand>(Blank::new(1), out, alg, with_options)
}

/// Whether a later segment has its MAC.
fn verifies_later(alg: Algorithm, sne: u32, datagram: &Datagram<'_>, with_options: bool) -> bool {
    let context = over_ipv6();
    passes::<Brand>(Blank::new(1), alg, &context, sne, datagram, with_options)
}

/// Whether a segment that is sealed has this length and this MAC, also once it is read again; with the other
/// flag or in the lap before it would have another one.
fn is_sealed(alg: Algorithm, with_options: bool, length: usize, expected: &[u8]) -> bool {
    let mut out = [0xff; 1500];
    if written(&mut out, alg, with_options) != length {
        return false;
    }
    let Ok(datagram) = read_datagram(&out) else {
        return false;
    };
    out[68..].starts_with(expected)
        && datagram.checksum_ok()
        && verifies_later(alg, 1, &datagram, with_options)
        && !verifies_later(alg, 0, &datagram, with_options)
        && !verifies_later(alg, 1, &datagram, !with_options)
}

/// The MAC by Python's `cryptography`.
#[test]
fn sealed_by_cmac_has_its_mac_when_read_again(rt: HostRuntime) {
    let expected = [
        0x7a, 0x54, 0x81, 0x61, 0xb2, 0x65, 0xc7, 0x05, 0x52, 0xa4, 0xe2, 0xa2,
    ];
    assert!(rt; is_sealed(Algorithm::AesCmac, false, 85, &expected));
}

/// The MAC by Python's `hmac`.
#[test]
fn sealed_by_hmac_has_its_mac_when_read_again(rt: HostRuntime) {
    let expected = [
        0x5f, 0x12, 0x26, 0x72, 0x60, 0x6e, 0x5b, 0xe1, 0xc5, 0x02, 0xe3, 0xf3,
    ];
    assert!(rt; is_sealed(Algorithm::HmacSha1, true, 85, &expected));
}

/// The MAC is that of the last line of `oracle/vectors_sha256.py`.
#[test]
fn sealed_by_hmac_sha256_has_its_mac_when_read_again(rt: HostRuntime) {
    let expected = [
        0x33, 0x9b, 0x54, 0xa0, 0xe7, 0x1e, 0xc2, 0x12, 0x4c, 0x61, 0x65, 0x4d, 0xa3, 0xd8, 0x50,
        0x4f,
    ];
    assert!(rt; is_sealed(Algorithm::HmacSha256, false, 89, &expected));
}

/// What the MAC of a segment with one TCP-AO option is computed over.
fn input_of<'a>(datagram: &'a Datagram<'a>, with_options: bool) -> Option<MacInput<'a>>
    ensures { IfSome result (λ input. find_ao input.datagram.now.area ≡ One (view_ao input.option)) }
{
    let options = datagram.options();
    match options.find_ao() {
        AoFound::One(option) => Some(MacInput {
            sne: 1,
            datagram,
            option,
            with_options,
        }),
        _ => None,
    }
}

/// Whether the MACs of two segments are computed over the same bytes, with these flags.
fn same(bytes: &[u8], with_options: bool, other: &[u8], other_with_options: bool) -> bool {
    let Ok(datagram) = read_datagram(bytes) else {
        return false;
    };
    let Ok(other_datagram) = read_datagram(other) else {
        return false;
    };
    let Some(one) = input_of(&datagram, with_options) else {
        return false;
    };
    let Some(two) = input_of(&other_datagram, other_with_options) else {
        return false;
    };
    same_input(&one, &two)
}

/// Whether a segment has the same input once a byte of it is altered.
fn same_with(place: usize, with_options: bool) -> bool
    requires { place < 76 }
{
    let mut other = SYN_HMAC;
    other[place] = 99;
    same(&SYN_HMAC, with_options, &other, with_options)
}

#[test]
fn input_is_blind_to_mac_and_checksum(rt: HostRuntime) {
    for place in [36, 37, 64, 75] {
        assert!(rt; same_with(place, true));
        assert!(rt; same_with(place, false));
    }
}

#[test]
fn input_sees_ports_numbers_flags_window_urgent_and_ids(rt: HostRuntime) {
    for place in [20, 23, 24, 27, 28, 31, 33, 34, 38, 62, 63] {
        assert!(rt; !same_with(place, true));
        assert!(rt; !same_with(place, false));
    }
}

#[test]
fn input_sees_other_options_by_the_flag(rt: HostRuntime) {
    assert!(rt; !same_with(43, true));
    assert!(rt; same_with(43, false));
    assert!(rt; !same(&SYN_HMAC, true, &SYN_HMAC, false));
    assert!(rt; same(&ALONE, true, &ALONE, false));
    assert!(rt; !same(&ALONE, true, &SYN_HMAC, true));
}
