//! The traffic key of a vector.
ghost use Rattle.std.specs.Prelude.{◌≡◌, ◌+◌, ◌≤◌, ◌<◌, ◌⊎◌, ◌++◌, length};
ghost use Rattle.book_segments.specs.Segments.{four_octets_at, two_octets_at};
ghost use Rattle.book_segments.specs.Sockets.{octets};
ghost use Rattle.book_macs.specs.Contexts.{bytes_of};
ghost use Rattle.book_macs.specs.Keys.{key_length, traffic_key};

use crate::array::array_of;
use ao_base::Steps;
use ao_kdf::{Context, TrafficKey, traffic_key};
use book_base::{Address, Algorithm, Socket};
use std::marker::Brand;
use std::sync::ledger::{Blank, Ledger};

/// The traffic key of a master key for a context, whose steps nobody counts.
pub(crate) fn key_of(alg: Algorithm, master: &[u8], context: &Context) -> TrafficKey
    ensures key { result ≡ traffic_key alg master.now (bytes_of context.now) }
    ensures length { length result ≡ key_length alg }
{
    key_in::<Brand>(Blank::new(1), alg, master, context)
}

fn key_in<L: Ledger>(blank: Blank, alg: Algorithm, master: &[u8], context: &Context) -> TrafficKey
    requires name { blank.name ≡ L.name }
    requires parts { blank.parts ≡ L.parts }
    requires part { 0 < blank.parts }
    ensures key { result ≡ traffic_key alg master.now (bytes_of context.now) }
    ensures length { length result ≡ key_length alg }
{
    let mut steps = Steps::<L>::new(blank);
    traffic_key(alg, master, context, &mut steps)
}

/// The big-endian number of two bytes.
fn two(bytes: &[u8], at: usize) -> u16
    requires { at + 1 < length bytes.now }
    ensures { result ≡ two_octets_at bytes.now at }
{
    u16::from_be_bytes([bytes[at], bytes[at + 1]])
}

/// The big-endian number of four bytes.
fn four(bytes: &[u8], at: usize) -> u32
    requires { at + 3 < length bytes.now }
    ensures { result ≡ four_octets_at bytes.now at }
{
    u32::from_be_bytes([bytes[at], bytes[at + 1], bytes[at + 2], bytes[at + 3]])
}

/// The context of two addresses, and of the ports and initial sequence numbers in these bytes.
fn context_with(source: Address, destination: Address, numbers: &[u8]) -> Context
    requires { length numbers.now ≡ 12 }
    ensures { bytes_of result ≡ octets source ++ (octets destination ++ numbers.now) }
{
    Context {
        source: Socket {
            address: source,
            port: two(numbers, 0),
        },
        destination: Socket {
            address: destination,
            port: two(numbers, 2),
        },
        source_isn: four(numbers, 4),
        dest_isn: four(numbers, 8),
    }
}

/// The context that 20 or 44 bytes spell (RFC 5925, section 5.2).
pub(crate) fn read_context(bytes: &[u8]) -> Context
    requires { (length bytes.now ≡ 20) ⊎ (length bytes.now ≡ 44) }
    ensures { bytes_of result ≡ bytes.now }
{
    if bytes.len() == 20 {
        let (source, rest) = bytes.split_at(4);
        let (destination, numbers) = rest.split_at(4);
        let source = Address::V4(array_of(source));
        let destination = Address::V4(array_of(destination));
        context_with(source, destination, numbers)
    } else {
        let (source, rest) = bytes.split_at(16);
        let (destination, numbers) = rest.split_at(16);
        let source = Address::V6(array_of(source));
        let destination = Address::V6(array_of(destination));
        context_with(source, destination, numbers)
    }
}
