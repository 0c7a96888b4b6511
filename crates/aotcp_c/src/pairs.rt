//! Addresses and pairs of sockets, from a C program and to one.
ghost use Rattle.std.specs.Prelude.{◌≡◌, IfSome};
ghost use Rattle.book_base.specs.Addresses.{IsOneFamily};
ghost use Rattle.aotcp_c.specs.Shapes.{address_of, bytes_of, family_of, four, no_pair, pair_of, padded, told_pair};

use crate::shapes::{CAddress, CPair};
use book_base::{Address, Pair, Socket};

/// The first four bytes.
fn four(bytes: &[u8; 16]) -> [u8; 4]
    ensures { result ≡ four bytes.now }
{
    [bytes[0], bytes[1], bytes[2], bytes[3]]
}

/// The address. None exactly for another family than 4 and 6.
pub(crate) fn address_of(c: &CAddress) -> Option<Address>
    ensures { result ≡ address_of c.now }
{
    match c.family {
        4 => Some(Address::V4(four(&c.bytes))),
        6 => Some(Address::V6(c.bytes)),
        _ => None,
    }
}

/// The pair of sockets. None exactly for another family than 4 and 6.
pub(crate) fn pair_of(c: &CPair) -> Option<Pair>
    ensures told { result ≡ pair_of c.now }
    ensures family { IfSome result (λ p. IsOneFamily p.local.address p.remote.address) }
{
    match c.family {
        4 => Some(Pair {
            local: Socket {
                address: Address::V4(four(&c.local)),
                port: c.local_port,
            },
            remote: Socket {
                address: Address::V4(four(&c.remote)),
                port: c.remote_port,
            },
        }),
        6 => Some(Pair {
            local: Socket {
                address: Address::V6(c.local),
                port: c.local_port,
            },
            remote: Socket {
                address: Address::V6(c.remote),
                port: c.remote_port,
            },
        }),
        _ => None,
    }
}

/// Four bytes, and twelve that are zero.
fn padded(b: &[u8; 4]) -> [u8; 16]
    ensures { result ≡ padded b.now }
{
    [b[0], b[1], b[2], b[3], 0, 0, 0, 0, 0, 0, 0, 0, 0, 0, 0, 0]
}

/// The bytes of an address.
fn bytes_of(address: &Address) -> [u8; 16]
    ensures { result ≡ bytes_of address.now }
{
    match address {
        Address::V4(bytes) => padded(bytes),
        Address::V6(bytes) => *bytes,
    }
}

/// The family of an address.
fn family_of(address: &Address) -> u8
    ensures { result ≡ family_of address.now }
{
    match address {
        Address::V4(_) => 4,
        Address::V6(_) => 6,
    }
}

/// A pair of sockets, for a C program; its family is that of the local address.
pub(crate) fn told_pair(pair: &Pair) -> CPair
    ensures { result ≡ told_pair pair.now }
{
    CPair {
        family: family_of(&pair.local.address),
        local: bytes_of(&pair.local.address),
        remote: bytes_of(&pair.remote.address),
        local_port: pair.local.port,
        remote_port: pair.remote.port,
    }
}

/// No pair: all zero.
pub(crate) fn no_pair() -> CPair
    ensures { result ≡ no_pair }
{
    let zeros = [0, 0, 0, 0, 0, 0, 0, 0, 0, 0, 0, 0, 0, 0, 0, 0];
    CPair {
        family: 0,
        local: zeros,
        remote: zeros,
        local_port: 0,
        remote_port: 0,
    }
}
