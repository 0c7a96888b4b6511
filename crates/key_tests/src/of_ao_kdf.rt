//! A traffic key that is kept. Keys of both families by each algorithm stand in the examples of `vectors`. The
//! expected value is that of `oracle/vectors_sha256.py`, a program on Python's `hmac` alone.
ghost use Rattle.std.specs.Prelude.{◌≡◌, ◌+◌, ◌<◌, ◌≤◌, length, IfOk};

use ao_base::Steps;
use ao_kdf::{Context, KeyCache, Way};
use book_base::{Address, Algorithm, Socket};
use std::alloc::{AllocError, Global};
use std::marker::Brand;
use std::sync::ledger::{Blank, Ledger};
use std::test::Fail;

/// A master key.
const MASTER: &[u8; 12] = b"a master key";

/// Whether a new cache that is asked twice for a key gives this one both times.
fn keeps_key(
    alloc: Global,
    alg: Algorithm,
    master: &[u8],
    context: &Context,
    expected: &[u8],
) -> Result<bool, AllocError> {
    keeps::<Brand>(alloc, Blank::new(1), alg, master, context, expected)
}

fn keeps<L: Ledger>(
    alloc: Global,
    blank: Blank,
    alg: Algorithm,
    master: &[u8],
    context: &Context,
    expected: &[u8],
) -> Result<bool, AllocError>
    requires name { blank.name ≡ L.name }
    requires parts { blank.parts ≡ L.parts }
    requires part { 0 < blank.parts }
{
    let mut steps = Steps::<L>::new(blank);
    asked_twice(alloc, alg, master, context, expected, &mut steps)
}

/// Whether this key is kept for the second row.
fn lends(cache: &KeyCache, expected: &[u8]) -> bool
    requires { 2 ≤ cache.now.rows }
{
    match cache.kept(2, Way::Inbound) {
        Some(key) => key.as_slice() == expected,
        None => false,
    }
}

/// Asks a new cache for a key twice: one step in all.
fn asked_twice<L: Ledger>(
    alloc: Global,
    alg: Algorithm,
    master: &[u8],
    context: &Context,
    expected: &[u8],
    steps: &mut Steps<L>,
) -> Result<bool, AllocError>
    ensures counted { IfOk result (λ same. steps.new ≡ steps.old + 1) }
{
    let mut cache = KeyCache::new(alloc, 2)?;
    cache.keep(2, Way::Inbound, alg, master, context, steps);
    let made = lends(&cache, expected);
    cache.keep(2, Way::Inbound, alg, master, context, steps);
    Ok(made && lends(&cache, expected))
}

fn over_ipv4(port: u16, source_isn: u32) -> Context {
    Context {
        source: Socket {
            address: Address::V4([10, 0, 0, 1]),
            port,
        },
        destination: Socket {
            address: Address::V4([10, 0, 0, 2]),
            port: 2000,
        },
        source_isn,
        dest_isn: 0,
    }
}

/// The key of a first segment over IPv4 by HMAC-SHA-256.
const FIRST_SHA256: [u8; 32] = [
    0x81, 0xe4, 0xf7, 0x6b, 0x24, 0xe4, 0x00, 0x1e, 0x18, 0xc6, 0x1e, 0x91, 0xdb, 0x1f, 0x71, 0x03,
    0x45, 0x3d, 0x06, 0xa8, 0xa4, 0xd9, 0xc5, 0xb3, 0x0f, 0x74, 0x7a, 0xd6, 0x78, 0xbb, 0x9f, 0x2d,
];

#[test]
fn a_key_is_kept(rt: HostRuntime) -> Result<(), Fail> {
    let context = over_ipv4(1000, 0x0102_0304);
    assert!(rt;
        keeps_key(
            rt.alloc(),
            Algorithm::HmacSha256,
            MASTER,
            &context,
            &FIRST_SHA256
        )?
    );
    Ok(())
}
