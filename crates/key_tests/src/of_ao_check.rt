//! Refusals in their order, lifetimes, laps, rows added and withdrawn, and what is signed.
ghost use Rattle.std.specs.Prelude.{◌≡◌, ◌≤◌, ◌<◌, ◌+◌, length, IfSome};
ghost use Rattle.book_keys.specs.Lifetimes.{greatest_time};
ghost use Rattle.ao_check.specs.Bonds.{Bond, Fits};

mod changes;
mod passes;
mod refusals;

use ao_base::Steps;
use ao_check::{Association, Passed, Refusal};
use book_base::{Address, Algorithm, Bytes, Pair, Socket};
use key_table::{AddRefusal, Direction, Lifetime, NewRow, Table};
use std::alloc::{AllocError, Global};
use std::marker::Brand;
use std::sync::ledger::{Blank, Ledger};
use tcp_segment::{Datagram, read_datagram};

/// The last second at which the rows accept.
const LAST: u64 = 3660;

/// The greatest end of a segment.
const END: u64 = 1 << 63;

const LOCAL: Socket = Socket {
    address: Address::V4([10, 0, 0, 2]),
    port: 2000,
};

const REMOTE: Socket = Socket {
    address: Address::V4([10, 0, 0, 1]),
    port: 1000,
};

const PAIR: Pair = Pair {
    local: LOCAL,
    remote: REMOTE,
};

/// Adds a row with this id both ways, for the lifetime up to `LAST`.
fn add(alloc: Global, table: &mut Table, id: u8, algorithm: Algorithm) -> Result<u8, AddRefusal>
    ensures { (a : Bond) → length table.old.rows < a.keys.rows → Fits table.old.rows a → Fits table.new.rows a }
{
    let lifetime = Lifetime {
        first: 0,
        last: LAST,
    };
    let row = NewRow {
        recv_id: id,
        send_id: id,
        algorithm,
        master: Bytes::from_vec(Vec::from_slice(alloc, b"testvector")?),
        with_options: true,
        direction: Direction::Both,
        sending: lifetime,
        accepting: lifetime,
    };
    table.add(alloc, row)
}

/// A table with a row for each algorithm: 1, 2 and 3 by the ids 61, 2 and 3, and 4 by id 1.
fn four_rows(alloc: Global) -> Result<Table, AddRefusal> {
    let mut table = Table::empty(alloc, PAIR.local.address);
    add(alloc, &mut table, 61, Algorithm::HmacSha1)?;
    add(alloc, &mut table, 2, Algorithm::AesCmac)?;
    add(alloc, &mut table, 3, Algorithm::HmacSha256)?;
    add(alloc, &mut table, 1, Algorithm::HmacSha1)?;
    Ok(table)
}

/// The datagram in front of the bytes, if it goes from the remote to the local socket.
fn arriving<'a>(pair: &Pair, bytes: &'a [u8]) -> Option<Datagram<'a>>
    ensures { IfSome result (λ d. (d.source ≡ pair.now.remote) × (d.destination ≡ pair.now.local)) }
{
    let Ok(datagram) = read_datagram(bytes) else {
        return None;
    };
    if datagram.source() != pair.remote {
        return None;
    }
    if datagram.destination() != pair.local {
        return None;
    }
    Some(datagram)
}

/// What a new association says of a segment: where a number is expected, the peer's initial sequence
/// number is 100; the own one is 200.
fn judged<L: Ledger>(
    alloc: Global,
    blank: Blank,
    table: &Table,
    pair: Pair,
    now: u64,
    expected: Option<u64>,
    bytes: &[u8],
) -> Result<Option<Result<Passed, Refusal>>, AllocError>
    requires name { blank.name ≡ L.name }
    requires parts { blank.parts ≡ L.parts }
    requires part { 0 < blank.parts }
{
    let mut steps = Steps::<L>::new(blank);
    let mut association = Association::new(alloc, table, pair, 200, table.rows())?;
    let datagram = match arriving(&pair, bytes) {
        None => return Ok(None),
        Some(datagram) => datagram,
    };
    let expected = match expected {
        None => return Ok(Some(association.check(table, now, None, &datagram, &mut steps))),
        Some(expected) => expected.min(END),
    };
    association.learn(100);
    Ok(Some(association.check(table, now, Some(expected), &datagram, &mut steps)))
}

/// The same, with steps that nobody counts.
fn verdict(
    alloc: Global,
    table: &Table,
    pair: Pair,
    now: u64,
    expected: Option<u64>,
    bytes: &[u8],
) -> Result<Option<Result<Passed, Refusal>>, AllocError> {
    judged::<Brand>(alloc, Blank::new(1), table, pair, now, expected, bytes)
}
