//! Guards with room for the keys of any table.
ghost use Rattle.std.specs.Prelude.{◌≡◌, length, IfOk};
ghost use Rattle.shim_pairs.specs.Holdings.{HaveRoom, larger, room_of};

use ao_shim::Guard;
use book_base::{Address, Pair, Socket};
use key_table::Tables;
use std::alloc::{AllocError, Global};

/// The larger one of two numbers.
fn larger(one: u8, other: u8) -> u8
    ensures { result ≡ larger one other }
{
    if one < other { other } else { one }
}

/// How many rows the largest table has.
pub(crate) fn most_rows(tables: &Tables) -> u8
    ensures { result ≡ room_of tables.now }
{
    let mut most = 0;
    for n in 0..tables.nodes() {
        most = larger(most, tables.node(n + 1).rows());
    }
    most
}

/// A pair that no datagram has.
pub(crate) fn no_pair() -> Pair {
    let socket = Socket {
        port: 0,
        address: Address::V4([0; 4]),
    };
    Pair {
        local: socket,
        remote: socket,
    }
}

/// So many guards of no pair, each with room for the keys of so many rows.
pub(crate) fn guards(alloc: Global, rows: u8, count: usize) -> Result<Vec<Guard>, AllocError>
    ensures count { IfOk result (λ v. length v.items ≡ count) }
    ensures room { IfOk result (λ v. HaveRoom rows v.items) }
{
    let mut guards = Vec::with_capacity(alloc, count)?;
    for _ in 0..count {
        guards.push(Guard::new(alloc, no_pair(), rows)?)?;
    }
    Ok(guards)
}
