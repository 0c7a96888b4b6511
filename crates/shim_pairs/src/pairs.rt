//! The pairs of sockets whose datagrams pass through.
ghost use Rattle.std.specs.Prelude.{◌≡◌, ◌≤◌, [], length, IfOk};

use crate::entry::Entry;
use crate::room::{guards, most_rows, no_pair};
use ao_shim::Guard;
use key_table::Tables;
use pair_table::PairTable;
use std::alloc::{AllocError, Global};
use std::marker::Model;

/// The pairs of sockets whose datagrams pass through: the key tables of the own addresses, and for each pair
/// of which something passed its guard. Seen as these tables, how many pairs are held at most, and the
/// entries in the order of pairs.
///
/// A guard that no pair has lies in `spares` or is `hand`: a pair of which nothing is held gets the one at
/// hand, and where it is to be held, another one comes to hand. Each has room for the keys of as many rows
/// as the largest table has.
#[derive(Drop)]
pub(crate) struct Pairs {
    pub(crate) tables: Tables,
    pub(crate) entries: PairTable<Entry>,
    pub(crate) spares: Vec<Guard>,
    pub(crate) hand: Guard,
}

impl Model for Pairs {
    ghost use Rattle.shim_pairs.specs.Holdings.{Holding, IsWhole};

    ghost Value = { Holding };

    ghost view = { λ s. record { tables = s.tables; most = s.entries.most; entries = s.entries.entries } };

    ghost invariant = { λ s. IsWhole s.tables s.entries.most s.entries.entries s.spares.items s.hand };
}

impl Pairs {
    /// Nothing is held, and at most `most` pairs, with all the memory for them.
    pub(crate) fn new(alloc: Global, tables: Tables, most: usize) -> Result<Pairs, AllocError>
        requires { 1 ≤ most }
        ensures { IfOk result (λ s. s ≡ record { tables = tables; most = most; entries = [] }) }
    {
        let rows = most_rows(&tables);
        let spares = guards(alloc, rows, most)?;
        let hand = Guard::new(alloc, no_pair(), rows)?;
        let entries = PairTable::new(alloc, most)?;
        Ok(Pairs {
            tables,
            entries,
            spares,
            hand,
        })
    }

    /// How many pairs are held.
    pub(crate) fn len(&self) -> usize
        ensures { result ≡ length self.now.entries }
    {
        self.entries.len()
    }
}
