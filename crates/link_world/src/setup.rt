//! What a link begins with.
ghost use Rattle.std.specs.Prelude.{◌≡◌, false};
ghost use Rattle.book_base.specs.declared.address.Address.{Address as Place};
ghost use Rattle.book_keys.specs.Plans.{rows_at};
ghost use Rattle.book_segments.specs.Sockets.{same_address};

use book_base::{Address, Socket};
use key_table::{Table, Tables};
use std::alloc::Global;

/// What a link begins with: the tables of all nodes, and the sockets of its two ends. An end whose
/// address no node has takes an empty table.
#[derive(Drop)]
pub struct Setup {
    pub tables: Tables,
    pub a: Socket,
    pub b: Socket,
}

/// Takes the table of the node with this address out of the tables; an empty one where no node has it.
pub(crate) fn take_table(alloc: Global, tables: &mut Tables, address: Address) -> Table
    ensures taken { result.rows ≡ rows_at tables.old address }
    ensures others { (other : Place) → same_address address other ≡ false
        → rows_at tables.new other ≡ rows_at tables.old other }
{
    match tables.table_mut(&address) {
        Some(table) => std::mem::replace(table, Table::empty(alloc, address)),
        None => Table::empty(alloc, address),
    }
}
