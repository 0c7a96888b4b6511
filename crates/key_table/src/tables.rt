//! The tables of all nodes.
ghost use Rattle.std.specs.Prelude.{◌≡◌, ◌≤◌, ◌-◌, ◌∷◌, [], length, slice_index_or, option_map, IfOk, false};
ghost use Rattle.std.specs.List.{find};
ghost use Rattle.book_segments.specs.Sockets.{same_address};
ghost use Rattle.book_keys.specs.Rows.{Table as Sheet, has_address, node_limit, row_limit};
ghost use Rattle.book_keys.specs.MasterKeys.{IsMasterKey};
ghost use Rattle.book_keys.specs.Plans.{rows_at};
ghost use Rattle.book_keys.specs.Shared.{shared_row, shared_tables};
ghost use Rattle.std.specs.Borrow.{sem};
ghost use Rattle.std.specs.Option.{option_copied_mut};
ghost use Rattle.std.specs.Prelude.{slice_get};
ghost use Rattle.key_table.specs.Loans.{LendsAt, place_of};

use crate::master_key::MasterKey;
use crate::row::{Row, see_columns};
use crate::table::Table;
use ao_base::is_same_address;
use book_base::{Address, Algorithm};
use book_keys::{Direction, LATEST, Lifetime};
use std::alloc::{AllocError, Global};
use std::marker::Model;

/// The nodes of a key file in its order, at most 16, each with its table.
#[derive(Drop)]
pub struct Tables {
    pub(crate) items: Vec<Table>,
}

impl Model for Tables {
    ghost use Rattle.std.specs.Prelude.{◌≤◌, length, List};
    ghost use Rattle.book_keys.specs.Rows.{Table as Sheet, node_limit};

    ghost Value = { List Sheet };

    ghost view = { λ t. t.items.items };

    ghost invariant = { λ t. length t.items.items ≤ node_limit };
}

fn shared_row(alloc: Global, algorithm: Algorithm, master: MasterKey) -> Result<Row, AllocError>
    ensures { IfOk result (λ r. r ≡ shared_row algorithm master.bytes.items) }
{
    let mut peers = Vec::new(alloc);
    peers.push(None)?;
    let always = Lifetime {
        first: 0,
        last: LATEST,
    };
    Ok(Row {
        recv_id: 0,
        send_id: 0,
        peers,
        local_port: None,
        peer_port: None,
        algorithm,
        master,
        with_options: true,
        direction: Direction::Both,
        sending: always,
        accepting: always,
    })
}

fn table_of(alloc: Global, name: &[u8], address: Address, row: Row) -> Result<Table, AllocError>
    ensures { IfOk result (λ t. t ≡ record { name = name.now; address = address; rows = row ∷ [] }) }
{
    let mut rows = Vec::new(alloc);
    see_columns(&row);
    rows.push(row)?;
    Ok(Table {
        name: Vec::from_slice(alloc, name)?,
        address,
        rows,
    })
}

impl Tables {
    /// The tables of two nodes `a` and `b` that share one master key: each has one row with ids 0,
    /// any peer, any port, direction both and all times, with options.
    pub fn shared(
        alloc: Global,
        a: Address,
        b: Address,
        algorithm: Algorithm,
        master: &[u8],
    ) -> Result<Tables, AllocError>
        requires differ { same_address a b ≡ false }
        requires key { IsMasterKey master.now }
        ensures { IfOk result (λ t. t ≡ shared_tables a b algorithm master.now) }
    {
        let mut items = Vec::new(alloc);
        let bytes = Vec::from_slice(alloc, master)?;
        let row = shared_row(alloc, algorithm, MasterKey { bytes })?;
        items.push(table_of(alloc, b"a", a, row)?)?;
        let bytes = Vec::from_slice(alloc, master)?;
        let row = shared_row(alloc, algorithm, MasterKey { bytes })?;
        items.push(table_of(alloc, b"b", b, row)?)?;
        Ok(Tables { items })
    }

    /// The table of the node with this address. `None` exactly where no node has it.
    pub fn table(&self, address: &Address) -> Option<&Table>
        ensures { option_map (λ t. t.now) result ≡ find (has_address address.now) self.now }
    {
        for table in &self.items {
            if is_same_address(&table.address(), address) {
                return Some(table);
            }
        }
        None
    }

    /// The rows of the node with this address; none where no node has it.
    pub fn rows_at(&self, address: &Address) -> &[Row]
        ensures value { result.now ≡ rows_at self.now address.now }
        ensures limit { length result.now ≤ row_limit }
    {
        match self.table(address) {
            Some(table) => {
                // It tells that a table has no more rows.
                let _count = table.rows();
                table.entries()
            }
            None => &[],
        }
    }

    /// The place of the first node with this address, from 0; the number of nodes where there is none.
    fn place(&self, address: &Address) -> usize
        ensures { result ≡ place_of address.now self.now }
    {
        for (i, table) in self.items.iter().enumerate() {
            if is_same_address(&table.address(), address) {
                return i;
            }
        }
        self.items.len()
    }

    /// The table at a place, for changes.
    fn at_mut(&mut self, at: usize) -> Option<&mut Table>
        ensures* writes { sem 𝓛 (LendsAt self.entry at result) }
        ensures table { option_copied_mut result ≡ slice_get self.old at }
    {
        self.items.get_mut(at)
    }

    /// The table of the node with this address, for changes. `None` exactly where no node has it.
    /// What is written through it changes this table alone.
    #[tactic(auto, using(crate::proofs::ChangeLaws::found_at))]
    pub fn table_mut(&mut self, address: &Address) -> Option<&mut Table>
        ensures* writes { sem 𝓛 (LendsAt self.entry (place_of address.now self.old) result) }
        ensures table { option_copied_mut result ≡ find (has_address address.now) self.old }
    {
        let at = self.place(address);
        self.at_mut(at)
    }

    /// How many nodes there are, at most 16.
    pub fn nodes(&self) -> u8
        ensures value { result ≡ length self.now }
        ensures limit { result ≤ node_limit }
    {
        self.items.len() as u8
    }

    /// The table of the node of that number, from 1.
    pub fn node(&self, n: u8) -> &Table
        requires low { 1 ≤ n }
        requires high { n ≤ length self.now }
        ensures { (d : Sheet) → result.now ≡ slice_index_or self.now (n - 1) d }
    {
        &self.items[n as usize - 1]
    }
}
