//! The table of a node, and its look-ups.
ghost use Rattle.std.specs.Prelude.{◌≡◌, ◌≤◌, ◌-◌, [], length, slice_index_or, option_map, is_some};
ghost use Rattle.std.specs.List.{AllByRecursion};
ghost use Rattle.book_keys.specs.Rows.{Row as Entry, row_limit, sendable};
ghost use Rattle.book_keys.specs.Coordination.{numbered};
ghost use Rattle.book_keys.specs.Lookups.{number_of, accept_of};
ghost use Rattle.book_keys.specs.Tables.{IsNewRow, adding, withdrawn, row_of_new, Addition, Withdrawn};
ghost use Rattle.book_keys.specs.Choices.{latest, lowest, later, send_row, next_row, named_send, has_id};
ghost use Rattle.key_table.specs.Ranges.{FitsColumns};
ghost use Rattle.key_table.specs.Wants.{usable, usable_as, wanted_start};
ghost use Rattle.key_table.specs.Seen.{seen};

use crate::new_row::{disable, overlapping, row_of_new};
use crate::row::{Row, see_columns};
use crate::want::Want;
use book_base::{Address, Pair};
use book_keys::{Accept, AddRefusal, NewRow, NoRow, ROW_LIMIT};
use std::alloc::Global;
use std::marker::Model;

/// The keys of a node (RFC 7210): its name, its address and its rows, at most 64, numbered from 1.
#[derive(Drop)]
pub struct Table {
    pub(crate) name: Vec<u8>,
    pub(crate) address: Address,
    pub(crate) rows: Vec<Row>,
}

impl Model for Table {
    ghost use Rattle.std.specs.Prelude.{◌≤◌, length};
    ghost use Rattle.std.specs.List.{AllByRecursion};
    ghost use Rattle.book_keys.specs.Rows.{Table as Sheet, row_limit};
    ghost use Rattle.key_table.specs.Ranges.{FitsColumns};

    ghost Value = { Sheet };

    ghost view = { λ t. record { name = t.name.items; address = t.address; rows = t.rows.items } };

    ghost invariant = { λ t. (length t.rows.items ≤ row_limit) × AllByRecursion FitsColumns t.rows.items };
}

/// A row with its number.
#[derive(Clone, Copy)]
struct Numbered<'a> {
    number: u8,
    row: &'a Row,
}

/// The one with the later start; the first where they are equal.
fn later<'a>(want: Want, one: Option<Numbered<'a>>, two: Numbered<'a>) -> Numbered<'a>
    ensures { Some (seen result) ≡ later (wanted_start want) (option_map seen one.entry) (Some (seen two.entry)) }
{
    match one {
        Some(one) => {
            if one.row.lifetime(want).first < two.row.lifetime(want).first {
                two
            } else {
                one
            }
        }
        None => two,
    }
}

/// The usable row with the greatest start.
fn latest(rows: &[Row], want: Want, pair: &Pair, now: u64) -> Option<u8>
    requires { length rows.now ≤ row_limit }
    ensures { result ≡ number_of (latest (usable want pair.now now) (wanted_start want) 1 rows.now) }
{
    let mut found: Option<Numbered> = None;
    for (i, row) in rows.iter().enumerate() {
        if row.is_usable(want, pair, now) {
            found = Some(later(
                want,
                found,
                Numbered {
                    number: (i + 1) as u8,
                    row,
                },
            ));
        }
    }
    found.map(|one| one.number)
}

/// The lowest row that is usable under the id.
fn lowest(rows: &[Row], want: Want, pair: &Pair, id: u8, now: u64) -> Option<u8>
    requires { length rows.now ≤ row_limit }
    ensures { result ≡ number_of (lowest (usable_as want pair.now id now) 1 rows.now) }
{
    for (i, row) in rows.iter().enumerate() {
        if row.is_usable_as(want, pair, id, now) {
            return Some((i + 1) as u8);
        }
    }
    None
}

fn has_id(rows: &[Row], pair: &Pair, id: u8) -> bool
    ensures { result ≡ has_id rows.now pair.now id }
{
    rows.iter().any(|row| row.is_accepting_as(pair, id))
}

impl Table {
    /// A table without name and rows; it takes no memory.
    pub fn empty(alloc: Global, address: Address) -> Table
        ensures { result ≡ record { name = []; address = address; rows = [] } }
    {
        Table {
            name: Vec::new(alloc),
            address,
            rows: Vec::new(alloc),
        }
    }

    /// The name of the node, none for an empty table.
    pub fn name(&self) -> &[u8]
        ensures { result.now ≡ self.now.name }
    {
        self.name.as_slice()
    }

    /// The address of the node.
    pub fn address(&self) -> Address
        ensures { result ≡ self.now.address }
    {
        self.address
    }

    /// How many rows there are, at most 64.
    pub fn rows(&self) -> u8
        ensures value { result ≡ length self.now.rows }
        ensures limit { result ≤ row_limit }
    {
        self.rows.len() as u8
    }

    /// The rows in their order, row 1 first; their columns fit their places.
    pub fn entries(&self) -> &[Row]
        ensures value { result.now ≡ self.now.rows }
        ensures fit { AllByRecursion FitsColumns self.now.rows }
    {
        self.rows.as_slice()
    }

    /// The row of that number, from 1.
    pub fn row(&self, n: u8) -> &Row
        requires low { 1 ≤ n }
        requires high { n ≤ length self.now.rows }
        ensures { (d : Entry) → result.now ≡ slice_index_or self.now.rows (n - 1) d }
    {
        &self.rows[n as usize - 1]
    }

    /// Whether there is a row of that number and it is sendable for the pair at the time (RFC 7210,
    /// section 3).
    pub fn is_sendable(&self, n: u8, pair: &Pair, now: u64) -> bool
        ensures { result ≡ is_some (numbered (sendable pair.now now) 1 n self.now.rows) }
    {
        if n == 0 || n as usize > self.rows.len() {
            return false;
        }
        self.rows[n as usize - 1].is_usable(Want::Send, pair, now)
    }

    /// Adds a row behind the last one, for any peer and any ports, and gives its number. `TooMany`
    /// exactly where there are 64 rows; else `Overlap` exactly where a row overlaps the new one, with
    /// the least such. After a refusal the table is as it was; other rows stay. No lifetime ends before
    /// it begins or after `LATEST`.
    #[tactic(auto, unfolding(book_keys::specs::Tables::adding))]
    pub fn add(&mut self, alloc: Global, row: NewRow) -> Result<u8, AddRefusal>
        requires row { IsNewRow row }
        ensures { Addition self.old self.new result (adding self.old.rows (row_of_new row)) }
    {
        if self.rows.len() >= ROW_LIMIT {
            return Err(AddRefusal::TooMany);
        }
        let row = row_of_new(alloc, row)?;
        see_columns(&row);
        match overlapping(self.rows.as_slice(), &row) {
            Some(n) => Err(AddRefusal::Overlap(n)),
            None => {
                self.rows.push(row)?;
                Ok(self.rows.len() as u8)
            }
        }
    }

    /// Takes row `n` out of use: it keeps its number, and neither sends nor accepts from now on. `NoRow`
    /// exactly where there is no row of that number; then the table is as it was. All else stays.
    pub fn withdraw(&mut self, n: u8) -> Result<(), NoRow>
        ensures { Withdrawn self.old self.new result (withdrawn self.old.rows n) }
    {
        if n == 0 || n as usize > self.rows.len() {
            return Err(NoRow);
        }
        disable(&mut self.rows[n as usize - 1]);
        Ok(())
    }

    /// The row that accepts what comes in for the pair under this KeyID at the time, in seconds
    /// since 1970. `Absent` exactly where no matching row of direction in or both has that RecvID,
    /// `Expired` where one has and none is acceptable now (RFC 5925, section 7.5).
    pub fn accept_row(&self, pair: &Pair, key_id: u8, now: u64) -> Accept
        ensures { result ≡ accept_of self.now.rows pair.now key_id now }
    {
        if !has_id(self.rows.as_slice(), pair, key_id) {
            return Accept::Absent;
        }
        match lowest(self.rows.as_slice(), Want::Accept, pair, key_id, now) {
            Some(n) => Accept::Row(n),
            None => Accept::Expired,
        }
    }

    /// The sendable row with the greatest send start, ties to the lowest row. `None` exactly where
    /// no row is sendable for the pair at the time (RFC 7210, section 3).
    pub fn send_row(&self, pair: &Pair, now: u64) -> Option<u8>
        ensures { result ≡ number_of (send_row self.now.rows pair.now now) }
    {
        latest(self.rows.as_slice(), Want::Send, pair, now)
    }

    /// The acceptable row with the greatest accept start, ties to the lowest row. `None` exactly
    /// where no row is acceptable for the pair at the time.
    pub fn next_row(&self, pair: &Pair, now: u64) -> Option<u8>
        ensures { result ≡ number_of (next_row self.now.rows pair.now now) }
    {
        latest(self.rows.as_slice(), Want::Accept, pair, now)
    }

    /// The sendable row with this SendID, ties to the lowest row. `None` exactly where no row with
    /// it is sendable for the pair at the time (RFC 5925, section 6.1).
    pub fn named_send(&self, pair: &Pair, id: u8, now: u64) -> Option<u8>
        ensures { result ≡ number_of (named_send self.now.rows pair.now id now) }
    {
        lowest(self.rows.as_slice(), Want::Send, pair, id, now)
    }
}
