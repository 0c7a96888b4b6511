//! What is saved of the pairs, and brought back.
ghost use Rattle.std.specs.Prelude.{◌≡◌, ◌≤◌, ◌^◌, OnOk, OnErr, IfErr, slice_get};
ghost use Rattle.shim_pairs.specs.Holdings.{IsRefused, current_by, restored, saved_at, saved_entry, sent_id};

use crate::entry::Entry;
use crate::pairs::Pairs;
use crate::put::put;
use ao_shim::followed;
use book_base::Pair;
use book_shim::Isns;
use key_table::{Table, Tables};

/// What is saved of a connection: its pair of sockets, both initial sequence numbers, the numbers after the
/// greatest that was sent and heard, and the KeyID of its current row, if it has one.
#[derive(Clone, Copy, Debug, PartialEq, Eq)]
pub struct Saved {
    pub pair: Pair,
    pub isns: Isns,
    pub sent: u64,
    pub heard: u64,
    pub key_id: Option<u8>,
}

/// Why a connection isn't brought back.
#[derive(Clone, Copy, Debug, PartialEq, Eq)]
pub enum RestoreRefusal {
    /// The pair is held.
    Held,
    /// No node has the own address.
    NoNode,
}

/// The KeyID of the row of this number.
fn sent_id(table: &Table, number: Option<u8>) -> Option<u8>
    ensures { result ≡ sent_id table.now.rows number }
{
    match number {
        None => None,
        Some(number) => {
            if number < 1 || number > table.rows() {
                None
            } else {
                Some(table.row(number).send_id())
            }
        }
    }
}

/// What is saved of an entry, if it has a connection.
fn saved_in(tables: &Tables, pair: &Pair, entry: &Entry) -> Option<Saved>
    ensures { result ≡ saved_entry tables.now pair.now entry.now }
{
    let kept = entry.guard.kept();
    let isns = kept.isns?;
    let key_id = match tables.table(&pair.local.address) {
        None => None,
        Some(table) => sent_id(table, kept.current),
    };
    Some(Saved {
        pair: *pair,
        isns,
        sent: kept.sent,
        heard: kept.heard,
        key_id,
    })
}

/// The row that sends under this KeyID now, where one is told and there is one.
fn current_by(table: &Table, pair: &Pair, key_id: Option<u8>, now: u64) -> Option<u8>
    ensures { result ≡ current_by table.now.rows pair.now key_id now }
{
    match key_id {
        None => None,
        Some(id) => followed(None, table, pair, id, now),
    }
}

impl Pairs {
    /// What is saved of the pair at this place, from 0, in the order of pairs; none where it has no connection.
    pub(crate) fn saved(&self, at: usize) -> Option<Saved>
        ensures { result ≡ saved_at self.now.tables (slice_get self.now.entries at) }
    {
        match self.entries.at(at) {
            None => None,
            Some((pair, entry)) => saved_in(&self.tables, pair, entry),
        }
    }

    /// Goes on at `now` with a connection that was saved.
    pub(crate) fn restore(&mut self, now: u64, saved: &Saved) -> Result<(), RestoreRefusal>
        requires sent { saved.now.sent ≤ 2 ^ 63 }
        requires heard { saved.now.heard ≤ 2 ^ 63 }
        ensures restored { OnOk result (self.new ≡ restored self.old now saved.now) }
        ensures refused { IsRefused self.old saved.now.pair result }
        ensures unchanged { OnErr result (self.new ≡ self.old) }
    {
        if self.entries.get(&saved.pair).is_some() {
            return Err(RestoreRefusal::Held);
        }
        let table = match self.tables.table(&saved.pair.local.address) {
            None => return Err(RestoreRefusal::NoNode),
            Some(table) => table,
        };
        let current = current_by(table, &saved.pair, saved.key_id, now);
        self.hand
            .resume(saved.pair, saved.isns, saved.sent, saved.heard, current);
        put(
            &mut self.entries,
            &mut self.spares,
            &mut self.hand,
            &saved.pair,
            0,
        );
        Ok(())
    }
}
