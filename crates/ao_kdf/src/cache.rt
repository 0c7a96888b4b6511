//! Traffic keys that are kept once they were derived.
ghost use Rattle.std.specs.Prelude.{◌≡◌, ◌+◌, ◌-◌, ◌<◌, ◌≤◌, ℕ, List, Option, Some, None, length, option_map};
ghost use Rattle.std.specs.Prelude.{replicate, slice_set, IfOk};
ghost use Rattle.book_macs.specs.Contexts.{bytes_of};
ghost use Rattle.book_macs.specs.Keys.{key_length, traffic_key};
ghost use Rattle.ao_kdf.specs.Cache.{empty, key_at, kept, keeping, IsRight, steps_for};

use crate::key::{TrafficKey, traffic_key};
use crate::way::Way;
use ao_base::Steps;
use book_base::Algorithm;
use book_macs::Context;
use std::alloc::{AllocError, Global};
use std::marker::Model;
use std::sync::ledger::Ledger;

/// The traffic keys of a connection, one for each row of a key table and each way, as far as they
/// were derived; seen as the number of rows and the keys of each way.
#[derive(Drop)]
pub struct KeyCache {
    rows: u8,
    inbound: Vec<Option<TrafficKey>>,
    outbound: Vec<Option<TrafficKey>>,
}

impl Model for KeyCache {
    ghost use Rattle.std.specs.Prelude.{◌≡◌, length};
    ghost use Rattle.ao_kdf.specs.Cache.{Cache};

    ghost Value = { Cache };

    ghost view = { λ c. record { rows = c.rows; inbound = c.inbound.items; outbound = c.outbound.items } };

    ghost invariant = { λ c. (length c.inbound.items ≡ c.rows) × (length c.outbound.items ≡ c.rows) };
}

/// Room for exactly so many keys, of which none is kept: a key that is ready has 300 bytes.
fn no_keys(alloc: Global, rows: u8) -> Result<Vec<Option<TrafficKey>>, AllocError>
    ensures { IfOk result (λ v. v.items ≡ replicate rows None) }
{
    let mut keys = Vec::with_capacity(alloc, usize::from(rows))?;
    for _row in 0..rows {
        keys.push(None)?;
    }
    Ok(keys)
}

/// Derives the key of a place and keeps it there, unless one is kept.
fn fill<L: Ledger>(
    keys: &mut Vec<Option<TrafficKey>>,
    at: usize,
    algorithm: Algorithm,
    master: &[u8],
    context: &Context,
    steps: &mut Steps<L>,
)
    requires at { at < length keys.old.items }
    requires right { IsRight (key_at keys.old.items at) (traffic_key algorithm master.now (bytes_of context.now)) }
    ensures keys { keys.new.items ≡ slice_set keys.old.items at
        (Some (traffic_key algorithm master.now (bytes_of context.now))) }
    ensures counted { steps.new ≡ steps.old + steps_for (key_at keys.old.items at) }
{
    if let Some(_key) = &keys[at] {
        return;
    }
    keys[at] = Some(traffic_key(algorithm, master, context, steps));
}

/// Drops the keys of all places.
fn drop_all(keys: &mut Vec<Option<TrafficKey>>)
    ensures { keys.new.items ≡ replicate (length keys.old.items) None }
{
    for at in 0..keys.len() {
        keys[at] = None;
    }
}

impl KeyCache {
    /// A cache for so many rows, in which no key is kept.
    pub fn new(alloc: Global, rows: u8) -> Result<KeyCache, AllocError>
        ensures { IfOk result (λ c. c ≡ empty rows) }
    {
        let inbound = no_keys(alloc, rows)?;
        let outbound = no_keys(alloc, rows)?;
        Ok(KeyCache {
            rows,
            inbound,
            outbound,
        })
    }

    /// Drops all keys that are kept; the room for them stays.
    pub fn forget(&mut self)
        ensures { self.new ≡ empty self.old.rows }
    {
        drop_all(&mut self.inbound);
        drop_all(&mut self.outbound);
    }

    /// Derives the traffic key of a row, from 1 to `rows`, for a way, and keeps it, unless one is kept
    /// for them: that of this master key and this context (RFC 5925, section 5.2). A key that is kept
    /// is that of these arguments; then no step is counted, else one. All other keys stay.
    pub fn keep<L: Ledger>(
        &mut self,
        row: u8,
        way: Way,
        alg: Algorithm,
        master: &[u8],
        context: &Context,
        steps: &mut Steps<L>,
    )
        requires low { 1 ≤ row }
        requires high { row ≤ self.old.rows }
        requires right { IsRight (kept self.old row way) (traffic_key alg master.now (bytes_of context.now)) }
        ensures keys { self.new ≡ keeping self.old row way (traffic_key alg master.now (bytes_of context.now)) }
        ensures kept { kept self.new row way ≡ Some (traffic_key alg master.now (bytes_of context.now)) }
        ensures counted { steps.new ≡ steps.old + steps_for (kept self.old row way) }
    {
        let at = row as usize - 1;
        match way {
            Way::Inbound => fill(&mut self.inbound, at, alg, master, context, steps),
            Way::Outbound => fill(&mut self.outbound, at, alg, master, context, steps),
        }
    }

    /// The traffic key of a row, from 1 to `rows`, for a way: of this master key and this context
    /// (RFC 5925, section 5.2). Where a key is kept for the row and the way, it is that of these
    /// arguments; a copy of it is given, and no step is counted. Else the key is derived and kept, and
    /// one step is counted. All other keys stay. Who needs the key for one MAC borrows it: `keep`,
    /// then `kept`.
    pub fn get<L: Ledger>(
        &mut self,
        row: u8,
        way: Way,
        alg: Algorithm,
        master: &[u8],
        context: &Context,
        steps: &mut Steps<L>,
    ) -> TrafficKey
        requires low { 1 ≤ row }
        requires high { row ≤ self.old.rows }
        requires right { IsRight (kept self.old row way) (traffic_key alg master.now (bytes_of context.now)) }
        ensures key { result ≡ traffic_key alg master.now (bytes_of context.now) }
        ensures length { length result ≡ key_length alg }
        ensures keys { self.new ≡ keeping self.old row way result }
        ensures kept { kept self.new row way ≡ Some result }
        ensures counted { steps.new ≡ steps.old + steps_for (kept self.old row way) }
    {
        self.keep(row, way, alg, master, context, steps);
        match self.kept(row, way) {
            Some(key) => key.copied(),
            None => unreachable!(),
        }
    }

    /// Lends the key that is kept for a row, from 1 to `rows`, and a way. `None` exactly where none is.
    pub fn kept(&self, row: u8, way: Way) -> Option<&TrafficKey>
        requires low { 1 ≤ row }
        requires high { row ≤ self.now.rows }
        ensures { option_map (λ k. k.now) result ≡ kept self.now row way }
    {
        let at = row as usize - 1;
        match way {
            Way::Inbound => self.inbound[at].as_ref(),
            Way::Outbound => self.outbound[at].as_ref(),
        }
    }
}
