//! A pair of sockets whose datagrams pass through.
ghost use Rattle.std.specs.Prelude.{◌≡◌, ◌≤◌, ◌^◌, List, length, IfOk};
ghost use Rattle.book_keys.specs.Rows.{Row};
ghost use Rattle.book_shim.specs.Keeping.{fresh as book_fresh};
ghost use Rattle.ao_kdf.specs.Cache.{empty};
ghost use Rattle.book_shim.specs.Saving.{resumed};
ghost use Rattle.ao_shim.specs.Guards.{Suits};

use crate::numbers::fresh;
use ao_kdf::KeyCache;
use book_base::Pair;
use book_shim::{Isns, Kept};
use std::alloc::{AllocError, Global};
use std::marker::Model;

/// A pair of sockets whose datagrams pass through: what is kept of it, and the traffic keys of the
/// connection in use that were derived.
#[derive(Drop)]
pub struct Guard {
    pub(crate) pair: Pair,
    pub(crate) kept: Kept,
    pub(crate) keys: KeyCache,
}

impl Model for Guard {
    ghost use Rattle.ao_shim.specs.Guards.{Held, AreLow};

    ghost Value = { Held };

    ghost view = { λ g. record { pair = g.pair; kept = g.kept; keys = g.keys } };

    ghost invariant = { λ g. AreLow g.kept };
}

impl Guard {
    /// A pair of which nothing was seen, the own socket being local, with room for the keys of `rows`
    /// rows, no fewer than the table has.
    #[tactic(auto, using(crate::proofs::KeptLaws::suits_empty))]
    pub fn new(alloc: Global, pair: Pair, rows: u8) -> Result<Guard, AllocError>
        ensures fresh { IfOk result (λ g. g ≡ record { pair = pair; kept = book_fresh; keys = empty rows }) }
        ensures suits { IfOk result (λ g. (table : List Row) → length table ≤ rows → Suits table g) }
    {
        let keys = KeyCache::new(alloc, rows)?;
        Ok(Guard {
            pair,
            kept: fresh(),
            keys,
        })
    }

    /// Begins with another pair, of which nothing was seen, in the same memory.
    #[tactic(auto, using(crate::proofs::KeptLaws::suits_empty))]
    pub fn begin(&mut self, pair: Pair)
        ensures fresh { self.new ≡ record { pair = pair; kept = book_fresh; keys = empty self.old.keys.rows } }
        ensures suits { (table : List Row) → length table ≤ self.old.keys.rows → Suits table self.new }
    {
        self.pair = pair;
        self.kept = fresh();
        self.keys.forget();
    }

    /// Goes on with another pair, in the same memory, whose connection in use is known by what was saved of
    /// it: both initial sequence numbers, and the numbers after the greatest that was sent and heard, at most
    /// 2^63; and the row that is current.
    #[tactic(auto, using(crate::proofs::KeptLaws::suits_empty))]
    pub fn resume(&mut self, pair: Pair, isns: Isns, sent: u64, heard: u64, current: Option<u8>)
        requires sent { sent ≤ 2 ^ 63 }
        requires heard { heard ≤ 2 ^ 63 }
        ensures resumed { self.new
            ≡ record { pair = pair; kept = resumed isns sent heard current; keys = empty self.old.keys.rows } }
        ensures suits { (table : List Row) → length table ≤ self.old.keys.rows → Suits table self.new }
    {
        self.pair = pair;
        self.kept = Kept {
            isns: Some(isns),
            settled: true,
            sent,
            heard,
            current,
            ..fresh()
        };
        self.keys.forget();
    }

    /// The pair of sockets.
    pub fn pair(&self) -> Pair
        ensures { result ≡ self.now.pair }
    {
        self.pair
    }

    /// What is kept.
    pub fn kept(&self) -> Kept
        ensures { result ≡ self.now.kept }
    {
        self.kept
    }

    /// Drops the traffic keys that were derived. Any other table with no more rows than there is room
    /// for suits the guard then.
    #[tactic(auto, using(crate::proofs::KeptLaws::suits_empty))]
    pub fn forget(&mut self)
        ensures forgotten { self.new ≡ record self.old { keys = empty self.old.keys.rows } }
        ensures suits { (table : List Row) → length table ≤ self.old.keys.rows → Suits table self.new }
    {
        self.keys.forget();
    }
}
