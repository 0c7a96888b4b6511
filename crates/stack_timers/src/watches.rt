//! The timers of all connections.
ghost use Rattle.std.specs.Prelude.{◌≡◌, [], OnOk, OnErr, option_map};
ghost use Rattle.std.specs.Borrow.{sem};
ghost use Rattle.std.specs.Option.{option_copied_mut};
ghost use Rattle.stack_timers.specs.Loans.{LendsWatch};
ghost use Rattle.stack_timers.specs.Timers.{KeepsNew, Drops, watch_at};

use crate::watch::Watch;
use book_base::Pair;
use std::alloc::{AllocError, Global};
use std::collections::BTreeMap;
use std::marker::Model;

/// A timer for each connection, by the pair of its sockets.
#[derive(Drop)]
pub struct Watches {
    items: BTreeMap<Pair, Watch>,
}

impl Model for Watches {
    ghost use Rattle.stack_timers.specs.Timers.{Timing};

    ghost Value = { Timing };

    ghost view = { λ w. record { entries = w.items.entries } };
}

impl Watches {
    /// No timer.
    pub fn new(alloc: Global) -> Watches
        ensures { result ≡ record { entries = [] } }
    {
        Watches {
            items: BTreeMap::new(alloc),
        }
    }

    /// The pair has a new timer. After want of memory nothing has changed.
    pub fn put(&mut self, pair: &Pair) -> Result<(), AllocError>
        ensures kept { OnOk result (KeepsNew self.old self.new pair.now) }
        ensures unchanged { OnErr result (self.new ≡ self.old) }
    {
        self.items.insert(*pair, Watch::new())?;
        Ok(())
    }

    /// The pair has no timer.
    pub fn remove(&mut self, pair: &Pair)
        ensures { Drops self.old self.new pair.now }
    {
        let _watch = self.items.remove(pair);
    }

    /// The timer of the pair.
    pub fn get(&self, pair: &Pair) -> Option<&Watch>
        ensures { option_map (λ w. w.now) result ≡ watch_at self.now pair.now }
    {
        self.items.get(pair)
    }

    /// The timer of the pair, for calls that change it.
    pub fn get_mut(&mut self, pair: &Pair) -> Option<&mut Watch>
        ensures* writes { sem 𝓛 (LendsWatch self.entry pair.now result) }
        ensures watch { option_copied_mut result ≡ watch_at self.old pair.now }
    {
        self.items.get_mut(pair)
    }
}
