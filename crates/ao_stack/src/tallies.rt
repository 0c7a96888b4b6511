//! The tallies of all connections.
ghost use Rattle.std.specs.Prelude.{◌≡◌, [], true, Some, None, OnOk, OnErr, is_some, option_map};
ghost use Rattle.book_stack.specs.Counters.{no_tally};
ghost use Rattle.ao_stack.specs.Counts.{changed_by};
ghost use Rattle.ao_stack.specs.Tallies.{Becomes, tally_at};

use crate::counts::{Happened, changed, no_tally};
use book_base::Pair;
use book_stack::Tally;
use std::alloc::{AllocError, Global};
use std::collections::BTreeMap;
use std::marker::Model;

/// The tally of each connection, by the pair of its sockets.
#[derive(Drop)]
pub(crate) struct Tallies {
    items: BTreeMap<Pair, Tally>,
}

impl Model for Tallies {
    ghost use Rattle.ao_stack.specs.Tallies.{Tallying};

    ghost Value = { Tallying };

    ghost view = { λ t. record { entries = t.items.entries } };
}

impl Tallies {
    /// No tally.
    pub(crate) fn new(alloc: Global) -> Tallies
        ensures { result ≡ record { entries = [] } }
    {
        Tallies {
            items: BTreeMap::new(alloc),
        }
    }

    /// The tally of the pair.
    pub(crate) fn get(&self, pair: &Pair) -> Option<Tally>
        ensures { result ≡ tally_at self.now pair.now }
    {
        self.items.get(pair).copied()
    }

    /// The pair has a new tally. After want of memory nothing has changed.
    pub(crate) fn put(&mut self, pair: &Pair) -> Result<(), AllocError>
        ensures put { OnOk result (Becomes self.old self.new pair.now (Some no_tally)) }
        ensures unchanged { OnErr result (self.new ≡ self.old) }
    {
        match self.items.insert(*pair, no_tally()) {
            Ok(_) => Ok(()),
            Err(_) => Err(AllocError),
        }
    }

    /// The pair has no tally.
    pub(crate) fn remove(&mut self, pair: &Pair)
        ensures { Becomes self.old self.new pair.now None }
    {
        let _tally = self.items.remove(pair);
    }

    /// Something happened at the connection of the pair; nothing where it has no tally.
    pub(crate) fn change(&mut self, pair: &Pair, what: Happened)
        ensures { Becomes self.old self.new pair.now (option_map (changed_by what) (tally_at self.old pair.now)) }
    {
        match self.items.get_mut(pair) {
            None => {}
            Some(tally) => *tally = changed(*tally, what),
        }
    }

    /// The pair, which has a tally, has that one again that it had before, if it had one.
    pub(crate) fn put_back(&mut self, pair: &Pair, before: Option<Tally>)
        requires { is_some (tally_at self.old pair.now) ≡ true }
        ensures { Becomes self.old self.new pair.now before }
    {
        match before {
            None => self.remove(pair),
            Some(tally) => self.change(pair, Happened::Become(tally)),
        }
    }
}
