//! A map from pairs of sockets to values.
ghost use Rattle.std.specs.Prelude.{◌≡◌, ◌≤◌, ◌<◌, [], length, None, IfOk, option_map, slice_get};
ghost use Rattle.std.specs.Borrow.{sem};
ghost use Rattle.std.specs.BTreeMap.{is_at, insert_entry};
ghost use Rattle.std.specs.Map.{keys_of, lookup, remove_entry};
ghost use Rattle.std.specs.Option.{option_copied_mut};
ghost use Rattle.book_base.specs.Orders.{by_pair};
ghost use Rattle.pair_table.specs.Listings.{IsListing, of_entries};
ghost use Rattle.pair_table.specs.Loans.{LendsValue};
ghost use Rattle.pair_table.specs.Places.{gap_of, place_of};

use crate::search::search;
use book_base::Pair;
use std::alloc::{AllocError, Global};
use std::marker::Model;

/// A map from pairs of sockets to values, which takes all its memory when it is made. Seen as how many
/// pairs it holds at most, and the pairs with their values, in the order of pairs.
#[derive(Drop)]
pub struct PairTable<V> {
    most: usize,
    pairs: Vec<Pair>,
    values: Vec<V>,
}

impl<V> Model for PairTable<V> {
    ghost use Rattle.pair_table.specs.Listings.{Listing, listing_code};

    ghost Value = { Listing V };

    ghost coded = { listing_code V.code };

    ghost use Rattle.std.specs.Prelude.{vec_capacity};
    ghost use Rattle.std.specs.List.{zip};
    ghost use Rattle.pair_table.specs.Places.{Lies};

    ghost view = { λ t. record { most = t.most; entries = zip t.pairs.items t.values.items } };

    ghost invariant = { λ t. Lies t.most (vec_capacity t.pairs) (vec_capacity t.values) t.pairs.items t.values.items };
}

impl<V: Drop> PairTable<V> {
    /// A map that holds nothing, and at most `most` pairs, with all its memory; `AllocError` is want of
    /// memory.
    pub fn new(alloc: Global, most: usize) -> Result<PairTable<V>, AllocError>
        ensures { IfOk result (λ t. t ≡ record { most = most; entries = [] }) }
    {
        let pairs = Vec::with_capacity(alloc, most)?;
        let values = Vec::with_capacity(alloc, most)?;
        Ok(PairTable {
            most,
            pairs,
            values,
        })
    }

    /// How many pairs are held.
    pub fn len(&self) -> usize
        ensures value { result ≡ length self.now.entries }
        ensures sound { IsListing self.now }
    {
        self.pairs.len()
    }

    /// How many pairs are held at most.
    pub fn most(&self) -> usize
        ensures value { result ≡ self.now.most }
        ensures sound { IsListing self.now }
    {
        self.most
    }

    /// The pair at a place, from 0, in the order of pairs, with its value; none from their end on.
    pub fn at(&self, at: usize) -> Option<(&Pair, &V)>
        ensures { option_map (λ e. (e.0.now, e.1.now)) result ≡ slice_get self.now.entries at }
    {
        match self.pairs.get(at) {
            None => None,
            Some(pair) => match self.values.get(at) {
                None => None,
                Some(value) => Some((pair, value)),
            },
        }
    }

    /// The value of the pair, if it is held, found by a binary search.
    pub fn get(&self, pair: &Pair) -> Option<&V>
        ensures { option_map (λ v. v.now) result ≡ lookup (is_at (by_pair pair.now)) self.now.entries }
    {
        let at = self.place(pair);
        self.values.get(at)
    }

    /// The value of the pair, for changes, if it is held, found by a binary search.
    pub fn get_mut(&mut self, pair: &Pair) -> Option<&mut V>
        ensures* writes { sem 𝓛 (LendsValue V.row self.entry pair.now result) }
        ensures value { option_copied_mut result ≡ lookup (is_at (by_pair pair.now)) self.old.entries }
    {
        let at = self.place(pair);
        self.values.get_mut(at)
    }

    /// Holds another pair, for which there is room. The pairs after it move up by one place.
    pub fn insert(&mut self, pair: Pair, value: V)
        requires room { length self.old.entries < self.old.most }
        requires other { lookup (is_at (by_pair pair)) self.old.entries ≡ None }
        ensures { self.new ≡ of_entries self.old (insert_entry by_pair self.old.entries pair value) }
    {
        let at = self.gap(&pair);
        let _pairs = self.pairs.insert(at, pair);
        let _values = self.values.insert(at, value);
    }

    /// Gives the value of the pair, if it is held, and holds the pair no more. Those after it move down by
    /// one place.
    pub fn remove(&mut self, pair: &Pair) -> Option<V>
        ensures value { result ≡ lookup (is_at (by_pair pair.now)) self.old.entries }
        ensures removed { self.new ≡ of_entries self.old (remove_entry (is_at (by_pair pair.now)) self.old.entries) }
    {
        match search(&self.pairs, pair) {
            Err(_) => None,
            Ok(at) => {
                self.pairs.remove(at);
                Some(self.values.remove(at))
            }
        }
    }

    /// The place at which a pair that isn't held would stand.
    fn gap(&self, pair: &Pair) -> usize
        requires { lookup (is_at (by_pair pair.now)) self.now.entries ≡ None }
        ensures gap { result ≡ gap_of pair.now (keys_of self.now.entries) }
    {
        match search(&self.pairs, pair) {
            Ok(at) => at,
            Err(at) => at,
        }
    }

    /// The place of the pair, and that after the last one where it isn't held.
    fn place(&self, pair: &Pair) -> usize
        ensures place { result ≡ place_of (is_at (by_pair pair.now)) (keys_of self.now.entries) }
    {
        match search(&self.pairs, pair) {
            Ok(at) => at,
            Err(_) => self.pairs.len(),
        }
    }
}

#[cfg(test)]
mod tests {
    use super::PairTable;
    use book_base::{Address, Pair, Socket};
    use std::test::Fail;

    fn pair(port: u16) -> Pair {
        let local = Socket {
            port: 179,
            address: Address::V4([192, 0, 2, 1]),
        };
        let remote = Socket {
            port,
            address: Address::V4([192, 0, 2, 2]),
        };
        Pair { local, remote }
    }

    fn put(table: &mut PairTable<u16>, port: u16) {
        let other = pair(port);
        if table.len() < table.most() && table.get(&other).is_none() {
            table.insert(other, port);
        }
    }

    #[test]
    fn pairs_stand_in_order(rt: HostRuntime) -> Result<(), Fail> {
        let mut table = PairTable::new(rt.alloc(), 3)?;
        put(&mut table, 7);
        put(&mut table, 4);
        put(&mut table, 9);
        if let Some(value) = table.get_mut(&pair(4)) {
            *value = 5;
        }
        assert_eq!(rt; table.at(0), Some((&pair(4), &5)));
        assert_eq!(rt; table.remove(&pair(7)), Some(7));
        assert_eq!(rt; table.at(1), Some((&pair(9), &9)));
        assert_eq!(rt; table.at(2), None);
        Ok(())
    }
}
