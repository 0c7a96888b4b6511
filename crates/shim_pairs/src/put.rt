//! A pair comes about.
ghost use Rattle.std.specs.Prelude.{◌≡◌, ◌⊎◌, ◌+◌, ◌<◌, ◌≤◌, ℕ, Some, None, length};
ghost use Rattle.book_base.specs.declared.address.Pair.{Pair as OnePair};
ghost use Rattle.pair_table.specs.Listings.{of_entries};
ghost use Rattle.shim_pairs.specs.Holdings.{AllHaveRoom, HaveRoom, found, going, with_another, without};
ghost use Rattle.shim_pairs.specs.declared.entry.Entry.{Entry as OneEntry};

use crate::eldest::eldest;
use crate::entry::Entry;
use ao_shim::Guard;
use book_base::Pair;
use pair_table::PairTable;
use std::mem;

/// A guard that no pair has any more. Where each has a pair, the one of which nothing passed for longest goes.
fn free_one(entries: &mut PairTable<Entry>, spares: &mut Vec<Guard>) -> Guard
    requires count { length entries.old.entries + length spares.old.items ≡ entries.old.most }
    requires some { 1 ≤ entries.old.most }
    ensures entries { entries.new
        ≡ of_entries entries.old (without (going entries.old.most entries.old.entries) entries.old.entries) }
    ensures count { length entries.new.entries + length spares.new.items + 1 ≡ entries.old.most }
    ensures spares { (rows : ℕ) → HaveRoom rows spares.old.items → HaveRoom rows spares.new.items }
    ensures guard { (rows : ℕ) → HaveRoom rows spares.old.items → AllHaveRoom rows entries.old.entries
        → result.keys.rows ≡ rows }
{
    match spares.pop() {
        Some(guard) => guard,
        None => {
            let gone = eldest(entries).unwrap();
            let Entry { guard, last: _ } = entries.remove(&gone).unwrap();
            guard
        }
    }
}

/// The guard at hand is held for a pair of which nothing is, and another one comes to hand. Where as many
/// pairs are held as there may be, one goes.
pub(crate) fn put(
    entries: &mut PairTable<Entry>,
    spares: &mut Vec<Guard>,
    hand: &mut Guard,
    pair: &Pair,
    last: u64,
)
    requires other { found pair.now entries.old.entries ≡ None }
    requires count { length entries.old.entries + length spares.old.items ≡ entries.old.most }
    requires some { 1 ≤ entries.old.most }
    ensures put { entries.new.entries ≡ with_another entries.old.most entries.old.entries pair.now
        (record { guard = hand.old; last = last }) }
    ensures each { (q : OnePair) (e : OneEntry) → found q entries.new.entries ≡ Some e
        → ((q ≡ pair.now) × (e ≡ record { guard = hand.old; last = last })) ⊎ (found q entries.old.entries ≡ Some e) }
    ensures most { entries.new.most ≡ entries.old.most }
    ensures count { length entries.new.entries + length spares.new.items ≡ entries.new.most }
    ensures spares { (rows : ℕ) → HaveRoom rows spares.old.items → HaveRoom rows spares.new.items }
    ensures hand { (rows : ℕ) → HaveRoom rows spares.old.items → AllHaveRoom rows entries.old.entries
        → hand.new.keys.rows ≡ rows }
{
    // It tells that the pairs are in order.
    let _held = entries.len();
    let other = free_one(entries, spares);
    let guard = mem::replace(hand, other);
    entries.insert(*pair, Entry { guard, last });
}
