//! The place of a pair among pairs in order.
ghost use Rattle.std.specs.Prelude.{◌≡◌, ◌<◌, length, IfOk, IfErr};
ghost use Rattle.std.specs.List.Sorted.{IsStrictlySortedBy};
ghost use Rattle.std.specs.BTreeMap.{is_at};
ghost use Rattle.book_base.specs.Orders.{by_pair};
ghost use Rattle.pair_table.specs.Places.{place_of, gap_of, IsAbsent};

use book_base::Pair;

/// The place of the pair; `Err` the place at which it would stand, exactly where it isn't there.
pub(crate) fn search(pairs: &[Pair], pair: &Pair) -> Result<usize, usize>
    requires { IsStrictlySortedBy by_pair pairs.now }
    ensures place { IfOk result (λ i. i ≡ place_of (is_at (by_pair pair.now)) pairs.now) }
    ensures within { IfOk result (λ i. i < length pairs.now) }
    ensures gap { IfErr result (λ i. i ≡ gap_of pair.now pairs.now) }
    ensures absent { IfErr result (λ i. IsAbsent pair.now pairs.now) }
{
    pairs.binary_search(pair)
}
