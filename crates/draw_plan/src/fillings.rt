//! How a row fills a slice, by the first and the last second of its lifetimes.
ghost use Rattle.std.specs.Prelude.{◌≡◌};
ghost use Rattle.book_scope_plan.specs.declared.duty.Duty.TheVariants.{Accepts as accepts, Sends as sends_out};
ghost use Rattle.book_scope_plan.specs.BarOrders.{is_filled, row_filling};
ghost use Rattle.book_scope_plan.specs.Slices.{filled_by};
ghost use Rattle.draw_plan.specs.Lifetimes.{covers, overlaps};

use book_base::Pair;
use book_scope_plan::{Duty, Filling, Slice};
use key_table::{Lifetime, Row};

fn filled_by(some: bool, all: bool) -> Filling
    ensures { result ≡ filled_by some all }
{
    if some {
        if all {
            Filling::Wholly
        } else {
            Filling::Partly
        }
    } else {
        Filling::Never
    }
}

/// Whether they have a second in common.
fn overlaps(lifetime: &Lifetime, slice: &Slice) -> bool
    ensures { result ≡ overlaps lifetime.now slice.now }
{
    lifetime.first.max(slice.first) <= lifetime.last.min(slice.last)
}

/// Whether the slice is within the lifetime.
fn covers(lifetime: &Lifetime, slice: &Slice) -> bool
    ensures { result ≡ covers lifetime.now slice.now }
{
    lifetime.first <= slice.first && slice.last <= lifetime.last
}

#[tactic(auto, using(crate::proofs::LifetimeLaws::accepting_fills))]
fn accepting_filling(pair: &Pair, row: &Row, slice: &Slice) -> Filling
    ensures { result ≡ row_filling pair.now accepts row.now slice.now }
{
    let accepting = row.accepting();
    let some = row.matches(pair) && (row.direction().receives() && overlaps(&accepting, slice));
    filled_by(some, covers(&accepting, slice))
}

#[tactic(auto, using(crate::proofs::LifetimeLaws::sending_fills))]
fn sending_filling(pair: &Pair, row: &Row, slice: &Slice) -> Filling
    ensures { result ≡ row_filling pair.now sends_out row.now slice.now }
{
    let sending = row.sending();
    let some = row.matches(pair) && (row.direction().sends() && overlaps(&sending, slice));
    filled_by(some, covers(&sending, slice))
}

/// How what the row does fills the slice.
pub(crate) fn row_filling(pair: &Pair, duty: Duty, row: &Row, slice: &Slice) -> Filling
    ensures { result ≡ row_filling pair.now duty row.now slice.now }
{
    match duty {
        Duty::Accepts => accepting_filling(pair, row, slice),
        Duty::Sends => sending_filling(pair, row, slice),
    }
}

/// Whether something is filled at all.
pub(crate) fn is_filled(filling: Filling) -> bool
    ensures { result ≡ is_filled filling }
{
    !matches!(filling, Filling::Never)
}
