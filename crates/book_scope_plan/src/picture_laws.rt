//! Theorems about bars, as clauses of functions that do nothing.
ghost use Rattle.std.specs.Prelude.{◌≡◌, ◌↔◌, ◌≤◌, ◌<◌, ◌+◌, ℕ, List, [], ◌∷◌, Some, true, false, length, slice_get};
ghost use Rattle.book_base.specs.declared.end.End.TheVariants as end;
ghost use Rattle.book_base.specs.declared.address.Pair.{Pair};
ghost use Rattle.book_scope_plan.specs.declared.duty.Duty.{Duty as Doing};
ghost use Rattle.book_scope_plan.specs.declared.duty.Filling.TheVariants.{Never, Wholly};
ghost use Rattle.book_scope_plan.specs.BarOrders.{HasPart, bars_of, is_doing, row_filling, sending_bars, oneway_from};
ghost use Rattle.book_scope_plan.specs.Bars.{slice_mark};
ghost use Rattle.book_scope_plan.specs.Slices.{AreParts, most_slices, slices_of};
ghost use Rattle.book_scope_plan.specs.Wrongs.{PassesWithin, is_wrong_at};
ghost use Rattle.book_scope_plan.specs.declared.slice.Slice.{Slice as Part};
ghost use Rattle.book_keys.specs.declared.lint.LintAnswer.TheVariants as answer;
ghost use Rattle.book_keys.specs.declared.plan.Plan.{Plan};
ghost use Rattle.book_keys.specs.Plans.{lint_of};
ghost use Rattle.book_keys.specs.Rows.{Row, Table, row_limit};
ghost use Rattle.book_scope_plan.specs.PlanTexts.{node_with, plan_findings};

/// A slice of a bar is filled exactly where the row does this at every second of the slice, and blank
/// exactly where it does so at none; `is_doing` is `acceptable` and `sendable` of the book of keys.
pub fn bars_are_of_the_rows()
    ensures wholly { (pair : Pair) (duty : Doing) (r : Row) (s : Part) → s.first ≤ s.last
        → (row_filling pair duty r s ≡ Wholly)
        ↔ ((t : ℕ) → s.first ≤ t → t ≤ s.last → is_doing pair duty r t ≡ true) }
    ensures never { (pair : Pair) (duty : Doing) (r : Row) (s : Part)
        → (row_filling pair duty r s ≡ Never)
        ↔ ((t : ℕ) → s.first ≤ t → t ≤ s.last → is_doing pair duty r t ≡ false) }
{}

/// A connection between two nodes has at most 8,448 bars: for each way one for each of the 64 rows that may
/// send, each with one for each of the 64 that may accept, and once more one for each of these.
pub fn bars_are_few()
    ensures { (a b : Table) (pair : Pair) (plan : Plan) → length a.rows ≤ row_limit → length b.rows ≤ row_limit
        → length (bars_of a b pair plan) ≤ 8448 }
{}

/// What must be compared stands side by side: among the bars of a connection is, of each row of an end, the part
/// that `sending_bars` says: where the row may send in the time its bar, and right after it the bars of exactly the
/// rows of the other end that accept under its SendID at a time of it.
pub fn what_is_compared_is_together()
    ensures there { (a b : Table) (pair : Pair) (plan : Plan) (k : ℕ) (r : Row) → slice_get a.rows k ≡ Some r
        → HasPart (sending_bars (oneway_from end.A b.rows pair plan) (1 + k) r) (bars_of a b pair plan) }
    ensures back { (a b : Table) (pair : Pair) (plan : Plan) (k : ℕ) (r : Row) → slice_get b.rows k ≡ Some r
        → HasPart (sending_bars (oneway_from end.B a.rows pair plan) (1 + k) r) (bars_of a b pair plan) }
{}

/// The slices of a time follow one another from its first second to its last, each with a second of its
/// own, and there are at most 48; a time that ends before it begins has none.
pub fn slices_are_of_the_time()
    ensures parts { (low high : ℕ) → low ≤ high → AreParts low (high + 1) (slices_of low high) }
    ensures few { (low high : ℕ) → length (slices_of low high) ≤ most_slices }
    ensures none { (low high : ℕ) → high < low → slices_of low high ≡ [] }
{}

/// By the tables of a key file a slice of the time of a plan is marked, as `!`, exactly where at one of its
/// seconds one of the two ends has no row to send with, or may send with a row that isn't met at the other
/// end: no row there accepts it, or none for long enough. Where the judgement on the connection is `Aligned`
/// no slice is marked: each has a space.
pub fn marks_are_of_the_plan()
    ensures wrong { (tables : List Table) (plan : Plan) (pair : Pair) (a b : Table) (s : Part)
        → node_with tables pair.local.address ≡ Some a → node_with tables pair.remote.address ≡ Some b
        → plan.from ≤ s.first → s.first ≤ s.last → s.last ≤ plan.to
        → (slice_mark a b pair (plan_findings tables plan pair) s ≡ 33 ∷ [])
        ↔ PassesWithin (is_wrong_at a.rows b.rows pair plan) s }
    ensures aligned { (tables : List Table) (plan : Plan) (pair : Pair) (a b : Table) (s : Part)
        → lint_of tables pair plan ≡ answer.Aligned → slice_mark a b pair (plan_findings tables plan pair) s ≡ 32 ∷ [] }
{}
