//! Theorems about tables that change, about the choice of a row to send with, and about a planned
//! rollover, as clauses of functions that do nothing.
ghost use Rattle.std.specs.Prelude.{◌≡◌, ◌↔◌, ◌≤◌, ◌+◌, ℕ, true, false, List, Option, Some, None};
ghost use Rattle.std.specs.List.{AllByRecursion};
ghost use Rattle.book_base.specs.declared.address.Pair.{Pair};
ghost use Rattle.book_keys.specs.Choices.{send_row};
ghost use Rattle.book_keys.specs.Coordination.{Sending, choose};
ghost use Rattle.book_keys.specs.declared.lint.LintAnswer.TheVariants as answer;
ghost use Rattle.book_keys.specs.declared.plan.Plan.{Plan};
ghost use Rattle.book_keys.specs.Lifetimes.{greatest_time, is_covered};
ghost use Rattle.book_keys.specs.Overlaps.{IsValid};
ghost use Rattle.book_keys.specs.Plans.{mirrored, AlignedFrom, Aligned, IsFoundAt, first_misaligned, gap, IsGap};
ghost use Rattle.book_keys.specs.Plans.{has_sendable, send_lifetimes, lint_rows};
ghost use Rattle.book_keys.specs.Rows.{Row, sendable};
ghost use Rattle.book_keys.specs.Tables.{AddedAs, adding, withdrawn};

/// A valid table stays valid where a row is added to it or withdrawn from it.
pub fn tables_stay_valid()
    ensures added { (rows new : List Row) (r : Row) (n : ℕ) → adding rows r ≡ AddedAs n new → IsValid rows
        → IsValid new }
    ensures withdrawn { (rows new : List Row) (n : ℕ) → withdrawn rows n ≡ Some new → IsValid rows → IsValid new }
{}

/// The row that is chosen to send with is sendable, and its SendID is the KeyID; where none is
/// chosen, no row is sendable. None is chosen exactly where none would be without a current row.
pub fn chosen_is_sendable()
    ensures some { (current : Option ℕ) (rows : List Row) (pair : Pair) (now : ℕ) (s : Sending)
        → choose current rows pair now ≡ Some s → (sendable pair now s.row ≡ true) × (s.key_id ≡ s.row.send_id) }
    ensures none { (current : Option ℕ) (rows : List Row) (pair : Pair) (now : ℕ) → choose current rows pair now ≡ None
        → has_sendable rows pair now ≡ false }
    ensures exactly { (current : Option ℕ) (rows : List Row) (pair : Pair) (now : ℕ)
        → (choose current rows pair now ≡ None) ↔ (send_row rows pair now ≡ None) }
{}

/// Where a sender's table is aligned to a receiver's, which is valid, what each row may send at the
/// time t is looked up under a row with the same key at each of the receiver's readings from t - lead
/// to t + lag.
pub fn found_where_aligned()
    ensures { (rows others : List Row) (pair : Pair) (lead lag t now : ℕ) → AlignedFrom rows others pair lead lag
        → IsValid others
        → t ≤ now + lead → now ≤ t + lag → now ≤ greatest_time
        → AllByRecursion (λ r. sendable pair t r ≡ true → IsFoundAt others pair now r) rows }
{}

/// No row is found that isn't met at the other end exactly where the tables are aligned.
pub fn unmet_rows_are_found()
    ensures { (a b : List Row) (pair : Pair) (lead lag : ℕ) → (first_misaligned a b pair lead lag ≡ None)
        ↔ Aligned a b pair lead lag }
{}

/// A gap is the least time of the range at which no row is sendable; there is none exactly where at
/// each time of the range some row is. A time is in a send lifetime of the rows that send for the
/// pair exactly where a row is sendable.
pub fn gap_is_least()
    ensures least { (rows : List Row) (pair : Pair) (low high : ℕ) (g : Option ℕ) → (gap rows pair low high ≡ g)
        ↔ IsGap rows pair low high g }
    ensures covered { (rows : List Row) (pair : Pair) (time : ℕ)
        → is_covered (send_lifetimes rows pair) time ≡ has_sendable rows pair time }
{}

/// The judgement on two tables is `Aligned` exactly where each is aligned to the other and neither
/// has a gap.
pub fn lint_is_aligned()
    ensures { (a b : List Row) (pair : Pair) (plan : Plan) → (lint_rows a b pair plan ≡ answer.Aligned)
        ↔ (Aligned a b pair plan.lead plan.lag × (gap a pair plan.from plan.to ≡ None)
        × (gap b (mirrored pair) plan.from plan.to ≡ None)) }
{}
