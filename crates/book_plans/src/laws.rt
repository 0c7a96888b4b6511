//! Theorems about the margins of a plan, as clauses of functions that do nothing.
ghost use Rattle.std.specs.Prelude.{◌≡◌, ◌↔◌, ◌+◌, ℕ, Bool, List, [], true, Ok};
ghost use Rattle.book_base.specs.declared.address.Address.{Address};
ghost use Rattle.book_base.specs.declared.address.Pair.{Pair};
ghost use Rattle.book_keys.specs.declared.lint.LintAnswer.TheVariants as answer;
ghost use Rattle.book_keys.specs.declared.plan.Plan.{Plan};
ghost use Rattle.book_keys.specs.Plans.{accepts_from, outlasts, lint_of, lint_rows, rows_at};
ghost use Rattle.book_keys.specs.Nodes.{tables_of};
ghost use Rattle.book_keys.specs.Rows.{Row, Table};
ghost use Rattle.std.specs.List.{All};
ghost use Rattle.book_plans.specs.Calendar.{Keeps, turns_after};
ghost use Rattle.book_plans.specs.Differences.{differences, is_alike};
ghost use Rattle.book_plans.specs.Findings.{AreLongest, failing_spans, findings, first_answer, wanted_accepting};
ghost use Rattle.book_plans.specs.Findings.{widened, accepting_in};
ghost use Rattle.book_plans.specs.Margins.{IsOrdered, AreOrdered, AlignedAtLead, AlignedAtLag, IsMargin};
ghost use Rattle.book_plans.specs.Margins.{lead_margin, lag_margin, lead_margin_of, lag_margin_of};
ghost use Rattle.book_plans.specs.Margins.{SaysAlignedAtLead, SaysAlignedAtLag};

/// Two tables are aligned exactly with the leads within the one margin, at the given lag, and with
/// the lags within the other, at the given lead: with none, with each, or with those up to a
/// greatest.
pub fn margins_are_greatest()
    ensures lead { (a b : List Row) (pair : Pair) (lag : ℕ) → AreOrdered a → AreOrdered b
        → IsMargin (AlignedAtLead a b pair lag) (lead_margin a b pair lag) }
    ensures lag { (a b : List Row) (pair : Pair) (lead : ℕ) → AreOrdered a → AreOrdered b
        → IsMargin (AlignedAtLag a b pair lead) (lag_margin a b pair lead) }
{}

/// Where the judgement on a connection is `Aligned`, it stays so exactly for the leads within the one
/// margin, with all else as it is, and exactly for the lags within the other.
pub fn lint_holds_within_margins()
    ensures lead { (tables : List Table) (pair : Pair) (plan : Plan)
        → AreOrdered (rows_at tables pair.local.address) → AreOrdered (rows_at tables pair.remote.address)
        → lint_of tables pair plan ≡ answer.Aligned
        → IsMargin (SaysAlignedAtLead tables pair plan) (lead_margin_of tables pair plan.lag) }
    ensures lag { (tables : List Table) (pair : Pair) (plan : Plan)
        → AreOrdered (rows_at tables pair.local.address) → AreOrdered (rows_at tables pair.remote.address)
        → lint_of tables pair plan ≡ answer.Aligned
        → IsMargin (SaysAlignedAtLag tables pair plan) (lag_margin_of tables pair plan.lead) }
{}

/// A row of the other end accepts what a row sends, at whatever time, exactly where it differs in no
/// column.
pub fn alike_rows_accept()
    ensures { (pair : Pair) (r other : Row) → is_alike (differences pair r other) ≡ accepts_from pair r other }
{}

/// There is no finding exactly where the judgement is `Aligned`, and of the findings the first is what
/// it says.
pub fn findings_are_of_lint()
    ensures first { (a b : List Row) (pair : Pair) (plan : Plan)
        → first_answer (findings a b pair plan) ≡ lint_rows a b pair plan }
    ensures none { (a b : List Row) (pair : Pair) (plan : Plan)
        → (findings a b pair plan ≡ []) ↔ (lint_rows a b pair plan ≡ answer.Aligned) }
{}

/// A row that accepts for as long as before, and as long as another row wants, accepts throughout what
/// that row sends.
pub fn widened_rows_outlast()
    ensures { (lead lag : ℕ) (r other : Row) → IsOrdered r → outlasts lead lag r
        (accepting_in (widened other.accepting (wanted_accepting lead lag r)) other) ≡ true }
{}

/// In each table of a key file without a fault no row ends sending before it begins, or after the last
/// time that a key file can write.
pub fn rows_of_files_are_ordered()
    ensures { (text : List ℕ) (tables : List Table) (address : Address) → tables_of text ≡ Ok tables
        → AreOrdered (rows_at tables address) }
{}

/// The spans of a number of times that fail a test are the longest, and none is left out: before each
/// and behind the last all times pass.
pub fn gaps_are_longest()
    ensures { (good : ℕ → Bool) (low n : ℕ) → AreLongest good low (low + n) (failing_spans good low n) }
{}

/// In a second in which no lifetime of a row begins or ends nothing turns.
pub fn steady_rows_dont_turn()
    ensures { (a b : List Row) (pair : Pair) (time : ℕ) → All (Keeps time) a → All (Keeps time) b
        → turns_after a b pair time ≡ [] }
{}
