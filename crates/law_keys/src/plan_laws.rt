//! Theorems about the ways to mend a plan, as clauses of functions that do nothing.
ghost use Rattle.std.specs.Prelude.{◌≡◌, ◌≤◌, ◌<◌, ◌-◌, ℕ, true, List, [], ◌∷◌, None, Some};
ghost use Rattle.std.specs.List.{AllByRecursion, slice_get};
ghost use Rattle.book_base.specs.declared.address.Pair.{Pair};
ghost use Rattle.book_base.specs.declared.end.End.{End};
ghost use Rattle.book_base.specs.declared.end.End.TheVariants.{A, B};
ghost use Rattle.book_keys.specs.declared.lifetime.Lifetime.{Lifetime};
ghost use Rattle.book_keys.specs.declared.lint.LintAnswer.TheVariants as answer;
ghost use Rattle.book_keys.specs.declared.plan.Plan.{Plan};
ghost use Rattle.book_keys.specs.Lifetimes.{greatest_time};
ghost use Rattle.book_keys.specs.Overlaps.{IsValid};
ghost use Rattle.book_keys.specs.Plans.{accepts_from, lint_rows, mirrored};
ghost use Rattle.book_keys.specs.Rows.{Row};
ghost use Rattle.book_plans.specs.declared.finding.Finding.TheVariants as finding;
ghost use Rattle.book_plans.specs.Differences.{differences, is_alike};
ghost use Rattle.book_plans.specs.Findings.{accepting_in, findings};
ghost use Rattle.book_plans.specs.Margins.{IsOrdered};
ghost use Rattle.book_plans.specs.Ways.{accepting_obstacle, changed_row, fitting_accepting, fitting_sending};
ghost use Rattle.book_plans.specs.Ways.{sending_in, sending_obstacle};
ghost use Rattle.book_scope_plan.specs.CalendarTexts.{row_numbered};
ghost use Rattle.book_scope_plan.specs.FindingTexts.{Facing, facing_at};
ghost use Rattle.book_scope_plan.specs.Reconfiguring.{is_timeless, switch_span};
ghost use Rattle.book_scope_plan.specs.WayTexts.{longer_over, may_lengthen, may_shorten, sending_way};
ghost use Rattle.law_keys.specs.Own.{IsAligned, IsGapOrRow, IsMended, IsOfRow, changed_at, far_end, switched_at};

/// Where each finding on a plan is a gap of an end or on its row of one number, and nothing stands in the way of
/// another send lifetime of that row, then with that lifetime the end's table is valid, and the judgement is
/// `Aligned`.
pub fn sending_ways_mend()
    ensures at_a { (a b : List Row) (pair : Pair) (plan : Plan) (n : ℕ) (r : Row) (l : Lifetime)
        → 1 ≤ n → slice_get a (n - 1) ≡ Some r → IsValid a → AllByRecursion (IsGapOrRow A n) (findings a b pair plan)
        → sending_obstacle (record { rows = a; others = b; pair = pair; plan = plan }) n r l ≡ None
        → IsValid (changed_row (sending_in l) n 1 a) × (lint_rows (changed_row (sending_in l) n 1 a) b pair plan
        ≡ answer.Aligned) }
    ensures at_b { (a b : List Row) (pair : Pair) (plan : Plan) (n : ℕ) (r : Row) (l : Lifetime)
        → 1 ≤ n → slice_get b (n - 1) ≡ Some r → IsValid b → AllByRecursion (IsGapOrRow B n) (findings a b pair plan)
        → sending_obstacle (record { rows = b; others = a; pair = mirrored pair; plan = plan }) n r l ≡ None
        → IsValid (changed_row (sending_in l) n 1 b) × (lint_rows a (changed_row (sending_in l) n 1 b) pair plan
        ≡ answer.Aligned) }
{}

/// Where each finding on a plan is on one row of an end, and a row of the other end that takes what it sends has
/// nothing in the way of accepting for as long as is wanted of it, then with that accept lifetime the other end's
/// table is valid, and the judgement is `Aligned`.
pub fn accepting_ways_mend()
    ensures at_b { (a b : List Row) (pair : Pair) (plan : Plan) (n m : ℕ) (r o : Row)
        → 1 ≤ n → slice_get a (n - 1) ≡ Some r → IsOrdered r → 1 ≤ m → slice_get b (m - 1) ≡ Some o → IsValid b
        → AllByRecursion (IsOfRow A n) (findings a b pair plan) → accepts_from pair r o ≡ true
        → accepting_obstacle b m o (fitting_accepting plan.lead plan.lag r o) ≡ None
        → IsValid (changed_row (accepting_in (fitting_accepting plan.lead plan.lag r o)) m 1 b)
        × (lint_rows a (changed_row (accepting_in (fitting_accepting plan.lead plan.lag r o)) m 1 b) pair plan
        ≡ answer.Aligned) }
    ensures at_a { (a b : List Row) (pair : Pair) (plan : Plan) (n m : ℕ) (r o : Row)
        → 1 ≤ n → slice_get b (n - 1) ≡ Some r → IsOrdered r → 1 ≤ m → slice_get a (m - 1) ≡ Some o → IsValid a
        → AllByRecursion (IsOfRow B n) (findings a b pair plan) → accepts_from (mirrored pair) r o ≡ true
        → accepting_obstacle a m o (fitting_accepting plan.lead plan.lag r o) ≡ None
        → IsValid (changed_row (accepting_in (fitting_accepting plan.lead plan.lag r o)) m 1 a)
        × (lint_rows (changed_row (accepting_in (fitting_accepting plan.lead plan.lag r o)) m 1 a) b pair plan
        ≡ answer.Aligned) }
{}

/// Where a plan has one finding, the way out that the text of that finding calls `set` mends it: of a row that isn't
/// taken for long enough its shorter life to send, or the longer life to accept of a row that takes it; of a gap the
/// longer life to send of a row beside it. Then both tables are valid, and the judgement is `Aligned`.
pub fn told_ways_mend()
    ensures shorter { (f : Facing) (e : End) (n : ℕ) (r o : Row)
        → 1 ≤ n → row_numbered (facing_at e f).node.rows n ≡ Some r → IsValid f.node.rows → IsValid f.other.rows
        → findings f.node.rows f.other.rows f.pair f.plan ≡ finding.ShortAccept e n ∷ []
        → may_shorten (facing_at e f) (record { number = n; row = r }) o ≡ true
        → IsMended (changed_at e (sending_in (fitting_sending f.plan.lead f.plan.lag r o)) n f) }
    ensures longer { (f : Facing) (e : End) (n k : ℕ) (r o : Row)
        → 1 ≤ n → row_numbered (facing_at e f).node.rows n ≡ Some r → IsOrdered r
        → 1 ≤ k → row_numbered (facing_at e f).other.rows k ≡ Some o → IsValid f.node.rows → IsValid f.other.rows
        → findings f.node.rows f.other.rows f.pair f.plan ≡ finding.ShortAccept e n ∷ []
        → is_alike (differences (facing_at e f).pair r o) ≡ true
        → may_lengthen (facing_at e f) (record { number = n; row = r }) k o ≡ true
        → IsMended (changed_at (far_end e) (accepting_in (fitting_accepting f.plan.lead f.plan.lag r o)) k f) }
    ensures over_gap { (f : Facing) (e : End) (n first last : ℕ) (r : Row) (l : Lifetime)
        → 1 ≤ n → row_numbered (facing_at e f).node.rows n ≡ Some r → IsValid f.node.rows → IsValid f.other.rows
        → findings f.node.rows f.other.rows f.pair f.plan ≡ finding.Gap e first last ∷ []
        → longer_over (facing_at e f) (record { first = first; last = last }) r ≡ Some l
        → sending_way (facing_at e f) n r l ≡ None
        → IsMended (changed_at e (sending_in l) n f) }
{}

/// Where a plan has no finding but that two rows of an end, which have no lifetimes, aren't taken for long enough,
/// then at each of the times between which the text says to reconfigure that end from one of them to the other, the
/// judgement is `Aligned` where the end sends with the one from FROM until that time, and from then on until TO with
/// the other.
pub fn reconfigured_ends_are_aligned()
    ensures there { (f : Facing) (e : End) (n m time : ℕ) (r o : Row) (s : Lifetime)
        → 1 ≤ n → n < m → f.plan.to ≤ greatest_time
        → findings f.node.rows f.other.rows f.pair f.plan ≡ finding.ShortAccept e n ∷ finding.ShortAccept e m ∷ []
        → row_numbered (facing_at e f).node.rows n ≡ Some r → row_numbered (facing_at e f).node.rows m ≡ Some o
        → is_timeless (facing_at e f).pair r ≡ true → is_timeless (facing_at e f).pair o ≡ true
        → switch_span (facing_at e f) r o ≡ Some s → s.first ≤ time → time ≤ s.last
        → IsAligned (switched_at e n m time f) }
    ensures back { (f : Facing) (e : End) (n m time : ℕ) (r o : Row) (s : Lifetime)
        → 1 ≤ n → n < m → f.plan.to ≤ greatest_time
        → findings f.node.rows f.other.rows f.pair f.plan ≡ finding.ShortAccept e n ∷ finding.ShortAccept e m ∷ []
        → row_numbered (facing_at e f).node.rows n ≡ Some r → row_numbered (facing_at e f).node.rows m ≡ Some o
        → is_timeless (facing_at e f).pair r ≡ true → is_timeless (facing_at e f).pair o ≡ true
        → switch_span (facing_at e f) o r ≡ Some s → s.first ≤ time → time ≤ s.last
        → IsAligned (switched_at e m n time f) }
{}
