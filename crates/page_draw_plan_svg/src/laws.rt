//! Theorems about the pictures of plans, as clauses of functions that do nothing.
ghost use Rattle.std.specs.Prelude.{◌≡◌, ◌↔◌, ◌≤◌, ◌+◌, ◌++◌, ℕ, List, length, flat_map, true};
ghost use Rattle.book_base.specs.declared.address.Pair.{Pair};
ghost use Rattle.book_scope_plan.specs.declared.duty.Duty.{Duty as Doing};
ghost use Rattle.book_scope_plan.specs.declared.slice.Slice.{Slice as Part};
ghost use Rattle.book_scope_plan.specs.BarOrders.{is_doing};
ghost use Rattle.book_scope_plan.specs.Bars.{drawings_text, good_plans, is_seen, summary_line};
ghost use Rattle.book_scope_plan.specs.Slices.{slice_between};
ghost use Rattle.page_draw_plan_svg.specs.PlanLines.{drawings_lines, plan_line_text};
ghost use Rattle.page_draw_plan_svg.specs.Spans.{IsWithin, bar_span, finding_span, time_column};
ghost use Rattle.book_keys.specs.declared.plan.Plan.{Plan};
ghost use Rattle.book_keys.specs.Rows.{Row, Table};
ghost use Rattle.book_lines.specs.Said.{Said};
ghost use Rattle.book_plans.specs.declared.finding.Finding.{Finding};

/// The text of bars is that of the lines that a picture draws, one after another, below how many connections
/// there are: so a picture has the bars of the text in order, of the same rows and of what they do, and no other.
pub fn pictures_are_of_the_text()
    ensures { (tables : List Table) (plan : Plan) (said : List (Said Pair))
        → summary_line (length said) (good_plans tables plan said)
        ++ flat_map (plan_line_text plan) (drawings_lines tables plan said)
        ≡ drawings_text tables plan said }
{}

/// A mark shows exactly the seconds of the time that is drawn at which its finding is seen: at which the row that
/// isn't met may send, or which are of the gap.
pub fn marks_show_the_findings()
    ensures { (a b : Table) (pair : Pair) (time : Part) (f : Finding) (t : ℕ) → time.first ≤ t → t ≤ time.last
        → (is_seen a b pair (slice_between t t) f ≡ true) ↔ IsWithin (finding_span a b pair time f) t }
{}

/// A bar shows exactly the seconds of the time that is drawn in which its row does so; `is_doing` is
/// `acceptable` and `sendable` of the book of keys.
pub fn bars_show_the_rows()
    ensures { (pair : Pair) (duty : Doing) (r : Row) (time : Part) (t : ℕ) → time.first ≤ t → t ≤ time.last
        → (is_doing pair duty r t ≡ true) ↔ IsWithin (bar_span pair duty r time) t }
{}

/// The first second of a time begins at column 20, the last ends at column 780, and of two moments the
/// later one doesn't stand before the other.
pub fn columns_are_of_the_time()
    ensures first { (time : Part) → time_column time time.first ≡ 20 }
    ensures last { (time : Part) → time.first ≤ time.last → time_column time (time.last + 1) ≡ 780 }
    ensures order { (time : Part) (t u : ℕ) → t ≤ u → time_column time t ≤ time_column time u }
{}
