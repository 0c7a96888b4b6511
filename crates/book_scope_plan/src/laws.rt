//! Theorems about the texts of plans, as clauses of functions that do nothing.
ghost use Rattle.std.specs.Prelude.{◌≡◌, ◌↔◌, ◌≤◌, ◌++◌, ℕ, not, true, false, List, Some, is_some};
ghost use Rattle.book_base.specs.declared.address.Pair.{Pair};
ghost use Rattle.book_keys.specs.declared.plan.Plan.{Plan};
ghost use Rattle.book_keys.specs.declared.lint.LintAnswer.TheVariants as answer;
ghost use Rattle.book_keys.specs.Plans.{lint_of, mirrored, rows_at};
ghost use Rattle.book_keys.specs.Rows.{Table};
ghost use Rattle.book_plans.specs.Calendar.{calendar_of};
ghost use Rattle.book_plans.specs.Margins.{AreOrdered, IsMargin, SaysAlignedAtLead, SaysAlignedAtLag};
ghost use Rattle.book_plans.specs.Margins.{lead_margin_of, lag_margin_of};
ghost use Rattle.book_scope_plan.specs.AdminNames.{KeyFile};
ghost use Rattle.book_scope_plan.specs.CalendarTexts.{calendar_text};
ghost use Rattle.book_scope_plan.specs.FindingTexts.{text_if};
ghost use Rattle.book_scope_plan.specs.Notes.{notes_text};
ghost use Rattle.book_scope_plan.specs.PlanTexts.{IsNoOther, aligned_line, changes_key, connection_line};
ghost use Rattle.book_scope_plan.specs.PlanTexts.{connection_text, facing, is_good_plan, node_with, sent_at};
ghost use Rattle.book_scope_plan.specs.PlanTexts.{unchanged_line};

/// A plan is good exactly where both ends have nodes and the judgement on the connection is `Aligned`.
pub fn aligned_plans_are_of_lint()
    ensures { (tables : List Table) (plan : Plan) (pair : Pair)
        → (is_good_plan tables plan pair ≡ true)
        ↔ ((is_some (node_with tables pair.local.address) ≡ true)
        × (is_some (node_with tables pair.remote.address) ≡ true)
        × (lint_of tables pair plan ≡ answer.Aligned)) }
{}

/// Of a connection whose plan is good the text is its name, its calendar, the line that says it where no key changes,
/// the line that says `aligned` with the margins of lead and lag, and the notes; by the tables of a key file these
/// are greatest: with a lead within the one, and with a lag within the other, the judgement stays `Aligned`, and with
/// no more.
pub fn good_plans_say_aligned()
    ensures text { (keys : KeyFile) (plan : Plan) (pair : Pair) (a b : Table)
        → node_with keys.tables pair.local.address ≡ Some a → node_with keys.tables pair.remote.address ≡ Some b
        → is_good_plan keys.tables plan pair ≡ true
        → connection_text keys plan pair
        ≡ connection_line pair ++ (calendar_text a b (calendar_of keys.tables pair plan.from plan.to)
        ++ (text_if (not (changes_key keys.tables plan pair)) (unchanged_line plan)
        ++ (aligned_line (lead_margin_of keys.tables pair plan.lag) (lag_margin_of keys.tables pair plan.lead)
        ++ notes_text (facing keys a b plan pair)))) }
    ensures lead { (tables : List Table) (plan : Plan) (pair : Pair)
        → AreOrdered (rows_at tables pair.local.address) → AreOrdered (rows_at tables pair.remote.address)
        → is_good_plan tables plan pair ≡ true
        → IsMargin (SaysAlignedAtLead tables pair plan) (lead_margin_of tables pair plan.lag) }
    ensures lag { (tables : List Table) (plan : Plan) (pair : Pair)
        → AreOrdered (rows_at tables pair.local.address) → AreOrdered (rows_at tables pair.remote.address)
        → is_good_plan tables plan pair ≡ true
        → IsMargin (SaysAlignedAtLag tables pair plan) (lag_margin_of tables pair plan.lead) }
{}

/// Where it is said that no key changes, each end sends at each time from FROM to TO with the row with which it
/// sends at FROM, or has none to send with.
pub fn unchanged_keys_stay()
    ensures at_a { (tables : List Table) (plan : Plan) (pair : Pair) (time : ℕ)
        → changes_key tables plan pair ≡ false → plan.from ≤ time → time ≤ plan.to
        → IsNoOther (sent_at (rows_at tables pair.local.address) pair plan.from)
        (sent_at (rows_at tables pair.local.address) pair time) }
    ensures at_b { (tables : List Table) (plan : Plan) (pair : Pair) (time : ℕ)
        → changes_key tables plan pair ≡ false → plan.from ≤ time → time ≤ plan.to
        → IsNoOther (sent_at (rows_at tables pair.remote.address) (mirrored pair) plan.from)
        (sent_at (rows_at tables pair.remote.address) (mirrored pair) time) }
{}
