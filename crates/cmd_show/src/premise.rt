//! What the judgement promises of a rollover.
ghost use Rattle.std.specs.Prelude.{◌≡◌, ◌↔◌, ℕ, List};
ghost use Rattle.book_base.specs.declared.address.Pair.{Pair};
ghost use Rattle.book_keys.specs.declared.lint.LintAnswer.TheVariants as answer;
ghost use Rattle.book_keys.specs.Plans.{lint_of, rows_at};
ghost use Rattle.book_keys.specs.Rows.{Table};
ghost use Rattle.cmd_show.specs.CarriesThrough.{CarriesThrough};

/// The judgement is `Aligned` exactly where each end's rows are aligned with the other end's, with
/// this lead and lag, and at each time of the range each end has a sendable row.
///
/// So an operator who sees it has what the laws of every run ask of the two tables, where no row is
/// added or withdrawn: a segment that was made at the maker's reading t finds a row with its key
/// where the receiver's reading is from t - lead to t + lag (`rolls_over`), and at each reading of
/// the range an end has a row to send with (`never_keyless`).
pub fn aligned_carries_through()
    ensures { (tables : List Table) (pair : Pair) (lead lag low high : ℕ) →
        (lint_of tables pair (record { lead = lead; lag = lag; from = low; to = high }) ≡ answer.Aligned)
        ↔ CarriesThrough (rows_at tables pair.local.address) (rows_at tables pair.remote.address) pair lead lag low
        high }
{}
