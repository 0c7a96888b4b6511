//! The judgement on the tables of the two ends of a connection.
ghost use Rattle.std.specs.Prelude.{◌≡◌, ◌↔◌};
ghost use Rattle.book_keys.specs.declared.lint.LintAnswer.TheVariants as answer;
ghost use Rattle.book_keys.specs.Plans.{lint_of, rows_at};
ghost use Rattle.cmd_show.specs.CarriesThrough.{CarriesThrough};

use crate::gap::gap;
use crate::way::Way;
use book_base::{End, Pair};
use book_keys::LintAnswer;
use key_table::Tables;

/// The judgement: the first row that isn't met, of A and then of B, before a gap of A and then of B.
#[tactic(auto, unfolding(book_keys::specs::Plans::lint_rows, book_keys::specs::Plans::first_misaligned))]
fn judge(tables: &Tables, pair: &Pair, lead: u64, lag: u64, from: u64, to: u64) -> LintAnswer
    ensures { result ≡ lint_of tables.now pair.now (record { lead = lead; lag = lag; from = from; to = to }) }
{
    let there = Way {
        rows: tables.rows_at(&pair.local.address),
        others: tables.rows_at(&pair.remote.address),
        pair: *pair,
        lead,
        lag,
    };
    let back = there.back();
    if let Some(answer) = there.first_unmet(End::A) {
        return answer;
    }
    if let Some(answer) = back.first_unmet(End::B) {
        return answer;
    }
    if let Some(time) = gap(there.rows, &there.pair, from, to) {
        return LintAnswer::Gap(End::A, time);
    }
    if let Some(time) = gap(back.rows, &back.pair, from, to) {
        return LintAnswer::Gap(End::B, time);
    }
    LintAnswer::Aligned
}

/// Judges the tables of the two ends of a connection; end A is the local one. An address that no node
/// has stands for a table without rows.
///
/// First each row that sends over the connection, those of A in order and then those of B:
/// `NoPeerRow` exactly where no matching row for what comes in at the other end has this row's SendID
/// as RecvID and the same key, algorithm and option flag (RFC 5925, section 3.1); `ShortAccept` exactly
/// where there is one and none of them accepts both `lead` seconds before the first second in which
/// this row sends, or at 0, and `lag` seconds after the last, or at `LATEST`. Then `Gap` exactly where
/// at some time from `from` to `to`, in seconds since 1970, an end has no sendable row (RFC 7210,
/// section 3): the least such time, of A if it has one. Else `Aligned`: exactly where the tables carry
/// a rollover through, the premise of the laws that no segment is refused for its key and that an end
/// always has one.
pub fn lint(tables: &Tables, pair: &Pair, lead: u64, lag: u64, from: u64, to: u64) -> LintAnswer
    ensures answer { result ≡ lint_of tables.now pair.now (record { lead = lead; lag = lag; from = from; to = to }) }
    ensures carries_through { (result ≡ answer.Aligned)
        ↔ CarriesThrough (rows_at tables.now pair.now.local.address) (rows_at tables.now pair.now.remote.address)
        pair.now lead lag from to }
{
    judge(tables, pair, lead, lag, from, to)
}
