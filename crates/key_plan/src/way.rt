//! What one row, or each row of an end, leaves of lead or lag at the other end.
ghost use Rattle.std.specs.Prelude.{◌≡◌, ◌&&◌, ◌+◌, ◌-◌, min, None, Some};
ghost use Rattle.book_keys.specs.Lifetimes.{contains, greatest_time};
ghost use Rattle.book_keys.specs.Plans.{outlasts, accepts_throughout};
ghost use Rattle.book_plans.specs.declared.margin.Margin.TheVariants as margin;
ghost use Rattle.book_plans.specs.Margins.{wider, narrower, widest, narrowest, time_before, time_after};
ghost use Rattle.key_plan.specs.Asked.{margin_by, margin_of_row};

use crate::alike::is_accepting_from;
use book_base::Pair;
use book_plans::Margin;
use key_table::{LATEST, Lifetime, Row};

/// Which of the two is given, in seconds; the margin is of the other.
#[derive(Clone, Copy)]
pub(crate) enum Given {
    Lead(u64),
    Lag(u64),
}

/// The greater margin, none being the least.
fn wider(one: Option<Margin>, two: Option<Margin>) -> Option<Margin>
    ensures { result ≡ wider one two }
{
    match one {
        None => two,
        Some(Margin::Any) => Some(Margin::Any),
        Some(Margin::UpTo(one)) => match two {
            None => Some(Margin::UpTo(one)),
            Some(Margin::Any) => Some(Margin::Any),
            Some(Margin::UpTo(two)) => Some(Margin::UpTo(one.max(two))),
        },
    }
}

/// The lesser margin.
pub(crate) fn narrower(one: Option<Margin>, two: Option<Margin>) -> Option<Margin>
    ensures { result ≡ narrower one two }
{
    match one? {
        Margin::Any => two,
        Margin::UpTo(one) => match two? {
            Margin::Any => Some(Margin::UpTo(one)),
            Margin::UpTo(two) => Some(Margin::UpTo(one.min(two))),
        },
    }
}

/// By how much accepting from `accepted` on begins before sending from `sent` on.
fn time_before(accepted: u64, sent: u64) -> Margin
    ensures { result ≡ time_before accepted sent }
{
    if accepted == 0 {
        Margin::Any
    } else {
        Margin::UpTo(sent.saturating_sub(accepted))
    }
}

/// By how much accepting until `accepted` ends after sending until `sent`.
fn time_after(accepted: u64, sent: u64) -> Margin
    ensures { result ≡ time_after accepted sent }
{
    if LATEST <= accepted {
        Margin::Any
    } else {
        Margin::UpTo(accepted.saturating_sub(sent))
    }
}

/// Whether accepting begins by `lead` before sending does, and goes on until `lag` after it.
pub(crate) fn is_in_time(lead: u64, lag: u64, sending: Lifetime, accepting: Lifetime) -> bool
    ensures { result ≡ (contains accepting (sending.first - lead)
        && contains accepting (min greatest_time (sending.last + lag))) }
{
    accepting.contains(sending.first.saturating_sub(lead))
        && accepting.contains(LATEST.min(sending.last.saturating_add(lag)))
}

/// Whether the other end's row accepts from `lead` before the first second in which this row sends
/// until `lag` after the last.
fn is_outlasting(lead: u64, lag: u64, row: &Row, other: &Row) -> bool
    ensures { result ≡ outlasts lead lag row.now other.now }
{
    is_in_time(lead, lag, row.sending(), other.accepting())
}

/// Whether it accepts for so long, and what this row sends.
pub(crate) fn is_accepting_throughout(
    pair: &Pair,
    lead: u64,
    lag: u64,
    row: &Row,
    other: &Row,
) -> bool
    ensures { result ≡ accepts_throughout pair.now lead lag row.now other.now }
{
    is_accepting_from(pair, row, other) && is_outlasting(lead, lag, row, other)
}

/// What the other end's row leaves this row.
fn margin_by(given: Given, pair: &Pair, row: &Row, other: &Row) -> Option<Margin>
    ensures { result ≡ margin_by given pair.now row.now other.now }
{
    let sending = row.sending();
    let accepting = other.accepting();
    match given {
        Given::Lag(lag) => {
            if is_accepting_throughout(pair, 0, lag, row, other) {
                Some(time_before(accepting.first, sending.first))
            } else {
                None
            }
        }
        Given::Lead(lead) => {
            if is_accepting_throughout(pair, lead, 0, row, other) {
                Some(time_after(accepting.last, sending.last))
            } else {
                None
            }
        }
    }
}

/// What the rows of the other end leave this row, the one that leaves most.
fn widest(given: Given, pair: &Pair, row: &Row, others: &[Row]) -> Option<Margin>
    ensures { result ≡ widest (margin_by given pair.now row.now) None others.now }
{
    let mut best = None;
    for other in others {
        best = wider(best, margin_by(given, pair, row, other));
    }
    best
}

/// What they leave it, if it sends; any, if it doesn't.
fn margin_of_row(given: Given, pair: &Pair, row: &Row, others: &[Row]) -> Option<Margin>
    ensures { result ≡ margin_of_row given others.now pair.now row.now }
{
    if row.is_sending_for(pair) {
        widest(given, pair, row, others)
    } else {
        Some(Margin::Any)
    }
}

/// What they leave each row of this end.
pub(crate) fn narrowest(given: Given, pair: &Pair, rows: &[Row], others: &[Row]) -> Option<Margin>
    ensures { result ≡ narrowest (margin_of_row given others.now pair.now) (Some margin.Any) rows.now }
{
    let mut least = Some(Margin::Any);
    for row in rows {
        least = narrower(least, margin_of_row(given, pair, row, others));
    }
    least
}
