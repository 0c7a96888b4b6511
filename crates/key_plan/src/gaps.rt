//! The gaps of an end.
ghost use Rattle.std.specs.Prelude.{◌≡◌, ℕ, ◌+◌, ◌-◌, ◌≤◌, ◌<◌, ◌&&◌, ◌++◌, nat_lt, nat_le, map, true, false, IfOk};
ghost use Rattle.std.specs.Prelude.{OnOk};
ghost use Rattle.book_keys.specs.Lifetimes.{is_covered};
ghost use Rattle.book_keys.specs.Plans.{send_lifetimes};
ghost use Rattle.book_plans.specs.Findings.{failing_spans, gap_finding, gap_findings};

use book_base::{End, Pair};
use book_plans::Finding;
use key_table::{Lifetime, Row, first_gap};
use std::alloc::{AllocError, Global};

/// The send lifetimes of the rows that send over the connection.
fn send_lifetimes(alloc: Global, rows: &[Row], pair: &Pair) -> Result<Vec<Lifetime>, AllocError>
    ensures { IfOk result (λ v. v.items ≡ send_lifetimes rows.now pair.now) }
{
    let mut lifetimes = Vec::new(alloc);
    for row in rows {
        if row.is_sending_for(pair) {
            lifetimes.push(row.sending())?;
        }
    }
    Ok(lifetimes)
}

/// Whether the lifetime begins after one time and by another, and has a second.
fn is_beginning(lifetime: &Lifetime, after: u64, by: u64) -> bool
    ensures { result
        ≡ (nat_lt after lifetime.now.first && (nat_le lifetime.now.first by
        && nat_le lifetime.now.first lifetime.now.last)) }
{
    after < lifetime.first && (lifetime.first <= by && lifetime.first <= lifetime.last)
}

/// The last time of the gap that begins at `time`: just before the next lifetime begins, or `to`.
fn end_of_gap(lifetimes: &[Lifetime], time: u64, to: u64) -> u64
    requires order { time ≤ to }
    requires free { is_covered lifetimes.now time ≡ false }
    ensures above { time ≤ result }
    ensures below { result ≤ to }
    ensures free { (t : ℕ) → time ≤ t → t ≤ result → is_covered lifetimes.now t ≡ false }
    ensures covered { result < to → is_covered lifetimes.now (result + 1) ≡ true }
{
    let mut end = to;
    for lifetime in lifetimes {
        if is_beginning(lifetime, time, end) {
            end = lifetime.first - 1;
        }
    }
    end
}

/// Adds each longest span from `from` to `to` that no lifetime covers, in order.
pub(crate) fn add_uncovered(
    findings: &mut Vec<Finding>,
    lifetimes: &[Lifetime],
    end: End,
    from: u64,
    to: u64,
) -> Result<(), AllocError>
    ensures { OnOk result (findings.new.items ≡ findings.old.items
        ++ map (gap_finding end) (failing_spans (is_covered lifetimes.now) from (to + 1 - from))) }
{
    let mut time = from;
    while time <= to {
        let first = match first_gap(lifetimes, time, to) {
            None => return Ok(()),
            Some(first) => first,
        };
        let last = end_of_gap(lifetimes, first, to);
        findings.push(Finding::Gap(end, first, last))?;
        if last >= to {
            return Ok(());
        }
        time = last + 1;
    }
    Ok(())
}

/// Adds each gap of an end from `from` to `to`, in order.
#[tactic(auto, using(book_plans::proofs::FindingLaws::uncovered_is_gap))]
pub(crate) fn add_gaps(
    alloc: Global,
    findings: &mut Vec<Finding>,
    end: End,
    rows: &[Row],
    pair: &Pair,
    from: u64,
    to: u64,
) -> Result<(), AllocError>
    ensures { OnOk result (findings.new.items ≡ findings.old.items ++ gap_findings end rows.now pair.now from to) }
{
    let lifetimes = send_lifetimes(alloc, rows, pair)?;
    add_uncovered(findings, &lifetimes, end, from, to)
}
