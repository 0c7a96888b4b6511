//! When a node whose rows have no lifetimes may be reconfigured from one row to another.
ghost use Rattle.std.specs.Prelude.{◌≡◌, ◌&&◌, ◌++◌, OnOk, option_map};
ghost use Rattle.std.specs.List.{find};
ghost use Rattle.book_keys.specs.Plans.{accepts_from};
ghost use Rattle.book_scope_plan.specs.CalendarTexts.{are_both_ends, row_numbered};
ghost use Rattle.book_scope_plan.specs.FindingTexts.{text_if};
ghost use Rattle.book_scope_plan.specs.Reconfiguring.{earliest_switch, is_timeless, is_unbounded, latest_switch};
ghost use Rattle.book_scope_plan.specs.Reconfiguring.{new_taker, no_switch_line, old_taker, reconfiguring_text};
ghost use Rattle.book_scope_plan.specs.Reconfiguring.{span_between, span_by, switch_line, switch_span, switch_text};
ghost use Rattle.book_scope_plan.specs.Reconfiguring.{takes_at, timeless_text, two_findings_text, two_rows_text};
ghost use Rattle.scope_plan.specs.Facings.{facing_of};

use crate::calendar::are_both_ends;
use crate::facing::Facing;
use crate::lifetimes::push_number;
use book_base::Pair;
use book_cmd_link::Plan;
use key_plan::{Finding, differences};
use key_table::{LATEST, Lifetime, Row};
use plan_texts::{push_times, row_numbered};
use std::alloc::AllocError;

/// Whether neither end of a lifetime is given.
fn is_whole(lifetime: Lifetime) -> bool
    ensures { result ≡ is_unbounded lifetime }
{
    lifetime.first == 0 && LATEST <= lifetime.last
}

/// Whether a row sends for the connection and has no lifetimes.
fn is_timeless(pair: &Pair, row: &Row) -> bool
    ensures { result ≡ is_timeless pair.now row.now }
{
    row.is_sending_for(pair) && (is_whole(row.sending()) && is_whole(row.accepting()))
}

#[tactic(auto, using(book_plans::proofs::DifferenceLaws::alike_accepts))]
pub(crate) fn is_accepting_from(pair: &Pair, row: &Row, other: &Row) -> bool
    ensures { result ≡ accepts_from pair.now row.now other.now }
{
    let differences = differences(pair, row, other);
    differences.is_none()
}

/// Whether a row of the other end accepts what a row sends, and does so at the time.
fn takes_at(pair: &Pair, row: &Row, time: u64, other: &Row) -> bool
    ensures { result ≡ takes_at pair.now row.now time other.now }
{
    is_accepting_from(pair, row, other) && other.accepting().contains(time)
}

/// The first row of the other end that does.
fn taker<'a>(pair: &Pair, row: &Row, time: u64, others: &'a [Row]) -> Option<&'a Row>
    ensures { option_map (λ r. r.now) result ≡ find (takes_at pair.now row.now time) others.now }
{
    for other in others {
        if takes_at(pair, row, time, other) {
            return Some(other);
        }
    }
    None
}

fn old_taker<'a>(facing: &Facing<'a>, row: &Row) -> Option<&'a Row>
    ensures { option_map (λ r. r.now) result ≡ old_taker (facing_of facing.now) row.now }
{
    let time = facing.plan.from.saturating_sub(facing.plan.lead);
    taker(&facing.pair, row, time, facing.other.entries())
}

fn new_taker<'a>(facing: &Facing<'a>, row: &Row) -> Option<&'a Row>
    ensures { option_map (λ r. r.now) result ≡ new_taker (facing_of facing.now) row.now }
{
    let time = LATEST.min(facing.plan.to.saturating_add(facing.plan.lag));
    taker(&facing.pair, row, time, facing.other.entries())
}

/// The last time until just before which the other end's row accepts LAG after.
fn latest_switch(plan: &Plan, other: &Row) -> u64
    ensures { result ≡ latest_switch plan.now other.now }
{
    let last = other.accepting().last;
    if LATEST <= last {
        plan.to
    } else {
        plan.to.min((last + 1).saturating_sub(plan.lag))
    }
}

/// The times by the rows of the other end that accept, if any.
fn span_of(plan: &Plan, old: &Row, new: &Row) -> Option<Lifetime>
    ensures { result ≡ span_between (earliest_switch plan.now new.now) (latest_switch plan.now old.now) }
{
    let last = latest_switch(plan, old);
    let opening = new.accepting().first;
    if plan.from >= last || plan.lead > last || opening > last - plan.lead {
        return None;
    }
    Some(Lifetime {
        first: (plan.from + 1).max(opening + plan.lead),
        last,
    })
}

fn span_by(plan: &Plan, old: Option<&Row>, new: Option<&Row>) -> Option<Lifetime>
    ensures { result ≡ span_by plan.now (option_map (λ r. r.now) old.entry) (option_map (λ r. r.now) new.entry) }
{
    match (old, new) {
        (Some(old), Some(new)) => span_of(plan, old, new),
        (Some(_), None) => None,
        (None, _) => None,
    }
}

/// The times at which the node may begin to send with the new row in place of the old one.
fn switch_span(facing: &Facing, old: &Row, new: &Row) -> Option<Lifetime>
    ensures { result ≡ switch_span (facing_of facing.now) old.now new.now }
{
    span_by(&facing.plan, old_taker(facing, old), new_taker(facing, new))
}

fn push_node(out: &mut Vec<u8>, facing: &Facing) -> Result<(), AllocError>
    ensures { OnOk result (out.new.items ≡ out.old.items ++ facing.now.node.now.name) }
{
    out.extend_from_slice(facing.node.name())
}

fn push_other(out: &mut Vec<u8>, facing: &Facing) -> Result<(), AllocError>
    ensures { OnOk result (out.new.items ≡ out.old.items ++ facing.now.other.now.name) }
{
    out.extend_from_slice(facing.other.name())
}

/// From which row to which the node is to be reconfigured, and when.
fn push_switch_line(
    out: &mut Vec<u8>,
    facing: &Facing,
    old: u8,
    new: u8,
    span: Lifetime,
) -> Result<(), AllocError>
    ensures { OnOk result (out.new.items ≡ out.old.items ++ switch_line (facing_of facing.now) old new span) }
{
    out.extend_from_slice(b"  or reconfigure ")?;
    push_node(out, facing)?;
    out.extend_from_slice(b" from row ")?;
    push_number(out, old)?;
    out.extend_from_slice(b" to row ")?;
    push_number(out, new)?;
    out.extend_from_slice(b" at a time from ")?;
    push_times(out, span.first, span.last)?;
    out.extend_from_slice(b", accepting both throughout\n")?;
    Ok(())
}

/// That it can't be.
fn push_no_switch(out: &mut Vec<u8>, facing: &Facing) -> Result<(), AllocError>
    ensures { OnOk result (out.new.items ≡ out.old.items ++ no_switch_line (facing_of facing.now)) }
{
    out.extend_from_slice(b"  at no time can ")?;
    push_node(out, facing)?;
    out.extend_from_slice(b" be reconfigured: ")?;
    push_other(out, facing)?;
    out.extend_from_slice(b" doesn't accept both rows for long enough\n")?;
    Ok(())
}

/// The first of two spans, told with the rows in its order; or that there is none.
fn push_switch(
    out: &mut Vec<u8>,
    facing: &Facing,
    one: u8,
    other: u8,
    there: Option<Lifetime>,
    back: Option<Lifetime>,
) -> Result<(), AllocError>
    ensures { OnOk result (out.new.items ≡ out.old.items ++ switch_text (facing_of facing.now) one other there back) }
{
    match there {
        Some(span) => push_switch_line(out, facing, one, other, span),
        None => match back {
            Some(span) => push_switch_line(out, facing, other, one, span),
            None => push_no_switch(out, facing),
        },
    }
}

/// What is said of two rows, where both have no lifetimes.
fn push_two_rows(
    out: &mut Vec<u8>,
    facing: &Facing,
    one: u8,
    other: u8,
    first: &Row,
    second: &Row,
) -> Result<(), AllocError>
    ensures { OnOk result (out.new.items ≡ out.old.items ++ text_if
        (is_timeless facing.now.pair first.now && is_timeless facing.now.pair second.now)
        (switch_text (facing_of facing.now) one other
        (switch_span (facing_of facing.now) first.now second.now)
        (switch_span (facing_of facing.now) second.now first.now))) }
{
    if is_timeless(&facing.pair, first) && is_timeless(&facing.pair, second) {
        let there = switch_span(facing, first, second);
        let back = switch_span(facing, second, first);
        push_switch(out, facing, one, other, there, back)
    } else {
        Ok(())
    }
}

fn push_found_rows(
    out: &mut Vec<u8>,
    facing: &Facing,
    one: u8,
    other: u8,
    first: Option<&Row>,
    second: Option<&Row>,
) -> Result<(), AllocError>
    ensures { OnOk result (out.new.items ≡ out.old.items ++ two_rows_text (facing_of facing.now) one other
        (option_map (λ r. r.now) first.entry) (option_map (λ r. r.now) second.entry)) }
{
    match (first, second) {
        (Some(first), Some(second)) => push_two_rows(out, facing, one, other, first, second),
        (Some(_), None) => Ok(()),
        (None, _) => Ok(()),
    }
}

/// What is said of two rows of a node by their numbers.
fn push_timeless(out: &mut Vec<u8>, facing: &Facing, one: u8, other: u8) -> Result<(), AllocError>
    ensures { OnOk result (out.new.items ≡ out.old.items ++ timeless_text (facing_of facing.now) one other) }
{
    if one < other {
        let first = row_numbered(facing.node, one);
        let second = row_numbered(facing.node, other);
        push_found_rows(out, facing, one, other, first, second)
    } else {
        Ok(())
    }
}

fn push_two(
    out: &mut Vec<u8>,
    facing: &Facing,
    one: Finding,
    other: Finding,
) -> Result<(), AllocError>
    ensures { OnOk result (out.new.items ≡ out.old.items ++ two_findings_text (facing_of facing.now) one other) }
{
    match one {
        Finding::ShortAccept(end, first) => match other {
            Finding::ShortAccept(far, second) => {
                if are_both_ends(end, far) {
                    Ok(())
                } else {
                    push_timeless(out, &facing.at(end), first, second)
                }
            }
            Finding::NoPeerRow(_, _) => Ok(()),
            Finding::Gap(_, _, _) => Ok(()),
        },
        Finding::NoPeerRow(_, _) => Ok(()),
        Finding::Gap(_, _, _) => Ok(()),
    }
}

/// Where two rows of one node aren't accepted for long enough, and nothing else is wrong: when it may be
/// reconfigured.
pub(crate) fn push_reconfiguring(
    out: &mut Vec<u8>,
    facing: &Facing,
    findings: &[Finding],
) -> Result<(), AllocError>
    ensures { OnOk result (out.new.items ≡ out.old.items ++ reconfiguring_text (facing_of facing.now) findings.now) }
{
    match findings {
        [] => Ok(()),
        [_] => Ok(()),
        [one, other] => push_two(out, facing, *one, *other),
        [_, _, _, ..] => Ok(()),
    }
}
