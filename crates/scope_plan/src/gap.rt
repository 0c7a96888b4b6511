//! What is said of a gap of an end.
ghost use Rattle.std.specs.Prelude.{◌≡◌, ◌++◌, false, IfOk, OnOk};
ghost use Rattle.toml.specs.View.{table_view};
ghost use Rattle.book_scope_plan.specs.FindingTexts.{row_name, seconds_between, seconds_text, text_if};
ghost use Rattle.book_scope_plan.specs.WayTexts.{begins_after, ends_before, gap_line, gap_lines, gap_text};
ghost use Rattle.book_scope_plan.specs.WayTexts.{is_kept_from, kept_line, kept_lines, longer_line, longer_over};
ghost use Rattle.book_scope_plan.specs.WayTexts.{sending_over, told_longer};
ghost use Rattle.scope_plan.specs.Facings.{facing_of};

use crate::columns::push_direction_name;
use crate::facing::Facing;
use crate::ways::{push_if, push_sending_line};
use ao_base::push_decimal;
use book_base::Pair;
use book_cmd_link::Plan;
use book_scope_plan::GapSeconds;
use key_table::{Direction, Lifetime, Row};
use plan_texts::{push_times, row_name};
use std::alloc::AllocError;

/// The seconds from one to another, both included.
fn seconds_between(first: u64, last: u64) -> u64
    ensures { result ≡ seconds_between first last }
{
    if first > last {
        0
    } else {
        (last - first).saturating_add(1)
    }
}

#[tactic(auto, unfolding(book_scope_plan::specs::FindingTexts::seconds_text))]
fn push_seconds(out: &mut Vec<u8>, first: u64, last: u64) -> Result<(), AllocError>
    ensures { OnOk result (out.new.items ≡ out.old.items ++ seconds_text first last) }
{
    out.extend_from_slice(b", ")?;
    push_decimal(out, seconds_between(first, last))?;
    out.extend_from_slice(b" s\n")
}

fn push_gap_line(out: &mut Vec<u8>, name: &[u8], gap: GapSeconds) -> Result<(), AllocError>
    ensures { OnOk result (out.new.items ≡ out.old.items ++ gap_line name.now gap) }
{
    out.extend_from_slice(b"  WRONG ")?;
    out.extend_from_slice(name)?;
    out.extend_from_slice(b" has no row to send with from ")?;
    push_times(out, gap.first, gap.last)?;
    push_seconds(out, gap.first, gap.last)?;
    Ok(())
}

/// Whether a row ends just before a gap, or before one that begins where the plan does.
fn ends_before(plan: &Plan, gap: GapSeconds, row: &Row) -> bool
    ensures { result ≡ ends_before plan.now gap row.now }
{
    let last = row.sending().last;
    last < gap.first && (gap.first - last == 1 || gap.first == plan.from)
}

/// Whether a row begins just after a gap, or after one that ends where the plan does.
fn begins_after(plan: &Plan, gap: GapSeconds, row: &Row) -> bool
    ensures { result ≡ begins_after plan.now gap row.now }
{
    let first = row.sending().first;
    gap.last < first && (first - gap.last == 1 || gap.last == plan.to)
}

/// When a row beside the gap would send that goes on over it.
fn sending_over(plan: &Plan, gap: GapSeconds, row: &Row) -> Option<Lifetime>
    ensures { result ≡ sending_over plan.now gap row.now }
{
    let sending = row.sending();
    if ends_before(plan, gap, row) {
        Some(Lifetime {
            first: sending.first,
            last: gap.last,
        })
    } else if begins_after(plan, gap, row) {
        Some(Lifetime {
            first: gap.first,
            last: sending.last,
        })
    } else {
        None
    }
}

/// The same of a row that sends over the connection.
fn longer_over(facing: &Facing, gap: GapSeconds, row: &Row) -> Option<Lifetime>
    ensures { result ≡ longer_over (facing_of facing.now) gap row.now }
{
    if row.is_sending_for(&facing.pair) {
        sending_over(&facing.plan, gap, row)
    } else {
        None
    }
}

/// The longer life of a row of this number, if any, as a way out; whether one was told by now.
fn push_longer(
    out: &mut Vec<u8>,
    facing: &Facing,
    told: bool,
    number: u8,
    row: &Row,
    longer: Option<Lifetime>,
) -> Result<bool, AllocError>
    ensures text { OnOk result (out.new.items ≡ out.old.items
        ++ longer_line (facing_of facing.now) told number row.now longer) }
    ensures told { IfOk result (λ t. t ≡ told_longer (facing_of facing.now) told number row.now longer) }
{
    match longer {
        Some(sending) => push_sending_line(out, facing, told, number, row, sending),
        None => Ok(told),
    }
}

/// The lines of the rows beside a gap, or that none can send over it.
fn push_beside(out: &mut Vec<u8>, facing: &Facing, gap: GapSeconds) -> Result<(), AllocError>
    ensures { OnOk result (out.new.items ≡ out.old.items ++ gap_lines (facing_of facing.now) gap false 1
        facing.now.node.now.rows) }
{
    // It tells that a table has at most 64 rows, so that each number fits.
    let _count = facing.node.rows();
    let rows = facing.node.entries();
    let mut told = false;
    for (i, row) in rows.iter().enumerate() {
        let longer = longer_over(facing, gap, row);
        told = push_longer(out, facing, told, (i + 1) as u8, row, longer)?;
    }
    push_if(out, !told, b"    no row beside it can send over it\n")
}

/// Whether for the connection a row could send in some second of a gap, but for its Direction.
fn is_kept_from(pair: &Pair, gap: GapSeconds, row: &Row) -> bool
    ensures { result ≡ is_kept_from pair.now gap row.now }
{
    let sending = row.sending();
    row.matches(pair)
        && (!row.direction().sends() && sending.first.max(gap.first) <= sending.last.min(gap.last))
}

/// That the Direction of a row keeps it from sending.
fn push_kept_line(out: &mut Vec<u8>, name: &[u8], direction: Direction) -> Result<(), AllocError>
    ensures { OnOk result (out.new.items ≡ out.old.items ++ kept_line name.now direction) }
{
    out.extend_from_slice(b"    ")?;
    out.extend_from_slice(name)?;
    out.extend_from_slice(b" isn't for sending: its Direction is ")?;
    push_direction_name(out, direction)?;
    out.extend_from_slice(b"\n")?;
    Ok(())
}

/// The line of a row of this number that its Direction alone keeps from sending in the gap.
fn push_kept_row(
    out: &mut Vec<u8>,
    facing: &Facing,
    gap: GapSeconds,
    number: u8,
    row: &Row,
) -> Result<(), AllocError>
    ensures { OnOk result (out.new.items ≡ out.old.items ++ text_if (is_kept_from facing.now.pair gap row.now)
        (kept_line (row_name (table_view facing.now.document.now) facing.now.node.now.name number) row.now.direction)) }
{
    if is_kept_from(&facing.pair, gap, row) {
        let alloc = *out.allocator();
        let name = row_name(alloc, facing.document, facing.node.name(), number)?;
        push_kept_line(out, name.as_slice(), row.direction())
    } else {
        Ok(())
    }
}

/// The lines of the rows that their Direction alone keeps from sending in the gap.
fn push_kept(out: &mut Vec<u8>, facing: &Facing, gap: GapSeconds) -> Result<(), AllocError>
    ensures { OnOk result (out.new.items ≡ out.old.items ++ kept_lines (facing_of facing.now) gap 1
        facing.now.node.now.rows) }
{
    // It tells that a table has at most 64 rows, so that each number fits.
    let _count = facing.node.rows();
    let rows = facing.node.entries();
    for (i, row) in rows.iter().enumerate() {
        push_kept_row(out, facing, gap, (i + 1) as u8, row)?;
    }
    Ok(())
}

/// What is said of a gap.
pub(crate) fn push_gap(
    out: &mut Vec<u8>,
    facing: &Facing,
    gap: GapSeconds,
) -> Result<(), AllocError>
    ensures { OnOk result (out.new.items ≡ out.old.items ++ gap_text (facing_of facing.now) gap) }
{
    push_gap_line(out, facing.node.name(), gap)?;
    push_kept(out, facing, gap)?;
    push_beside(out, facing, gap)
}
