//! What is said of a row that no row of the other end accepts for long enough.
ghost use Rattle.std.specs.Prelude.{◌≡◌, ◌++◌, ◌||◌, false, IfOk, OnOk};
ghost use Rattle.book_plans.specs.Differences.{differences, is_alike};
ghost use Rattle.book_plans.specs.Ways.{fitting_accepting, fitting_sending};
ghost use Rattle.book_scope_plan.specs.FindingTexts.{text_if};
ghost use Rattle.book_scope_plan.specs.WayTexts.{accepting_lines, may_lengthen, may_shorten, told_after, two_ways};
ghost use Rattle.scope_plan.specs.Facings.{facing_of, sent_of};

use crate::facing::Facing;
use crate::lifetimes::push_lifetime;
use crate::ways::{push_accepting_line, push_if, push_sending_line};
use key_plan::{differences, fitting_accepting, fitting_sending};
use key_table::{Lifetime, Row};
use std::alloc::AllocError;

/// A row that sends and its number.
#[derive(Clone, Copy)]
pub(crate) struct SentRow<'a> {
    pub(crate) number: u8,
    pub(crate) row: &'a Row,
}

/// When the row may send so that the other end's row accepts for long enough.
fn shorter(facing: &Facing, row: &Row, other: &Row) -> Lifetime
    ensures { result ≡ fitting_sending facing.now.plan.lead facing.now.plan.lag row.now other.now }
{
    fitting_sending(facing.plan.lead, facing.plan.lag, row, other)
}

/// When the other end's row accepts for long enough.
fn longer(facing: &Facing, row: &Row, other: &Row) -> Lifetime
    ensures { result ≡ fitting_accepting facing.now.plan.lead facing.now.plan.lag row.now other.now }
{
    fitting_accepting(facing.plan.lead, facing.plan.lag, row, other)
}

/// What a row of the other end lacks, and the two ways out; whether one was told by now.
#[tactic(auto, unfolding(book_scope_plan::specs::WayTexts::two_ways))]
fn push_two_ways(
    out: &mut Vec<u8>,
    facing: &Facing,
    sent: &SentRow,
    told: bool,
    at: u8,
    other: &Row,
) -> Result<bool, AllocError>
    ensures text { OnOk result (out.new.items ≡ out.old.items
        ++ two_ways (facing_of facing.now) (sent_of sent.now) told at other.now) }
    ensures told { IfOk result
        (λ t. t ≡ ((told || may_shorten (facing_of facing.now) (sent_of sent.now) other.now)
        || may_lengthen (facing_of facing.now) (sent_of sent.now) at other.now)) }
{
    push_lifetime(out, facing, at, sent.row, other)?;
    let sending = shorter(facing, sent.row, other);
    let told = push_sending_line(out, facing, told, sent.number, sent.row, sending)?;
    let accepting = longer(facing, sent.row, other);
    push_accepting_line(out, facing, told, at, other, accepting)
}

/// The lines of a row of the other end, where it accepts what a row sends; whether a way out was told by now.
fn push_accepting(
    out: &mut Vec<u8>,
    facing: &Facing,
    sent: &SentRow,
    told: bool,
    at: u8,
    other: &Row,
) -> Result<bool, AllocError>
    ensures text { OnOk result (out.new.items ≡ out.old.items
        ++ text_if (is_alike (differences facing.now.pair sent.now.row.now other.now))
        (two_ways (facing_of facing.now) (sent_of sent.now) told at other.now)) }
    ensures told { IfOk result (λ t. t ≡ told_after (facing_of facing.now) (sent_of sent.now) told at other.now) }
{
    let d = differences(&facing.pair, sent.row, other);
    if d.is_none() {
        push_two_ways(out, facing, sent, told, at, other)
    } else {
        Ok(told)
    }
}

/// The lines of the rows of the other end that accept what a row sends, or that none of the changes will do.
pub(crate) fn push_short(
    out: &mut Vec<u8>,
    facing: &Facing,
    sent: &SentRow,
) -> Result<(), AllocError>
    ensures { OnOk result (out.new.items ≡ out.old.items ++ accepting_lines (facing_of facing.now) (sent_of sent.now)
        false 1 facing.now.other.now.rows) }
{
    // It tells that a table has at most 64 rows, so that each number fits.
    let _count = facing.other.rows();
    let rows = facing.other.entries();
    let mut told = false;
    for (i, other) in rows.iter().enumerate() {
        told = push_accepting(out, facing, sent, told, (i + 1) as u8, other)?;
    }
    push_if(out, !told, b"    none of these changes will do\n")?;
    Ok(())
}
