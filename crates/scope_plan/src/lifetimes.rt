//! What rows of the other end lack of the lifetime that is wanted of them.
ghost use Rattle.std.specs.Prelude.{◌≡◌, ◌++◌, OnOk, decimal};
ghost use Rattle.book_scope_plan.specs.FindingTexts.{accepting_row, accepts_text, early_line, late_line};
ghost use Rattle.book_scope_plan.specs.FindingTexts.{lifetime_lines, planned_accepting, sends_text, wanted_text};
ghost use Rattle.scope_plan.specs.Facings.{facing_of};

use crate::facing::Facing;
use ao_base::push_decimal;
use book_cmd_link::Plan;
use key_plan::wanted_accepting;
use key_table::{Lifetime, Row};
use scope_texts::push_instant;
use std::alloc::AllocError;

pub(crate) fn push_number(out: &mut Vec<u8>, number: u8) -> Result<(), AllocError>
    ensures { OnOk result (out.new.items ≡ out.old.items ++ decimal number) }
{
    push_decimal(out, u64::from(number))
}

fn push_accepting_row(out: &mut Vec<u8>, name: &[u8], number: u8) -> Result<(), AllocError>
    ensures { OnOk result (out.new.items ≡ out.old.items ++ accepting_row name.now number) }
{
    out.extend_from_slice(b"    ")?;
    out.extend_from_slice(name)?;
    out.extend_from_slice(b" accepts its row ")?;
    push_number(out, number)?;
    Ok(())
}

#[tactic(auto, unfolding(book_scope_plan::specs::FindingTexts::accepts_text))]
fn push_accepts(
    out: &mut Vec<u8>,
    name: &[u8],
    number: u8,
    word: &[u8],
    time: u64,
) -> Result<(), AllocError>
    ensures { OnOk result (out.new.items ≡ out.old.items ++ accepts_text name.now number word.now time) }
{
    push_accepting_row(out, name, number)?;
    out.extend_from_slice(word)?;
    push_instant(out, time)
}

#[tactic(auto, unfolding(book_scope_plan::specs::FindingTexts::sends_text))]
fn push_sends(out: &mut Vec<u8>, name: &[u8], word: &[u8], time: u64) -> Result<(), AllocError>
    ensures { OnOk result (out.new.items ≡ out.old.items ++ sends_text name.now word.now time) }
{
    out.extend_from_slice(b", ")?;
    out.extend_from_slice(name)?;
    out.extend_from_slice(b" may send")?;
    out.extend_from_slice(word)?;
    push_instant(out, time)?;
    out.extend_from_slice(b": ")
}

#[tactic(auto, unfolding(book_scope_plan::specs::FindingTexts::wanted_text))]
fn push_wanted(out: &mut Vec<u8>, left: u64, word: &[u8], wanted: u64) -> Result<(), AllocError>
    ensures { OnOk result (out.new.items ≡ out.old.items ++ wanted_text left word.now wanted) }
{
    push_decimal(out, left)?;
    out.extend_from_slice(word)?;
    push_decimal(out, wanted)?;
    out.extend_from_slice(b" wanted\n")
}

/// When a row of the other end is to accept what the row sends.
fn planned_accepting(plan: &Plan, row: &Row) -> Lifetime
    ensures { result ≡ planned_accepting plan.now row.now }
{
    wanted_accepting(row, plan.lead, plan.lag)
}

/// The line of a row of the other end that begins to accept too late.
#[tactic(auto, unfolding(book_scope_plan::specs::FindingTexts::early_line))]
fn push_early(
    out: &mut Vec<u8>,
    facing: &Facing,
    number: u8,
    row: &Row,
    other: &Row,
) -> Result<(), AllocError>
    ensures { OnOk result (out.new.items ≡ out.old.items ++ early_line (facing_of facing.now) number row.now
        other.now) }
{
    let name = facing.other.name();
    let sent = row.sending().first;
    let accepted = other.accepting().first;
    push_accepts(out, name, number, b" from ", accepted)?;
    push_sends(out, facing.node.name(), b" from ", sent)?;
    let left = sent.saturating_sub(accepted);
    push_wanted(out, left, b" s before, ", facing.plan.lead)
}

/// The line of a row of the other end that ends to accept too early.
#[tactic(auto, unfolding(book_scope_plan::specs::FindingTexts::late_line))]
fn push_late(
    out: &mut Vec<u8>,
    facing: &Facing,
    number: u8,
    row: &Row,
    other: &Row,
) -> Result<(), AllocError>
    ensures { OnOk result (out.new.items ≡ out.old.items ++ late_line (facing_of facing.now) number row.now other.now) }
{
    let name = facing.other.name();
    let sent = row.sending().last;
    let accepted = other.accepting().last;
    push_accepts(out, name, number, b" until ", accepted)?;
    push_sends(out, facing.node.name(), b" until ", sent)?;
    let left = accepted.saturating_sub(sent);
    push_wanted(out, left, b" s after, ", facing.plan.lag)
}

/// What a row of the other end lacks of the lifetime that is wanted.
#[tactic(auto, unfolding(book_scope_plan::specs::FindingTexts::lifetime_lines))]
pub(crate) fn push_lifetime(
    out: &mut Vec<u8>,
    facing: &Facing,
    number: u8,
    row: &Row,
    other: &Row,
) -> Result<(), AllocError>
    ensures { OnOk result (out.new.items ≡ out.old.items ++ lifetime_lines (facing_of facing.now) number row.now
        other.now) }
{
    let accepting = other.accepting();
    let wanted = planned_accepting(&facing.plan, row);
    if wanted.first < accepting.first {
        push_early(out, facing, number, row, other)?;
    }
    if accepting.last < wanted.last {
        push_late(out, facing, number, row, other)?;
    }
    Ok(())
}
