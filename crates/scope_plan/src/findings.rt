//! What is said of each finding.
ghost use Rattle.std.specs.Prelude.{◌≡◌, ◌++◌, OnOk, flat_map};
ghost use Rattle.book_scope_plan.specs.CalendarTexts.{row_numbered};
ghost use Rattle.book_scope_plan.specs.DifferenceTexts.{refused_text};
ghost use Rattle.book_scope_plan.specs.FindingTexts.{sent_id_text, short_words, unmet_line};
ghost use Rattle.book_scope_plan.specs.WayTexts.{finding_text, short_text};
ghost use Rattle.scope_plan.specs.Facings.{facing_of};

use crate::columns::push_sent;
use crate::facing::Facing;
use crate::gap::push_gap;
use crate::refused::push_reasons;
use crate::short::{SentRow, push_short};
use book_scope_plan::GapSeconds;
use key_plan::Finding;
use key_table::Row;
use plan_texts::{push_row_name, row_numbered};
use std::alloc::AllocError;

/// With which id a row sends.
fn push_sent_id(out: &mut Vec<u8>, row: &Row) -> Result<(), AllocError>
    ensures { OnOk result (out.new.items ≡ out.old.items ++ sent_id_text row.now) }
{
    out.extend_from_slice(b" (sends KeyID ")?;
    push_sent(out, row)?;
    out.extend_from_slice(b"): no row of ")?;
    Ok(())
}

/// The line of a row that isn't met at the other end.
#[tactic(auto, unfolding(book_scope_plan::specs::FindingTexts::unmet_line))]
fn push_unmet(
    out: &mut Vec<u8>,
    facing: &Facing,
    number: u8,
    row: &Row,
    words: &[u8],
) -> Result<(), AllocError>
    ensures { OnOk result (out.new.items ≡ out.old.items ++ unmet_line (facing_of facing.now) number row.now
        words.now) }
{
    out.extend_from_slice(b"  WRONG ")?;
    push_row_name(out, facing.document, facing.node.name(), number)?;
    push_sent_id(out, row)?;
    out.extend_from_slice(facing.other.name())?;
    out.extend_from_slice(words)
}

/// A row that no row of the other end accepts.
fn push_refused(out: &mut Vec<u8>, facing: &Facing, number: u8) -> Result<(), AllocError>
    ensures { OnOk result (out.new.items ≡ out.old.items ++ refused_text (facing_of facing.now) number
        (row_numbered facing.now.node.now.rows number)) }
{
    match row_numbered(facing.node, number) {
        Some(row) => {
            push_unmet(out, facing, number, row, b" takes it\n")?;
            push_reasons(out, facing, row)
        }
        None => Ok(()),
    }
}

/// That a row is taken, but not for long enough.
#[tactic(auto, unfolding(book_scope_plan::specs::FindingTexts::short_words))]
fn short_words() -> &'static [u8]
    ensures { result.now ≡ short_words }
{
    b" takes it for long enough\n"
}

/// A row that no row of the other end accepts for long enough.
fn push_too_short(out: &mut Vec<u8>, facing: &Facing, number: u8) -> Result<(), AllocError>
    ensures { OnOk result (out.new.items ≡ out.old.items ++ short_text (facing_of facing.now) number
        (row_numbered facing.now.node.now.rows number)) }
{
    match row_numbered(facing.node, number) {
        Some(row) => {
            push_unmet(out, facing, number, row, short_words())?;
            push_short(out, facing, &SentRow { number, row })
        }
        None => Ok(()),
    }
}

/// What is said of a finding.
fn push_finding(out: &mut Vec<u8>, facing: &Facing, finding: Finding) -> Result<(), AllocError>
    ensures { OnOk result (out.new.items ≡ out.old.items ++ finding_text (facing_of facing.now) finding) }
{
    match finding {
        Finding::NoPeerRow(end, number) => push_refused(out, &facing.at(end), number),
        Finding::ShortAccept(end, number) => push_too_short(out, &facing.at(end), number),
        Finding::Gap(end, first, last) => {
            push_gap(out, &facing.at(end), GapSeconds { first, last })
        }
    }
}

/// What is said of each finding, in order.
pub(crate) fn push_findings(
    out: &mut Vec<u8>,
    facing: &Facing,
    findings: &[Finding],
) -> Result<(), AllocError>
    ensures { OnOk result (out.new.items ≡ out.old.items ++ flat_map (finding_text (facing_of facing.now))
        findings.now) }
{
    for finding in findings {
        push_finding(out, facing, *finding)?;
    }
    Ok(())
}
