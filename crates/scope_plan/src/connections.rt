//! What is said of a connection.
ghost use Rattle.std.specs.Prelude.{◌≡◌, ◌++◌, OnOk, IfOk};
ghost use Rattle.std.specs.List.{list_any};
ghost use Rattle.book_plans.specs.Margins.{lead_margin_of, lag_margin_of};
ghost use Rattle.book_scope_plan.specs.FindingTexts.{text_if};
ghost use Rattle.book_scope_plan.specs.PlanTexts.{aligned_line, begins_sending, both_text, connection_text, facing};
ghost use Rattle.book_scope_plan.specs.PlanTexts.{findings_text, has_none, is_good_plan, margin_text, node_with};
ghost use Rattle.book_scope_plan.specs.PlanTexts.{nodes_text, plan_findings, unchanged_line};
ghost use Rattle.scope_plan.specs.Facings.{facing_of};
ghost use Rattle.scope_keys.specs.KeyFiles.{key_file_of};

use crate::calendar::push_calendar;
use crate::facing::Facing;
use crate::findings::push_findings;
use crate::notes::push_notes;
use crate::reconfiguring::push_reconfiguring;
use ao_base::push_decimal;
use book_base::Pair;
use book_cmd_link::Plan;
use both_ends::BothEnds;
use draw_plan::Connected;
use key_plan::{Finding, Margin, Role, Turn, calendar, findings, lag_margin, lead_margin};
use key_table::Tables;
use plan_texts::{push_missing, push_pair_line, push_times};
use scope_keys::KeyFile;
use std::alloc::{AllocError, Global};

#[tactic(auto, unfolding(book_scope_plan::specs::PlanTexts::margin_text))]
fn push_margin(out: &mut Vec<u8>, name: &[u8], margin: Option<Margin>) -> Result<(), AllocError>
    ensures { OnOk result (out.new.items ≡ out.old.items ++ margin_text name.now margin) }
{
    match margin {
        None => {
            out.extend_from_slice(b"no ")?;
            out.extend_from_slice(name)
        }
        Some(Margin::Any) => {
            out.extend_from_slice(b"any ")?;
            out.extend_from_slice(name)
        }
        Some(Margin::UpTo(most)) => {
            out.extend_from_slice(name)?;
            out.extend_from_slice(b" to ")?;
            push_decimal(out, most)
        }
    }
}

/// The line of a plan of which all holds.
#[tactic(auto, unfolding(book_scope_plan::specs::PlanTexts::aligned_line))]
fn push_aligned(
    out: &mut Vec<u8>,
    lead: Option<Margin>,
    lag: Option<Margin>,
) -> Result<(), AllocError>
    ensures { OnOk result (out.new.items ≡ out.old.items ++ aligned_line lead lag) }
{
    out.extend_from_slice(b"  aligned; the plan holds for ")?;
    push_margin(out, b"LEAD", lead)?;
    out.extend_from_slice(b" and ")?;
    push_margin(out, b"LAG", lag)?;
    out.push(b'\n')?;
    Ok(())
}

pub(crate) fn has_none(findings: &[Finding]) -> bool
    ensures { result ≡ has_none findings.now }
{
    findings.is_empty()
}

/// What is said of all findings, or that there is none.
fn push_judgement(
    out: &mut Vec<u8>,
    facing: &Facing,
    tables: &Tables,
    findings: &[Finding],
) -> Result<(), AllocError>
    ensures { OnOk result (out.new.items ≡ out.old.items ++ findings_text (facing_of facing.now) tables.now
        findings.now) }
{
    match findings {
        [] => {
            let lead = lead_margin(tables, &facing.pair, facing.plan.lag);
            let lag = lag_margin(tables, &facing.pair, facing.plan.lead);
            push_aligned(out, lead, lag)
        }
        [_, ..] => {
            push_findings(out, facing, findings)?;
            push_reconfiguring(out, facing, findings)
        }
    }
}

/// All that doesn't hold of the plan.
pub(crate) fn findings_by(
    alloc: Global,
    tables: &Tables,
    pair: &Pair,
    plan: &Plan,
) -> Result<Vec<Finding>, AllocError>
    ensures { IfOk result (λ v. v.items ≡ plan_findings tables.now plan.now pair.now) }
{
    findings(alloc, tables, pair, plan.lead, plan.lag, plan.from, plan.to)
}

/// Whether a row is sent with from now on.
fn begins_sending(turn: &Turn) -> bool
    ensures { result ≡ begins_sending turn.now }
{
    match turn.role {
        Role::SentWith => turn.begins,
        Role::Acceptable => false,
        Role::AskedFor => false,
        Role::Sendable => false,
    }
}

/// Whether some end begins to send with another row.
pub(crate) fn changes_key(turns: &[Turn]) -> bool
    ensures { result ≡ list_any begins_sending turns.now }
{
    turns.iter().any(|turn| begins_sending(turn))
}

/// The line of a plan in which no key changes.
#[tactic(auto, unfolding(book_scope_plan::specs::PlanTexts::unchanged_line))]
fn push_unchanged(out: &mut Vec<u8>, plan: &Plan) -> Result<(), AllocError>
    ensures { OnOk result (out.new.items ≡ out.old.items ++ unchanged_line plan.now) }
{
    out.extend_from_slice(b"  WRONG no key changes from ")?;
    push_times(out, plan.from, plan.to)?;
    out.extend_from_slice(b": neither end begins to send with another row\n")
}

fn push_unchanged_if(out: &mut Vec<u8>, holds: bool, plan: &Plan) -> Result<(), AllocError>
    ensures { OnOk result (out.new.items ≡ out.old.items ++ text_if holds (unchanged_line plan.now)) }
{
    if holds {
        push_unchanged(out, plan)
    } else {
        Ok(())
    }
}

/// What is said of a connection whose ends have tables; whether there is no finding.
#[tactic(auto, unfolding(book_scope_plan::specs::PlanTexts::changes_key))]
fn push_both(
    alloc: Global,
    out: &mut Vec<u8>,
    ends: &Connected,
    keys: &KeyFile,
    plan: &Plan,
) -> Result<bool, AllocError>
    ensures text { OnOk result (out.new.items ≡ out.old.items
        ++ both_text (facing (key_file_of keys.now) ends.now.tables.a.now ends.now.tables.b.now plan.now ends.now.pair)
        keys.now.tables) }
    ensures good { IfOk result (λ good. good ≡ has_none (plan_findings keys.now.tables plan.now ends.now.pair)) }
{
    let tables = &keys.tables;
    let turns = calendar(alloc, tables, &ends.pair, plan.from, plan.to)?;
    push_calendar(alloc, out, ends, turns.as_slice())?;
    let findings = findings_by(alloc, tables, &ends.pair, plan)?;
    let facing = Facing::new(keys, ends, plan);
    push_unchanged_if(out, !changes_key(turns.as_slice()), plan)?;
    push_judgement(out, &facing, tables, findings.as_slice())?;
    push_notes(out, &facing)?;
    Ok(has_none(findings.as_slice()))
}

/// What is said of a connection; whether nothing is wrong with its plan.
#[tactic(auto, unfolding(book_scope_plan::specs::PlanTexts::connection_text, book_scope_plan::specs::PlanTexts::is_good_plan))]
pub(crate) fn push_connection(
    alloc: Global,
    out: &mut Vec<u8>,
    keys: &KeyFile,
    plan: &Plan,
    pair: &Pair,
) -> Result<bool, AllocError>
    ensures text { OnOk result (out.new.items ≡ out.old.items
        ++ connection_text (key_file_of keys.now) plan.now pair.now) }
    ensures good { IfOk result (λ good. good ≡ is_good_plan keys.now.tables plan.now pair.now) }
{
    push_pair_line(out, pair)?;
    let a = keys.tables.table(&pair.local.address);
    let b = keys.tables.table(&pair.remote.address);
    match (a, b) {
        (Some(a), Some(b)) => {
            let ends = Connected {
                tables: BothEnds { a, b },
                pair: *pair,
            };
            push_both(alloc, out, &ends, keys, plan)
        }
        _ => {
            push_missing(out, a, &pair.local.address)?;
            push_missing(out, b, &pair.remote.address)?;
            Ok(false)
        }
    }
}
