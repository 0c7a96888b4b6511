//! What is said of a connection in a form: its lines, its bars, or its part of a picture.
ghost use Rattle.std.specs.Prelude.{◌≡◌, ◌++◌, ◌+◌, ◌≤◌, ◌&&◌, OnOk, IfOk, is_some, option_map};
ghost use Rattle.book_scope_plan.specs.Bars.{both_bars, drawing_text, nodes_bars};
ghost use Rattle.page_draw_plan_svg.specs.PlanLines.{drawing_lines};
ghost use Rattle.book_scope_plan.specs.PlanTexts.{connection_line, has_none, is_good_plan, missing_text, node_with};
ghost use Rattle.book_scope_plan.specs.PlanTexts.{plan_findings};
ghost use Rattle.scope_keys.specs.KeyFiles.{key_file_of};
ghost use Rattle.draw_plan.specs.Draws.{Draws};
ghost use Rattle.scope_plan.specs.Plannings.{connection_as, framed_plan, lines_as};

use crate::connections::{findings_by, has_none, push_connection};
use crate::planned::{Planned, Written};
use book_base::{Bytes, Pair};
use book_cmd_link::Plan;
use book_plans::Finding;
use book_scope_plan::PlanForm;
use both_ends::BothEnds;
use draw_plan::{
    Connected, Panel, Paper, picture_width, push_bars, push_end, push_front, push_panel,
    push_summary, push_summary_line,
};
use key_table::{Table, Tables};
use plan_texts::{push_missing, push_pair_line};
use scope_keys::KeyFile;
use std::alloc::{AllocError, Global};

/// The bars of a connection whose ends have tables; whether there is no finding.
fn push_both(
    alloc: Global,
    out: &mut Vec<u8>,
    ends: &Connected,
    tables: &Tables,
    plan: &Plan,
) -> Result<bool, AllocError>
    ensures text { OnOk result (out.new.items ≡ out.old.items
        ++ both_bars ends.now.tables.a.now ends.now.tables.b.now ends.now.pair plan.now
        (plan_findings tables.now plan.now ends.now.pair)) }
    ensures good { IfOk result (λ good. good ≡ has_none (plan_findings tables.now plan.now ends.now.pair)) }
{
    let findings = findings_by(alloc, tables, &ends.pair, plan)?;
    push_bars(alloc, out, ends, plan, findings.as_slice())?;
    Ok(has_none(findings.as_slice()))
}

/// A connection as it is drawn; whether nothing is wrong with its plan.
#[tactic(auto, unfolding(book_scope_plan::specs::Bars::drawing_text, book_scope_plan::specs::PlanTexts::is_good_plan))]
fn push_drawing(
    alloc: Global,
    out: &mut Vec<u8>,
    tables: &Tables,
    plan: &Plan,
    pair: &Pair,
) -> Result<bool, AllocError>
    ensures text { OnOk result (out.new.items ≡ out.old.items ++ drawing_text tables.now plan.now pair.now) }
    ensures good { IfOk result (λ good. good ≡ is_good_plan tables.now plan.now pair.now) }
{
    push_pair_line(out, pair)?;
    let a = tables.table(&pair.local.address);
    let b = tables.table(&pair.remote.address);
    match (a, b) {
        (Some(a), Some(b)) => {
            let ends = Connected {
                tables: BothEnds { a, b },
                pair: *pair,
            };
            push_both(alloc, out, &ends, tables, plan)
        }
        _ => {
            push_missing(out, a, &pair.local.address)?;
            push_missing(out, b, &pair.remote.address)?;
            Ok(false)
        }
    }
}

/// Whether both ends have nodes, and there is no finding.
fn is_good(a: Option<&Table>, b: Option<&Table>, findings: &[Finding]) -> bool
    ensures { result ≡ ((is_some (option_map (λ t. t.now) a.entry) && is_some (option_map (λ t. t.now) b.entry))
        && has_none findings.now) }
{
    match (a, b) {
        (Some(_), Some(_)) => has_none(findings),
        _ => false,
    }
}

/// The lines of a connection in a picture, from this one on.
#[tactic(auto, unfolding(page_draw_plan_svg::specs::PlanLines::drawing_lines, book_scope_plan::specs::PlanTexts::is_good_plan))]
fn push_pictured(
    alloc: Global,
    out: &mut Vec<u8>,
    line: u32,
    keys: &KeyFile,
    plan: &Plan,
    pair: &Pair,
) -> Result<Written, AllocError>
    requires { line ≤ 4000000000 }
    ensures drawn { IfOk result (λ w. Draws (key_file_of keys.now).document plan.now
        (drawing_lines keys.now.tables plan.now pair.now) out.old.items line out.new.items w.next) }
    ensures few { IfOk result (λ w. w.next ≤ line + 8451) }
    ensures good { IfOk result (λ w. w.is_good ≡ is_good_plan keys.now.tables plan.now pair.now) }
{
    let tables = &keys.tables;
    let a = tables.table(&pair.local.address);
    let b = tables.table(&pair.remote.address);
    let findings = findings_by(alloc, tables, pair, plan)?;
    let paper = Paper {
        document: &keys.document,
        plan: *plan,
    };
    let panel = Panel {
        a,
        b,
        pair: *pair,
        findings: findings.as_slice(),
    };
    let next = push_panel(alloc, out, &paper, line, &panel)?;
    Ok(Written {
        next,
        is_good: is_good(a, b, findings.as_slice()),
    })
}

/// What is said of a connection, in the form; in a picture from this line on.
pub(crate) fn push_connection_as(
    alloc: Global,
    form: PlanForm,
    out: &mut Vec<u8>,
    line: u32,
    keys: &KeyFile,
    plan: &Plan,
    pair: &Pair,
) -> Result<Written, AllocError>
    requires { line ≤ 4000000000 }
    ensures text { OnOk result (out.new.items ≡ out.old.items
        ++ connection_as form (key_file_of keys.now) plan.now line pair.now) }
    ensures next { IfOk result (λ w. w.next ≡ line + lines_as form (key_file_of keys.now) plan.now pair.now) }
    ensures few { IfOk result (λ w. w.next ≤ line + 8451) }
    ensures good { IfOk result (λ w. w.is_good ≡ is_good_plan keys.now.tables plan.now pair.now) }
{
    match form {
        PlanForm::Lines => {
            let is_good = push_connection(alloc, out, keys, plan, pair)?;
            Ok(Written {
                next: line,
                is_good,
            })
        }
        PlanForm::Bars => {
            let is_good = push_drawing(alloc, out, &keys.tables, plan, pair)?;
            Ok(Written {
                next: line,
                is_good,
            })
        }
        PlanForm::Picture => {
            let written = push_pictured(alloc, out, line, keys, plan, pair)?;
            Ok(written)
        }
    }
}

/// The whole text of what is said in the form.
pub(crate) fn framed(
    alloc: Global,
    form: PlanForm,
    keys: &KeyFile,
    planned: Planned,
) -> Result<Bytes, AllocError>
    ensures { IfOk result (λ whole. whole ≡ framed_plan form (key_file_of keys.now) planned) }
{
    match form {
        PlanForm::Lines => Ok(planned.text),
        PlanForm::Bars => {
            let mut out = Vec::new(alloc);
            push_summary_line(&mut out, planned.all, planned.good)?;
            out.extend_from_slice(planned.text.as_slice())?;
            Ok(Bytes::from_vec(out))
        }
        PlanForm::Picture => {
            let width = picture_width(alloc, &keys.document, &keys.tables)?;
            let mut out = Vec::new(alloc);
            push_front(&mut out, width, planned.lines)?;
            push_summary(&mut out, planned.all, planned.good)?;
            out.extend_from_slice(planned.text.as_slice())?;
            push_end(&mut out)?;
            Ok(Bytes::from_vec(out))
        }
    }
}
