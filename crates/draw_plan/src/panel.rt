//! The lines of a connection.
ghost use Rattle.std.specs.Prelude.{◌≡◌, ◌∷◌, ◌++◌, ◌+◌, ◌≤◌, IfOk, OnOk, length, option_map};
ghost use Rattle.toml.specs.View.{table_view};
ghost use Rattle.book_scope_plan.specs.BarOrders.{plan_time};
ghost use Rattle.page_draw_plan_svg.specs.PlanLines.{both_lines, missing_lines, planned_lines, wrong_lines};
ghost use Rattle.page_draw_plan_svg.specs.PlanLines.{Named as named};
ghost use Rattle.draw_plan.specs.Draws.{Draws, bars_svg, judged_of};

use crate::marks::push_wrong;
use crate::order::{bars_of, plan_time};
use crate::places::push_line_words;
use crate::scale::push_scale;
use crate::svg_bars::push_bar;
use crate::wrong::Connected;
use book_base::{Address, Pair};
use book_keys::Plan;
use book_plans::Finding;
use book_scope_plan::Bar;
use both_ends::BothEnds;
use key_table::Table;
use plan_texts::{push_missing_words, push_pair};
use std::alloc::{AllocError, Global};

/// What all connections of a picture have in common: the document that the key file is, and the plan.
#[derive(Clone, Copy)]
pub struct Paper<'a> {
    pub document: &'a toml::Table,
    pub plan: Plan,
}

/// A connection that is drawn: the nodes of its ends, where there are some, the pair as end A sees it, and what
/// doesn't hold of its plan.
#[derive(Clone, Copy)]
pub struct Panel<'a> {
    pub a: Option<&'a Table>,
    pub b: Option<&'a Table>,
    pub pair: Pair,
    pub findings: &'a [Finding],
}

/// The bars of a connection; the number of the line after them.
fn push_bars(
    out: &mut Vec<u8>,
    paper: &Paper,
    line: u32,
    ends: &Connected,
    bars: &[Bar],
) -> Result<u32, AllocError>
    requires room { line ≤ 4100000000 }
    requires few { length bars.now ≤ 8448 }
    ensures text { OnOk result (out.new.items ≡ out.old.items
        ++ bars_svg (table_view paper.now.document.now) (plan_time paper.now.plan) ends.now line bars.now) }
    ensures next { IfOk result (λ next. next ≡ line + length bars.now) }
{
    let time = plan_time(&paper.plan);
    let mut next = line;
    for bar in bars {
        push_bar(out, paper.document, next, ends.shown(&time, *bar))?;
        next += 1;
    }
    Ok(next)
}

/// The marks of what is wrong, where something is; the number of the line after them.
fn push_wrong_if(
    out: &mut Vec<u8>,
    paper: &Paper,
    line: u32,
    ends: &Connected,
    findings: &[Finding],
) -> Result<u32, AllocError>
    requires { line ≤ 4200000000 }
    ensures drawn { IfOk result (λ next. Draws (table_view paper.now.document.now) paper.now.plan
        (wrong_lines (judged_of ends.now findings.now)) out.old.items line out.new.items next) }
    ensures few { IfOk result (λ next. next ≤ line + 1) }
{
    match findings {
        [] => Ok(line),
        [_, ..] => {
            push_wrong(out, line, &plan_time(&paper.plan), ends, findings)?;
            Ok(line + 1)
        }
    }
}

/// The lines of a connection between two nodes, after its name; the number of the line after them.
fn push_both(
    alloc: Global,
    out: &mut Vec<u8>,
    paper: &Paper,
    line: u32,
    ends: &Connected,
    findings: &[Finding],
) -> Result<u32, AllocError>
    requires { line ≤ 4001000000 }
    ensures drawn { IfOk result (λ next. Draws (table_view paper.now.document.now) paper.now.plan
        (both_lines paper.now.plan (judged_of ends.now findings.now)) out.old.items line out.new.items next) }
    ensures few { IfOk result (λ next. next ≤ line + 8450) }
{
    let bars = bars_of(alloc, ends.tables.a, ends.tables.b, &ends.pair, &paper.plan)?;
    push_scale(out, line, &plan_time(&paper.plan))?;
    let last = push_bars(out, paper, line + 1, ends, bars.as_slice())?;
    let next = push_wrong_if(out, paper, last, ends, findings)?;
    Ok(next)
}

/// That no node has the address, where none has; the number of the line after it.
fn push_missing(
    out: &mut Vec<u8>,
    paper: &Paper,
    line: u32,
    node: Option<&Table>,
    address: &Address,
) -> Result<u32, AllocError>
    requires { line ≤ 4200000000 }
    ensures drawn { IfOk result (λ next. Draws (table_view paper.now.document.now) paper.now.plan
        (missing_lines (option_map (λ t. t.now) node.entry) address.now) out.old.items line out.new.items next) }
    ensures few { IfOk result (λ next. next ≤ line + 1) }
{
    match node {
        Some(_) => Ok(line),
        None => {
            let mut words = Vec::new(*out.allocator());
            push_missing_words(&mut words, address)?;
            push_line_words(out, line, words.as_slice())?;
            out.push(b'\n')?;
            Ok(line + 1)
        }
    }
}

/// The lines of a connection by the nodes of its ends, after its name; the number of the line after them.
fn push_nodes(
    alloc: Global,
    out: &mut Vec<u8>,
    paper: &Paper,
    line: u32,
    panel: &Panel,
) -> Result<u32, AllocError>
    requires { line ≤ 4001000000 }
    ensures drawn { IfOk result (λ next. Draws (table_view paper.now.document.now) paper.now.plan
        (planned_lines (option_map (λ t. t.now) panel.now.a) (option_map (λ t. t.now) panel.now.b)
        paper.now.plan panel.now.pair panel.now.findings.now)
        out.old.items line out.new.items next) }
    ensures few { IfOk result (λ next. next ≤ line + 8450) }
{
    match (panel.a, panel.b) {
        (Some(a), Some(b)) => {
            let ends = Connected {
                tables: BothEnds { a, b },
                pair: panel.pair,
            };
            push_both(alloc, out, paper, line, &ends, panel.findings)
        }
        _ => {
            let next = push_missing(out, paper, line, panel.a, &panel.pair.local.address)?;
            push_missing(out, paper, next, panel.b, &panel.pair.remote.address)
        }
    }
}

/// Puts the lines of a connection behind `out`, the first of which has the number `line`, from 0; the number of
/// the line after them. Its name comes first; then, where both ends have nodes, the time with its dates,
/// the bars of `bars_of` in order, each at the seconds in which its row does so, and, where there is a finding, the
/// marks of the seconds of each; and else that no node has an address. An error only when out of memory.
pub fn push_panel(
    alloc: Global,
    out: &mut Vec<u8>,
    paper: &Paper,
    line: u32,
    panel: &Panel,
) -> Result<u32, AllocError>
    requires { line ≤ 4000000000 }
    ensures drawn { IfOk result (λ next. Draws (table_view paper.now.document.now) paper.now.plan
        (named panel.now.pair ∷ planned_lines (option_map (λ t. t.now) panel.now.a)
        (option_map (λ t. t.now) panel.now.b)
        paper.now.plan panel.now.pair panel.now.findings.now)
        out.old.items line out.new.items next) }
    ensures few { IfOk result (λ next. next ≤ line + 8451) }
{
    let mut words = Vec::new(*out.allocator());
    push_pair(&mut words, &panel.pair)?;
    push_line_words(out, line, words.as_slice())?;
    out.push(b'\n')?;
    push_nodes(alloc, out, paper, line + 1, panel)
}
