//! The bars of a connection.
ghost use Rattle.std.specs.Prelude.{◌≡◌, ◌++◌, OnOk, codes, decimal};
ghost use Rattle.book_scope_plan.specs.Bars.{bar_line, both_bars, scale_line, scale_words, summary_line};
ghost use Rattle.book_scope_plan.specs.Bars.{summary_words, wrong_bytes, wrong_text};
ghost use Rattle.book_scope_plan.specs.Slices.{slices_of};

use crate::bars::push_bar_lines;
use crate::order::bars_of;
use crate::slices::{slice_width, slices_of};
use crate::wrong::{Connected, push_wrong_bytes};
use ao_base::push_decimal;
use book_keys::Plan;
use book_plans::Finding;
use book_scope_plan::Slice;
use plan_texts::push_times;
use std::alloc::{AllocError, Global};

/// From when to when the bars go, and how many seconds a slice has.
fn push_scale_words(out: &mut Vec<u8>, plan: &Plan) -> Result<(), AllocError>
    ensures { OnOk result (out.new.items ≡ out.old.items ++ scale_words plan.now) }
{
    push_times(out, plan.from, plan.to)?;
    out.extend_from_slice(b", a column is ")?;
    push_decimal(out, slice_width(plan.from, plan.to))?;
    out.extend_from_slice(b" s")?;
    Ok(())
}

/// The line that says so.
#[tactic(auto, unfolding(book_scope_plan::specs::Bars::scale_line))]
fn push_scale(out: &mut Vec<u8>, plan: &Plan) -> Result<(), AllocError>
    ensures { OnOk result (out.new.items ≡ out.old.items ++ scale_line plan.now) }
{
    out.extend_from_slice(b"  ")?;
    push_scale_words(out, plan)?;
    out.push(b'\n')?;
    Ok(())
}

/// A number and what it counts.
fn push_count(out: &mut Vec<u8>, number: u32, words: &[u8]) -> Result<(), AllocError>
    ensures { OnOk result (out.new.items ≡ out.old.items ++ (decimal number ++ words.now)) }
{
    push_decimal(out, u64::from(number))?;
    out.extend_from_slice(words)
}

/// Puts behind `out` how many connections there are, and how many are wrong, where with `good` nothing is. An error
/// only when out of memory.
#[tactic(auto, unfolding(book_scope_plan::specs::Bars::summary_words))]
pub fn push_summary_words(out: &mut Vec<u8>, all: u32, good: u32) -> Result<(), AllocError>
    ensures { OnOk result (out.new.items ≡ out.old.items ++ summary_words all good) }
{
    push_count(out, all, b" connections, ")?;
    push_count(out, all.saturating_sub(good), b" of them wrong")?;
    Ok(())
}

/// Puts the line behind `out` that says so, where there are two or more. An error only when out of memory.
#[tactic(auto, unfolding(book_scope_plan::specs::Bars::summary_line))]
pub fn push_summary_line(out: &mut Vec<u8>, all: u32, good: u32) -> Result<(), AllocError>
    ensures { OnOk result (out.new.items ≡ out.old.items ++ summary_line all good) }
{
    if 1 < all {
        push_summary_words(out, all, good)?;
        out.push(b'\n')?;
    }
    Ok(())
}

/// The line that marks the slices in which something is wrong.
#[tactic(auto, unfolding(book_scope_plan::specs::Bars::bar_line))]
fn push_wrong(
    out: &mut Vec<u8>,
    ends: &Connected,
    findings: &[Finding],
    slices: &[Slice],
) -> Result<(), AllocError>
    ensures { OnOk result (out.new.items ≡ out.old.items ++ bar_line
        (wrong_bytes ends.now.tables.a.now ends.now.tables.b.now ends.now.pair findings.now slices.now)
        (codes "wrong")) }
{
    out.extend_from_slice(b"  |")?;
    push_wrong_bytes(out, ends, findings, slices)?;
    out.extend_from_slice(b"| ")?;
    out.extend_from_slice(b"wrong")?;
    out.push(b'\n')?;
    Ok(())
}

/// The line that marks what is wrong, where something is.
fn push_wrong_if(
    out: &mut Vec<u8>,
    ends: &Connected,
    plan: &Plan,
    findings: &[Finding],
    slices: &[Slice],
) -> Result<(), AllocError>
    requires { slices.now ≡ slices_of plan.now.from plan.now.to }
    ensures { OnOk result (out.new.items ≡ out.old.items ++ wrong_text ends.now.tables.a.now ends.now.tables.b.now
        ends.now.pair plan.now findings.now) }
{
    match findings {
        [] => Ok(()),
        [_, ..] => push_wrong(out, ends, findings, slices),
    }
}

/// Puts the bars of a connection behind `out`, those of `bars_of` in order, each of at most 48 slices: `#` is a
/// slice in each second of which the row does so, `+` one in some of which. Below them, where there is a finding,
/// each slice is marked in which one is seen: a row that isn't met at the other end may send in it, or a gap has a
/// second of it. An error only when out of memory.
#[tactic(auto, unfolding(book_scope_plan::specs::Bars::both_bars))]
pub fn push_bars(
    alloc: Global,
    out: &mut Vec<u8>,
    ends: &Connected,
    plan: &Plan,
    findings: &[Finding],
) -> Result<(), AllocError>
    ensures { OnOk result (out.new.items ≡ out.old.items ++ both_bars ends.now.tables.a.now ends.now.tables.b.now
        ends.now.pair plan.now findings.now) }
{
    let slices = slices_of(alloc, plan.from, plan.to)?;
    let bars = bars_of(alloc, ends.tables.a, ends.tables.b, &ends.pair, plan)?;
    push_scale(out, plan)?;
    push_bar_lines(out, ends, plan, slices.as_slice(), bars.as_slice())?;
    push_wrong_if(out, ends, plan, findings, slices.as_slice())
}
