//! The marks of what is wrong.
ghost use Rattle.std.specs.Prelude.{◌≡◌, ◌++◌, IfOk, OnOk, codes, flat_map};
ghost use Rattle.page_draw_plan_svg.specs.PlanPictures.{finding_svg, mark_svg, span_mark, wrong_svg};
ghost use Rattle.book_scope_plan.specs.FindingTexts.{times_text};
ghost use Rattle.draw_plan.specs.Draws.{judged_of};

use crate::places::{bars_height, push_line_words};
use crate::spans::{finding_span, span_width, start_column};
use crate::wrong::Connected;
use book_plans::Finding;
use book_scope_plan::Slice;
use page_svg::{Point, push_box, push_titled};
use plan_texts::push_times;
use std::alloc::{AllocError, Global};

/// The title of a mark.
fn mark_title(alloc: Global, slice: &Slice) -> Result<Vec<u8>, AllocError>
    ensures { IfOk result (λ text. text.items ≡ codes "wrong " ++ times_text slice.now.first slice.now.last) }
{
    let mut text = Vec::new(alloc);
    text.extend_from_slice(b"wrong ")?;
    push_times(&mut text, slice.first, slice.last)?;
    Ok(text)
}

/// The mark of the seconds at which something is wrong.
#[tactic(auto, unfolding(page_draw_plan_svg::specs::PlanPictures::mark_svg))]
fn push_mark(out: &mut Vec<u8>, line: u32, time: &Slice, slice: &Slice) -> Result<(), AllocError>
    ensures { OnOk result (out.new.items ≡ out.old.items ++ mark_svg line time.now slice.now) }
{
    let title = mark_title(*out.allocator(), slice)?;
    let at = Point {
        x: start_column(time, slice.first),
        y: bars_height(line),
    };
    let width = span_width(time, slice).max(3);
    let mut drawing = Vec::new(*out.allocator());
    push_box(&mut drawing, at, width, 12, b" fill=\"#000\"")?;
    push_titled(out, b"wrong", None, title.as_slice(), drawing.as_slice())
}

/// The mark of these seconds, where there are some.
fn push_span_mark(
    out: &mut Vec<u8>,
    line: u32,
    time: &Slice,
    span: Option<Slice>,
) -> Result<(), AllocError>
    ensures { OnOk result (out.new.items ≡ out.old.items ++ span_mark line time.now span) }
{
    match span {
        None => Ok(()),
        Some(span) => push_mark(out, line, time, &span),
    }
}

/// The marks of all findings on a connection.
fn push_marks(
    out: &mut Vec<u8>,
    line: u32,
    time: &Slice,
    ends: &Connected,
    findings: &[Finding],
) -> Result<(), AllocError>
    ensures { OnOk result (out.new.items ≡ out.old.items ++ flat_map
        (finding_svg line time.now (judged_of ends.now findings.now)) findings.now) }
{
    for finding in findings {
        push_span_mark(out, line, time, finding_span(ends, time, *finding))?;
    }
    Ok(())
}

/// The marks of all that doesn't hold of a plan.
#[tactic(auto, unfolding(page_draw_plan_svg::specs::PlanPictures::wrong_svg))]
pub(crate) fn push_wrong(
    out: &mut Vec<u8>,
    line: u32,
    time: &Slice,
    ends: &Connected,
    findings: &[Finding],
) -> Result<(), AllocError>
    ensures { OnOk result (out.new.items ≡ out.old.items ++ wrong_svg line time.now (judged_of ends.now findings.now)) }
{
    push_line_words(out, line, b"wrong")?;
    out.push(b'\n')?;
    push_marks(out, line, time, ends, findings)
}
