//! The segments that are left out of a session.
ghost use Rattle.std.specs.Prelude.{◌≡◌, ◌++◌, IfOk, OnOk, map};
ghost use Rattle.book_draw.specs.Folds.{line_of_left};
ghost use Rattle.book_draw.specs.SessionLadders.{left_line, left_text};
ghost use Rattle.book_draw.specs.Times.{left_at, left_runs, left_words, segments_word, side_word};
ghost use Rattle.page_draw_svg.specs.SessionPictures.{left_svg};

use crate::elements::{rung_label_column, rung_margin_height};
use ao_base::push_decimal;
use book_base::End;
use book_draw::{DrawnTime, LeftOut, LeftRun, LeftSide, SessionLine};
use page_svg::{Point, push_titled, push_words};
use scope_texts::push_instant;
use std::alloc::{AllocError, Global};

fn side_word(side: LeftSide) -> &'static [u8]
    ensures { result.now ≡ side_word side }
{
    match side {
        LeftSide::Before => b" before ",
        LeftSide::After => b" after ",
    }
}

fn segments_word(count: u64) -> &'static [u8]
    ensures { result.now ≡ segments_word count }
{
    if count == 1 {
        b" segment"
    } else {
        b" segments"
    }
}

// Puts the words of segments that are left out behind `out`.
fn push_left_words(out: &mut Vec<u8>, left: &LeftRun) -> Result<(), AllocError>
    ensures { OnOk result (out.new.items ≡ out.old.items ++ left_words left.now) }
{
    push_decimal(out, left.count)?;
    out.extend_from_slice(segments_word(left.count))?;
    out.extend_from_slice(side_word(left.side))?;
    push_instant(out, left.time)
}

// Puts the segments that are left out on a side of this second behind others, where there is one.
fn push_left_at(
    runs: &mut Vec<LeftRun>,
    side: LeftSide,
    count: u64,
    time: u64,
) -> Result<(), AllocError>
    ensures { OnOk result (runs.new.items ≡ runs.old.items ++ left_at side count time) }
{
    if count == 0 {
        return Ok(());
    }
    runs.push(LeftRun { side, count, time })?;
    Ok(())
}

// The segments that a time leaves out, side by side.
fn left_runs(alloc: Global, within: DrawnTime, left: LeftOut) -> Result<Vec<LeftRun>, AllocError>
    ensures { IfOk result (λ runs. runs.items ≡ left_runs within left) }
{
    let mut runs = Vec::new(alloc);
    push_left_at(&mut runs, LeftSide::Before, left.before, within.from)?;
    push_left_at(&mut runs, LeftSide::After, left.after, within.to)?;
    Ok(runs)
}

// Puts the line of segments that are left out behind `out`.
fn push_left_line(out: &mut Vec<u8>, left: &LeftRun) -> Result<(), AllocError>
    ensures { OnOk result (out.new.items ≡ out.old.items ++ left_line left.now) }
{
    push_left_words(out, left)?;
    out.push(b'\n')?;
    Ok(())
}

/// The lines of the segments that a time leaves out. An error only for want of memory.
pub fn print_left(alloc: Global, within: DrawnTime, left: LeftOut) -> Result<Vec<u8>, AllocError>
    ensures { IfOk result (λ text. text.items ≡ left_text within left) }
{
    let runs = left_runs(alloc, within, left)?;
    let mut out = Vec::new(alloc);
    for run in runs.as_slice() {
        push_left_line(&mut out, run)?;
    }
    Ok(out)
}

/// Puts the lines of a picture of the segments that a time leaves out behind others.
pub(crate) fn push_left_lines(
    lines: &mut Vec<SessionLine>,
    within: DrawnTime,
    left: LeftOut,
) -> Result<(), AllocError>
    ensures { OnOk result (lines.new.items ≡ lines.old.items ++ map line_of_left (left_runs within left)) }
{
    let runs = left_runs(*lines.allocator(), within, left)?;
    for run in runs.as_slice() {
        lines.push(SessionLine::Left(*run))?;
    }
    Ok(())
}

/// Puts the element of segments that are left out, in its row, behind `out`.
pub(crate) fn push_left(out: &mut Vec<u8>, row: u32, left: &LeftRun) -> Result<(), AllocError>
    ensures { OnOk result (out.new.items ≡ out.old.items ++ left_svg row left.now) }
{
    let mut words = Vec::new(*out.allocator());
    push_left_words(&mut words, left)?;
    let at = Point {
        x: rung_label_column(End::A),
        y: rung_margin_height(row),
    };
    let mut drawing = Vec::new(*out.allocator());
    push_words(&mut drawing, at, false, words.as_slice())?;
    push_titled(out, b"left-out", None, words.as_slice(), drawing.as_slice())
}
