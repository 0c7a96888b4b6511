//! The elements of runs of segments, and those of lines.
ghost use Rattle.std.specs.Prelude.{◌≡◌, ◌++◌, ◌∷◌, IfOk, OnOk, None, decimal, false};
ghost use Rattle.book_base.specs.declared.end.End.TheVariants.{A};
ghost use Rattle.book_draw.specs.Folds.{run_label};
ghost use Rattle.book_draw.specs.SessionLadders.{time_margin};
ghost use Rattle.page_draw_svg.specs.SessionPictures.{line_element, run_drawing_svg, run_svg, run_title};
ghost use Rattle.page_draw_svg.specs.SessionPictures.{rung_label_column, rung_margin_height};
ghost use Rattle.page_svg.specs.Tags.{words_tag};

use crate::elements::{
    push_element, push_margin_words, push_packet, rung_label_column, rung_margin_height,
};
use crate::fold::push_run_label;
use crate::left::push_left;
use crate::lines::push_time;
use ao_base::push_decimal;
use book_base::End;
use book_draw::{RungRun, SessionEnds, SessionLine};
use page_svg::{Point, push_titled, push_words};
use std::alloc::{AllocError, Global};

/// The title of a run.
#[tactic(auto, unfolding(page_draw_svg::specs::SessionPictures::run_title))]
fn title_of_run(alloc: Global, run: &RungRun) -> Result<Vec<u8>, AllocError>
    ensures { IfOk result (λ text. text.items ≡ run_title run.now) }
{
    let mut text = Vec::new(alloc);
    text.extend_from_slice(b"packets ")?;
    push_decimal(&mut text, run.first.packet)?;
    text.extend_from_slice(b" to ")?;
    push_decimal(&mut text, run.last.packet)?;
    push_time(&mut text, run.first.time)?;
    text.extend_from_slice(b" to")?;
    push_time(&mut text, run.last.time)?;
    push_run_label(&mut text, run)?;
    Ok(text)
}

/// The words of a run between the ends.
fn push_run_words(out: &mut Vec<u8>, row: u32, run: &RungRun) -> Result<(), AllocError>
    ensures { OnOk result (out.new.items ≡ out.old.items
        ++ words_tag (record { x = rung_label_column A; y = rung_margin_height row }) false (run_label run.now)) }
{
    let mut words = Vec::new(*out.allocator());
    push_run_label(&mut words, run)?;
    let at = Point {
        x: rung_label_column(End::A),
        y: rung_margin_height(row),
    };
    push_words(out, at, false, words.as_slice())
}

/// When the last segment of a run was seen, and the number of its packet.
fn last_words(alloc: Global, run: &RungRun) -> Result<Vec<u8>, AllocError>
    ensures { IfOk result (λ text. text.items ≡ time_margin run.now.last.time ++ (32 ∷ decimal run.now.last.packet)) }
{
    let mut text = Vec::new(alloc);
    push_time(&mut text, run.last.time)?;
    text.push(b' ')?;
    push_decimal(&mut text, run.last.packet)?;
    Ok(text)
}

/// What is drawn of a run in its row.
#[tactic(auto, unfolding(page_draw_svg::specs::SessionPictures::run_drawing_svg))]
fn drawing_of_run(alloc: Global, row: u32, run: &RungRun) -> Result<Vec<u8>, AllocError>
    ensures { IfOk result (λ text. text.items ≡ run_drawing_svg row run.now) }
{
    let mut first = Vec::new(alloc);
    push_time(&mut first, run.first.time)?;
    let last = last_words(alloc, run)?;
    let mut out = Vec::new(alloc);
    push_run_words(&mut out, row, run)?;
    push_margin_words(&mut out, End::A, row, first.as_slice())?;
    push_margin_words(&mut out, End::B, row, last.as_slice())?;
    push_packet(&mut out, row, run.first.packet)?;
    Ok(out)
}

/// Puts the element of a run in its row behind `out`.
fn push_run(out: &mut Vec<u8>, row: u32, run: &RungRun) -> Result<(), AllocError>
    ensures { OnOk result (out.new.items ≡ out.old.items ++ run_svg row run.now) }
{
    let title = title_of_run(*out.allocator(), run)?;
    let drawing = drawing_of_run(*out.allocator(), row, run)?;
    push_titled(out, b"more", None, title.as_slice(), drawing.as_slice())
}

/// Puts the element of a line between these ends in its row behind `out`.
pub(crate) fn push_line_element(
    out: &mut Vec<u8>,
    ends: &SessionEnds,
    row: u32,
    line: &SessionLine,
) -> Result<(), AllocError>
    ensures { OnOk result (out.new.items ≡ out.old.items ++ line_element ends.now row line.now) }
{
    match line {
        SessionLine::Whole(rung) => push_element(out, ends, row, rung),
        SessionLine::More(run) => push_run(out, row, run),
        SessionLine::Left(left) => push_left(out, row, left),
    }
}
