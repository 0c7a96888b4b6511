//! The elements of a picture: each segment in its row.
ghost use Rattle.std.specs.Prelude.{◌≡◌, ◌++◌, IfOk, OnOk, codes};
ghost use Rattle.page_draw_svg.specs.SessionPictures.{rung_arrow_svg, outcome_dashes, rung_drawing_svg};
ghost use Rattle.page_draw_svg.specs.SessionPictures.{rung_svg, upright_column, rung_label_column};
ghost use Rattle.page_draw_svg.specs.SessionPictures.{rung_label_height, rung_label_svg, rung_margin_column};
ghost use Rattle.page_draw_svg.specs.SessionPictures.{rung_margin_height, rung_margin_svg, rung_numbers};
ghost use Rattle.page_draw_svg.specs.SessionPictures.{rung_packet_svg, rung_in_row, rung_height, rung_title};
ghost use Rattle.book_draw.specs.SessionLadders.{said_texts};
ghost use Rattle.book_lines.specs.Texts.{spaced};

use crate::lines::{NANOSECONDS, key_id_of, push_label, push_outcome, push_time, reached_end};
use ao_base::push_decimal;
use book_base::End;
use book_draw::{SessionEnds, SessionRung};
use book_sessions::SegmentOutcome;
use both_ends::{is_same_end, other};
use page_svg::{Point, push_line, push_titled, push_words};
use scope_texts::push_instant;
use std::alloc::{AllocError, Global};
use text_lines::push_field;

/// The height of a row.
pub(crate) fn rung_height(row: u32) -> u64
    ensures { result ≡ rung_height row }
{
    24 * u64::from(row) + 116
}

fn rung_label_height(row: u32) -> u64
    ensures { result ≡ rung_label_height row }
{
    24 * u64::from(row) + 111
}

pub(crate) fn rung_margin_height(row: u32) -> u64
    ensures { result ≡ rung_margin_height row }
{
    24 * u64::from(row) + 120
}

/// The column of an end's stroke.
pub(crate) fn upright_column(end: End) -> u64
    ensures { result ≡ upright_column end }
{
    match end {
        End::A => 230,
        End::B => 570,
    }
}

fn rung_margin_column(end: End) -> u64
    ensures { result ≡ rung_margin_column end }
{
    match end {
        End::A => 222,
        End::B => 578,
    }
}

pub(crate) fn rung_label_column(end: End) -> u64
    ensures { result ≡ rung_label_column end }
{
    match end {
        End::A => 240,
        End::B => 560,
    }
}

/// The dashes of an arrow.
pub(crate) fn outcome_dashes(said: SegmentOutcome) -> &'static [u8]
    ensures { result.now ≡ outcome_dashes said }
{
    match said {
        SegmentOutcome::Verified => b"",
        SegmentOutcome::Refused(_) => b" stroke-dasharray=\"12 5\"",
        SegmentOutcome::NoNode => b" stroke-dasharray=\"12 5\"",
        SegmentOutcome::TooMany => b" stroke-dasharray=\"12 5\"",
        SegmentOutcome::Unconfirmed => b" stroke-dasharray=\"2 4\"",
        SegmentOutcome::UnconfirmedRefused(_) => b" stroke-dasharray=\"12 5\"",
        SegmentOutcome::CutOff => b" stroke-dasharray=\"12 5\"",
    }
}

/// The attributes of an arrow.
fn push_tip(out: &mut Vec<u8>, said: SegmentOutcome) -> Result<(), AllocError>
    ensures { OnOk result
        (out.new.items ≡ out.old.items ++ (codes " marker-end=\"url(#tip)\"" ++ outcome_dashes said)) }
{
    out.extend_from_slice(b" marker-end=\"url(#tip)\"")?;
    out.extend_from_slice(outcome_dashes(said))?;
    Ok(())
}

/// The arrow of a row to the end.
fn push_arrow(out: &mut Vec<u8>, at: End, row: u32, said: SegmentOutcome) -> Result<(), AllocError>
    ensures { OnOk result (out.new.items ≡ out.old.items ++ rung_arrow_svg at row said) }
{
    let y = rung_height(row);
    let mut attributes = Vec::new(*out.allocator());
    push_tip(&mut attributes, said)?;
    let from = Point {
        x: upright_column(other(at)),
        y,
    };
    let to = Point {
        x: upright_column(at),
        y,
    };
    push_line(out, from, to, attributes.as_slice())
}

/// The words on the arrow of a row, at the side of the end that sends.
fn push_label_words(
    out: &mut Vec<u8>,
    sender: End,
    row: u32,
    words: &[u8],
) -> Result<(), AllocError>
    ensures { OnOk result (out.new.items ≡ out.old.items ++ rung_label_svg sender row words.now) }
{
    let at = Point {
        x: rung_label_column(sender),
        y: rung_label_height(row),
    };
    push_words(out, at, is_same_end(sender, End::B), words)
}

/// The words beside an end in a row.
pub(crate) fn push_margin_words(
    out: &mut Vec<u8>,
    end: End,
    row: u32,
    words: &[u8],
) -> Result<(), AllocError>
    ensures { OnOk result (out.new.items ≡ out.old.items ++ rung_margin_svg end row words.now) }
{
    let at = Point {
        x: rung_margin_column(end),
        y: rung_margin_height(row),
    };
    push_words(out, at, is_same_end(end, End::A), words)
}

/// The number of a packet at the left of its row.
pub(crate) fn push_packet(out: &mut Vec<u8>, row: u32, packet: u64) -> Result<(), AllocError>
    ensures { OnOk result (out.new.items ≡ out.old.items ++ rung_packet_svg row packet) }
{
    let mut number = Vec::new(*out.allocator());
    push_decimal(&mut number, packet)?;
    let y = rung_margin_height(row);
    push_words(out, Point { x: 8, y }, false, number.as_slice())
}

/// What is drawn of a segment that comes to the end.
#[tactic(auto, unfolding(page_draw_svg::specs::SessionPictures::rung_drawing_svg))]
fn drawing_of(alloc: Global, at: End, row: u32, rung: &SessionRung) -> Result<Vec<u8>, AllocError>
    ensures { IfOk result (λ text. text.items ≡ rung_drawing_svg at (rung_in_row row rung.now)) }
{
    let mut label = Vec::new(alloc);
    push_label(&mut label, rung)?;
    let mut said = Vec::new(alloc);
    push_outcome(&mut said, rung.outcome)?;
    let mut time = Vec::new(alloc);
    push_time(&mut time, rung.time)?;
    let mut out = Vec::new(alloc);
    push_arrow(&mut out, at, row, rung.outcome)?;
    push_label_words(&mut out, other(at), row, label.as_slice())?;
    push_margin_words(&mut out, at, row, said.as_slice())?;
    push_margin_words(&mut out, other(at), row, time.as_slice())?;
    push_packet(&mut out, row, rung.packet)?;
    Ok(out)
}

/// The numbers of a segment.
#[tactic(auto, unfolding(page_draw_svg::specs::SessionPictures::rung_numbers))]
fn push_numbers(out: &mut Vec<u8>, rung: &SessionRung) -> Result<(), AllocError>
    ensures { OnOk result (out.new.items ≡ out.old.items ++ rung_numbers rung.now) }
{
    push_field(out, b"packet", rung.packet)?;
    push_field(out, b"ns", rung.time % NANOSECONDS)?;
    push_field(out, b"seq", u64::from(rung.sequence))?;
    push_field(out, b"ack", u64::from(rung.acknowledgement))
}

/// The title of a segment.
#[tactic(auto, unfolding(page_draw_svg::specs::SessionPictures::rung_title))]
fn title_of(alloc: Global, rung: &SessionRung) -> Result<Vec<u8>, AllocError>
    ensures { IfOk result (λ text. text.items ≡ rung_title rung.now) }
{
    let mut text = Vec::new(alloc);
    push_instant(&mut text, rung.time / NANOSECONDS)?;
    push_numbers(&mut text, rung)?;
    push_label(&mut text, rung)?;
    push_outcome(&mut text, rung.outcome)?;
    Ok(text)
}

/// Puts the element of a segment between these ends behind `out`.
#[tactic(auto, unfolding(page_draw_svg::specs::SessionPictures::rung_svg))]
pub(crate) fn push_element(
    out: &mut Vec<u8>,
    ends: &SessionEnds,
    row: u32,
    rung: &SessionRung,
) -> Result<(), AllocError>
    ensures { OnOk result (out.new.items ≡ out.old.items ++ rung_svg ends.now (rung_in_row row rung.now)) }
{
    let title = title_of(*out.allocator(), rung)?;
    let at = reached_end(ends, rung);
    let drawing = drawing_of(*out.allocator(), at, row, rung)?;
    let key_id = key_id_of(rung.ids);
    push_titled(
        out,
        b"segment",
        key_id,
        title.as_slice(),
        drawing.as_slice(),
    )
}
