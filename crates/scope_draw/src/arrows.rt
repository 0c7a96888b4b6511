//! The elements of rungs.
ghost use Rattle.std.specs.Prelude.{◌≡◌, ◌++◌, IfOk, OnOk, Some, codes, option_map};
ghost use Rattle.page_draw_svg.specs.Pictures.{arrow_svg, came_label, dash_attribute, element_svg, is_whole};
ghost use Rattle.page_draw_svg.specs.Pictures.{label_svg, leaving_svg, margin_svg, reaching_svg, words_beside};
ghost use Rattle.page_svg.specs.Tags.{colour_text, titled_tag};

use crate::positions::{
    end_column, is_at_once, label_column, label_height, lost_column, lost_height, margin_column,
    margin_height, row_height, start_column, start_row,
};
use book_base::End;
use book_draw::Rung;
use both_ends::is_same_end;
use draw_ladder::{push_margin, rung_end};
use page_draw_svg::{Placed, Start, Stroke};
use page_svg::{Point, push_dot, push_line, push_titled, push_words};
use std::alloc::{AllocError, Global};

/// The dashes of a stroke.
pub(crate) fn dash_attribute(stroke: Stroke) -> &'static [u8]
    ensures { result.now ≡ dash_attribute stroke }
{
    match stroke {
        Stroke::Whole => b"",
        Stroke::Lost => b" stroke-dasharray=\"2 4\" marker-end=\"url(#lost)\"",
        Stroke::Again => b" stroke-dasharray=\"12 4\"",
        Stroke::Altered => b" stroke-dasharray=\"12 3 2 3\"",
        Stroke::Injected => b" stroke-dasharray=\"5 3\" stroke-width=\"3.5\"",
    }
}

/// The words beside a rung whose arrow has this stroke.
fn push_beside(out: &mut Vec<u8>, stroke: Stroke, rung: &Rung) -> Result<(), AllocError>
    ensures { OnOk result (out.new.items ≡ out.old.items ++ words_beside stroke rung.now) }
{
    match stroke {
        Stroke::Lost => push_margin(out, false, rung),
        Stroke::Whole => push_margin(out, true, rung),
        Stroke::Again => push_margin(out, true, rung),
        Stroke::Altered => push_margin(out, true, rung),
        Stroke::Injected => push_margin(out, true, rung),
    }
}

/// The words on an arrow, at the side of the end.
fn push_label(out: &mut Vec<u8>, end: End, placed: &Placed) -> Result<(), AllocError>
    ensures { OnOk result (out.new.items ≡ out.old.items ++ label_svg end placed.now) }
{
    let at = Point {
        x: label_column(end),
        y: label_height(placed.row),
    };
    push_words(out, at, is_same_end(end, End::B), placed.label.as_slice())
}

/// What is drawn of a segment that is made.
fn push_leaving(out: &mut Vec<u8>, end: End, row: u32, stroke: Stroke) -> Result<(), AllocError>
    ensures { OnOk result (out.new.items ≡ out.old.items ++ leaving_svg end row stroke) }
{
    let at = Point {
        x: end_column(end),
        y: row_height(row),
    };
    let lost = Point {
        x: lost_column(end),
        y: lost_height(row),
    };
    match stroke {
        Stroke::Lost => push_line(out, at, lost, dash_attribute(stroke)),
        Stroke::Whole => push_dot(out, at),
        Stroke::Again => push_dot(out, at),
        Stroke::Altered => push_dot(out, at),
        Stroke::Injected => push_dot(out, at),
    }
}

/// The attributes of an arrow that comes.
fn push_tip(out: &mut Vec<u8>, stroke: Stroke) -> Result<(), AllocError>
    ensures { OnOk result
        (out.new.items ≡ out.old.items ++ (codes " marker-end=\"url(#tip)\"" ++ dash_attribute stroke)) }
{
    out.extend_from_slice(b" marker-end=\"url(#tip)\"")?;
    out.extend_from_slice(dash_attribute(stroke))?;
    Ok(())
}

/// The arrow of what comes.
fn push_reaching(out: &mut Vec<u8>, end: End, placed: &Placed) -> Result<(), AllocError>
    ensures { OnOk result (out.new.items ≡ out.old.items ++ reaching_svg end placed.now) }
{
    let from = Point {
        x: start_column(end, placed.start),
        y: row_height(start_row(placed.row, placed.start)),
    };
    let to = Point {
        x: end_column(end),
        y: row_height(placed.row),
    };
    let mut attributes = Vec::new(*out.allocator());
    push_tip(&mut attributes, placed.stroke)?;
    push_line(out, from, to, attributes.as_slice())
}

/// The title of an arrow.
fn title_of(alloc: Global, placed: &Placed) -> Result<Vec<u8>, AllocError>
    ensures { IfOk result (λ text. text.items ≡ placed.now.label ++ words_beside placed.now.stroke placed.now.rung) }
{
    let mut text = Vec::new(alloc);
    text.extend_from_slice(placed.label.as_slice())?;
    push_beside(&mut text, placed.stroke, &placed.rung)?;
    Ok(text)
}

/// What is drawn of a segment that is made, and its label.
fn made_drawing(alloc: Global, end: End, placed: &Placed) -> Result<Vec<u8>, AllocError>
    ensures { IfOk result (λ text. text.items ≡ leaving_svg end placed.now.row placed.now.stroke
        ++ label_svg end placed.now) }
{
    let mut text = Vec::new(alloc);
    push_leaving(&mut text, end, placed.row, placed.stroke)?;
    push_label(&mut text, end, placed)?;
    Ok(text)
}

/// The KeyID of the segment whose arrow begins here.
fn key_of(start: Option<Start>) -> Option<u8>
    ensures { result ≡ option_map (λ s. s.key_id) start }
{
    start.map(|start| start.key_id)
}

/// The arrow of what is made, with its title.
fn push_made(out: &mut Vec<u8>, end: End, key_id: u8, placed: &Placed) -> Result<(), AllocError>
    ensures { OnOk result (out.new.items ≡ out.old.items ++ titled_tag (codes "made") (colour_text (Some key_id))
        (placed.now.label ++ words_beside placed.now.stroke placed.now.rung)
        (leaving_svg end placed.now.row placed.now.stroke ++ label_svg end placed.now)) }
{
    let title = title_of(*out.allocator(), placed)?;
    let drawing = made_drawing(*out.allocator(), end, placed)?;
    push_titled(
        out,
        b"made",
        Some(key_id),
        title.as_slice(),
        drawing.as_slice(),
    )
}

/// The arrow of what comes, with its title.
fn push_came(out: &mut Vec<u8>, end: End, placed: &Placed) -> Result<(), AllocError>
    ensures { OnOk result (out.new.items ≡ out.old.items ++ titled_tag (codes "came")
        (colour_text (option_map (λ s. s.key_id) placed.now.start))
        (placed.now.label ++ words_beside placed.now.stroke placed.now.rung)
        (reaching_svg end placed.now)) }
{
    let title = title_of(*out.allocator(), placed)?;
    let mut drawing = Vec::new(*out.allocator());
    push_reaching(&mut drawing, end, placed)?;
    let key_id = key_of(placed.start);
    push_titled(out, b"came", key_id, title.as_slice(), drawing.as_slice())
}

/// The arrow of a rung, where it has one.
fn push_rung_arrow(out: &mut Vec<u8>, placed: &Placed) -> Result<(), AllocError>
    ensures { OnOk result (out.new.items ≡ out.old.items ++ arrow_svg placed.now placed.now.rung) }
{
    match placed.rung {
        Rung::Made(end, sketch, _) => push_made(out, end, sketch.key_id, placed),
        Rung::Came(end, _, _) => push_came(out, end, placed),
        _ => Ok(()),
    }
}

/// Whether this is the stroke of what comes as it was made, for the first time.
fn is_whole(stroke: Stroke) -> bool
    ensures { result ≡ is_whole stroke }
{
    match stroke {
        Stroke::Whole => true,
        Stroke::Lost => false,
        Stroke::Again => false,
        Stroke::Altered => false,
        Stroke::Injected => false,
    }
}

/// The label of what comes, where it stands beside the end.
fn push_came_label(out: &mut Vec<u8>, placed: &Placed) -> Result<(), AllocError>
    ensures { OnOk result (out.new.items ≡ out.old.items ++ came_label placed.now placed.now.rung) }
{
    match placed.rung {
        Rung::Came(_, _, _) => {
            if is_at_once(placed.row, placed.start) && is_whole(placed.stroke) {
                Ok(())
            } else {
                out.extend_from_slice(placed.label.as_slice())
            }
        }
        _ => Ok(()),
    }
}

/// The words beside an end.
fn push_margin_words(out: &mut Vec<u8>, placed: &Placed) -> Result<(), AllocError>
    ensures { OnOk result (out.new.items ≡ out.old.items ++ margin_svg placed.now) }
{
    let end = rung_end(&placed.rung);
    let at = Point {
        x: margin_column(end),
        y: margin_height(placed.row),
    };
    let mut words = Vec::new(*out.allocator());
    push_came_label(&mut words, placed)?;
    push_beside(&mut words, placed.stroke, &placed.rung)?;
    push_words(out, at, is_same_end(end, End::A), words.as_slice())
}

/// The element of a rung.
pub(crate) fn push_element(out: &mut Vec<u8>, placed: &Placed) -> Result<(), AllocError>
    ensures { OnOk result (out.new.items ≡ out.old.items ++ element_svg placed.now) }
{
    push_rung_arrow(out, placed)?;
    push_margin_words(out, placed)?;
    out.push(b'\n')?;
    Ok(())
}
