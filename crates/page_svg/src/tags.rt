//! Tags of SVG, and text between them.
ghost use Rattle.std.specs.Prelude.{◌≡◌, ◌++◌, OnOk, decimal, flat_map};
ghost use Rattle.page_svg.specs.Tags.{anchor_text, box_tag, colour_text, dot_tag, escaped, escaped_byte, line_tag};
ghost use Rattle.page_svg.specs.Tags.{titled_tag, words_tag};

use crate::point::Point;
use ao_base::push_decimal;
use std::alloc::AllocError;

fn push_escaped_byte(out: &mut Vec<u8>, byte: u8) -> Result<(), AllocError>
    ensures { OnOk result (out.new.items ≡ out.old.items ++ escaped_byte byte) }
{
    match byte {
        b'<' => out.extend_from_slice(b"&lt;"),
        b'>' => out.extend_from_slice(b"&gt;"),
        b'&' => out.extend_from_slice(b"&amp;"),
        b'"' => out.extend_from_slice(b"&quot;"),
        _ => {
            out.push(byte)?;
            Ok(())
        }
    }
}

/// The text as it is written between tags.
fn push_escaped(out: &mut Vec<u8>, text: &[u8]) -> Result<(), AllocError>
    ensures { OnOk result (out.new.items ≡ out.old.items ++ escaped text.now) }
{
    for byte in text {
        push_escaped_byte(out, *byte)?;
    }
    Ok(())
}

/// A piece of a tag and a number behind it.
pub(crate) fn push_numbered(out: &mut Vec<u8>, piece: &[u8], number: u64) -> Result<(), AllocError>
    ensures { OnOk result (out.new.items ≡ out.old.items ++ (piece.now ++ decimal number)) }
{
    out.extend_from_slice(piece)?;
    push_decimal(out, number)
}

/// Puts a line from one point to another behind `out`, with further attributes, each of which begins with a
/// space. An error only for want of memory.
#[tactic(auto, unfolding(crate::specs::Tags::line_tag))]
pub fn push_line(
    out: &mut Vec<u8>,
    from: Point,
    to: Point,
    attributes: &[u8],
) -> Result<(), AllocError>
    ensures { OnOk result (out.new.items ≡ out.old.items ++ line_tag from to attributes.now) }
{
    push_numbered(out, b"<line x1=\"", from.x)?;
    push_numbered(out, b"\" y1=\"", from.y)?;
    push_numbered(out, b"\" x2=\"", to.x)?;
    push_numbered(out, b"\" y2=\"", to.y)?;
    out.extend_from_slice(b"\"")?;
    out.extend_from_slice(attributes)?;
    out.extend_from_slice(b"/>")
}

/// Puts a box behind `out` whose upper left corner is the point, with further attributes, each of which begins
/// with a space. An error only for want of memory.
#[tactic(auto, unfolding(crate::specs::Tags::box_tag))]
pub fn push_box(
    out: &mut Vec<u8>,
    at: Point,
    width: u64,
    height: u64,
    attributes: &[u8],
) -> Result<(), AllocError>
    ensures { OnOk result (out.new.items ≡ out.old.items ++ box_tag at width height attributes.now) }
{
    push_numbered(out, b"<rect x=\"", at.x)?;
    push_numbered(out, b"\" y=\"", at.y)?;
    push_numbered(out, b"\" width=\"", width)?;
    push_numbered(out, b"\" height=\"", height)?;
    out.extend_from_slice(b"\"")?;
    out.extend_from_slice(attributes)?;
    out.extend_from_slice(b"/>")?;
    Ok(())
}

/// Puts a dot behind `out`. An error only for want of memory.
#[tactic(auto, unfolding(crate::specs::Tags::dot_tag))]
pub fn push_dot(out: &mut Vec<u8>, at: Point) -> Result<(), AllocError>
    ensures { OnOk result (out.new.items ≡ out.old.items ++ dot_tag at) }
{
    push_numbered(out, b"<circle cx=\"", at.x)?;
    push_numbered(out, b"\" cy=\"", at.y)?;
    out.extend_from_slice(b"\" r=\"3\"/>")?;
    Ok(())
}

fn anchor_text(ends: bool) -> &'static [u8]
    ensures { result.now ≡ anchor_text ends }
{
    if ends {
        b"\" text-anchor=\"end\">"
    } else {
        b"\">"
    }
}

/// Puts words behind `out` that begin at the point, or end there; they are escaped. An error only for want of
/// memory.
#[tactic(auto, unfolding(crate::specs::Tags::words_tag))]
pub fn push_words(out: &mut Vec<u8>, at: Point, ends: bool, words: &[u8]) -> Result<(), AllocError>
    ensures { OnOk result (out.new.items ≡ out.old.items ++ words_tag at ends words.now) }
{
    push_numbered(out, b"<text x=\"", at.x)?;
    push_numbered(out, b"\" y=\"", at.y)?;
    out.extend_from_slice(anchor_text(ends))?;
    push_escaped(out, words)?;
    out.extend_from_slice(b"</text>")
}

/// Puts the colour of a KeyID behind `out`; black for none. An error only for want of memory.
#[tactic(auto, unfolding(crate::specs::Tags::colour_text))]
pub fn push_colour(out: &mut Vec<u8>, key_id: Option<u8>) -> Result<(), AllocError>
    ensures { OnOk result (out.new.items ≡ out.old.items ++ colour_text key_id) }
{
    match key_id {
        None => out.extend_from_slice(b"#000"),
        Some(id) => {
            push_numbered(out, b"hsl(", u64::from(id) * 137 % 360)?;
            out.extend_from_slice(b",90%,32%)")
        }
    }
}

/// Puts a group that has a title behind `out`: its class, the KeyID of the colour of its strokes, or none, its
/// title, which is escaped, and what is drawn of it, which isn't. An error only for want of memory.
#[tactic(auto, unfolding(crate::specs::Tags::titled_tag))]
pub fn push_titled(
    out: &mut Vec<u8>,
    class: &[u8],
    key_id: Option<u8>,
    title: &[u8],
    drawing: &[u8],
) -> Result<(), AllocError>
    ensures { OnOk result (out.new.items ≡ out.old.items ++ titled_tag class.now (colour_text key_id) title.now
        drawing.now) }
{
    out.extend_from_slice(b"<g class=\"")?;
    out.extend_from_slice(class)?;
    out.extend_from_slice(b"\" stroke=\"")?;
    push_colour(out, key_id)?;
    out.extend_from_slice(b"\"><title>")?;
    push_escaped(out, title)?;
    out.extend_from_slice(b"</title>")?;
    out.extend_from_slice(drawing)?;
    out.extend_from_slice(b"</g>\n")?;
    Ok(())
}
