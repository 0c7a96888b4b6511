//! What stands in front of the rungs of a picture.
ghost use Rattle.std.specs.Prelude.{◌≡◌, ◌++◌, OnOk, codes};
ghost use Rattle.page_draw_svg.specs.Pictures.{dash_attribute, lost_tip_svg, sample_svg, samples_svg, tip_svg};
ghost use Rattle.page_draw_svg.specs.Pictures.{tips_svg, upright_svg};

use crate::arrows::dash_attribute;
use crate::positions::end_column;
use book_base::End;
use page_draw_svg::Stroke;
use page_svg::{Point, push_line, push_words};
use std::alloc::AllocError;

/// The tip of an arrow that comes.
#[tactic(auto, unfolding(page_draw_svg::specs::Pictures::tip_svg))]
fn push_tip(out: &mut Vec<u8>) -> Result<(), AllocError>
    ensures { OnOk result (out.new.items ≡ out.old.items ++ tip_svg) }
{
    out.extend_from_slice(b"<marker id=\"tip\" viewBox=\"0 0 10 10\" refX=\"9\" refY=\"5\" ")?;
    out.extend_from_slice(
        b"markerUnits=\"userSpaceOnUse\" markerWidth=\"10\" markerHeight=\"10\" ",
    )?;
    out.extend_from_slice(
        b"orient=\"auto\"><path d=\"M0 0L10 5L0 10z\" stroke=\"none\"/></marker>",
    )?;
    Ok(())
}

/// The tip of an arrow that never comes.
#[tactic(auto, unfolding(page_draw_svg::specs::Pictures::lost_tip_svg))]
fn push_lost_tip(out: &mut Vec<u8>) -> Result<(), AllocError>
    ensures { OnOk result (out.new.items ≡ out.old.items ++ lost_tip_svg) }
{
    out.extend_from_slice(b"<marker id=\"lost\" viewBox=\"0 0 10 10\" refX=\"5\" refY=\"5\" ")?;
    out.extend_from_slice(
        b"markerUnits=\"userSpaceOnUse\" markerWidth=\"10\" markerHeight=\"10\">",
    )?;
    out.extend_from_slice(
        b"<path d=\"M1 1L9 9M9 1L1 9\" stroke=\"#000\" fill=\"none\"/></marker>",
    )?;
    Ok(())
}

/// The tips of arrows.
#[tactic(auto, unfolding(page_draw_svg::specs::Pictures::tips_svg))]
pub(crate) fn push_tips(out: &mut Vec<u8>) -> Result<(), AllocError>
    ensures { OnOk result (out.new.items ≡ out.old.items ++ tips_svg) }
{
    out.extend_from_slice(b"<defs>")?;
    push_tip(out)?;
    push_lost_tip(out)?;
    out.extend_from_slice(b"</defs>\n")
}

/// The attributes of a sample of a stroke.
fn push_black(out: &mut Vec<u8>, stroke: Stroke) -> Result<(), AllocError>
    ensures { OnOk result (out.new.items ≡ out.old.items ++ (codes " stroke=\"#000\"" ++ dash_attribute stroke)) }
{
    out.extend_from_slice(b" stroke=\"#000\"")?;
    out.extend_from_slice(dash_attribute(stroke))?;
    Ok(())
}

/// The sample of a stroke, in this column, with its name.
#[tactic(auto, unfolding(page_draw_svg::specs::Pictures::sample_svg))]
fn push_sample(
    out: &mut Vec<u8>,
    column: u16,
    stroke: Stroke,
    name: &[u8],
) -> Result<(), AllocError>
    ensures { OnOk result (out.new.items ≡ out.old.items ++ sample_svg column stroke name.now) }
{
    let x = u64::from(column);
    let mut attributes = Vec::new(*out.allocator());
    push_black(&mut attributes, stroke)?;
    let from = Point { x, y: 20 };
    let to = Point { x: x + 50, y: 20 };
    push_line(out, from, to, attributes.as_slice())?;
    push_words(out, Point { x: x + 60, y: 24 }, false, name)
}

/// The strokes and their names.
#[tactic(auto, unfolding(page_draw_svg::specs::Pictures::samples_svg))]
pub(crate) fn push_samples(out: &mut Vec<u8>) -> Result<(), AllocError>
    ensures { OnOk result (out.new.items ≡ out.old.items ++ samples_svg) }
{
    push_sample(out, 20, Stroke::Whole, b"comes")?;
    push_sample(out, 170, Stroke::Lost, b"is lost")?;
    push_sample(out, 320, Stroke::Again, b"comes again")?;
    push_sample(out, 490, Stroke::Altered, b"altered")?;
    push_sample(out, 640, Stroke::Injected, b"injected")?;
    Ok(())
}

/// The upright stroke of an end, of this height, and its name.
#[tactic(auto, unfolding(page_draw_svg::specs::Pictures::upright_svg))]
pub(crate) fn push_upright(
    out: &mut Vec<u8>,
    height: u64,
    end: End,
    name: &[u8],
) -> Result<(), AllocError>
    ensures { OnOk result (out.new.items ≡ out.old.items ++ upright_svg height end name.now) }
{
    let x = end_column(end);
    push_line(
        out,
        Point { x, y: 66 },
        Point { x, y: height },
        b" stroke=\"#000\"",
    )?;
    push_words(out, Point { x, y: 58 }, false, name)?;
    Ok(())
}
