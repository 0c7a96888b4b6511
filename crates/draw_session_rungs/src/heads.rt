//! What stands in front of the segments of a picture.
ghost use Rattle.std.specs.Prelude.{◌≡◌, ◌++◌, OnOk, codes};
ghost use Rattle.book_draw.specs.SessionLadders.{end_name};
ghost use Rattle.page_draw_svg.specs.SessionPictures.{outcome_dashes, session_front_svg, outcome_sample_svg};
ghost use Rattle.page_draw_svg.specs.SessionPictures.{outcome_samples_svg, arrow_tip_svg};
ghost use Rattle.page_draw_svg.specs.SessionPictures.{session_upright_svg, session_uprights_svg};
ghost use Rattle.page_svg.specs.Tags.{words_tag};

use crate::elements::{outcome_dashes, rung_height, upright_column};
use crate::keys::push_key_samples;
use crate::lines::push_end;
use book_base::{End, Socket};
use book_draw::SessionEnds;
use book_sessions::SegmentOutcome;
use page_svg::{Point, push_head, push_line, push_words};
use std::alloc::AllocError;

/// The tip of an arrow.
#[tactic(auto, unfolding(page_draw_svg::specs::SessionPictures::arrow_tip_svg))]
fn push_tip(out: &mut Vec<u8>) -> Result<(), AllocError>
    ensures { OnOk result (out.new.items ≡ out.old.items ++ arrow_tip_svg) }
{
    out.extend_from_slice(
        b"<defs><marker id=\"tip\" viewBox=\"0 0 10 10\" refX=\"9\" refY=\"5\" ",
    )?;
    out.extend_from_slice(
        b"markerUnits=\"userSpaceOnUse\" markerWidth=\"10\" markerHeight=\"10\" ",
    )?;
    out.extend_from_slice(
        b"orient=\"auto\"><path d=\"M0 0L10 5L0 10z\" stroke=\"none\"/></marker></defs>\n",
    )?;
    Ok(())
}

/// The attributes of a sample of a stroke.
fn push_black(out: &mut Vec<u8>, said: SegmentOutcome) -> Result<(), AllocError>
    ensures { OnOk result (out.new.items ≡ out.old.items ++ (codes " stroke=\"#000\"" ++ outcome_dashes said)) }
{
    out.extend_from_slice(b" stroke=\"#000\"")?;
    out.extend_from_slice(outcome_dashes(said))?;
    Ok(())
}

/// The sample of a stroke, in this column, with its name.
#[tactic(auto, unfolding(page_draw_svg::specs::SessionPictures::outcome_sample_svg))]
fn push_sample(
    out: &mut Vec<u8>,
    column: u16,
    said: SegmentOutcome,
    name: &[u8],
) -> Result<(), AllocError>
    ensures { OnOk result (out.new.items ≡ out.old.items ++ outcome_sample_svg column said name.now) }
{
    let x = u64::from(column);
    let mut attributes = Vec::new(*out.allocator());
    push_black(&mut attributes, said)?;
    let from = Point { x, y: 20 };
    let to = Point { x: x + 50, y: 20 };
    push_line(out, from, to, attributes.as_slice())?;
    push_words(out, Point { x: x + 60, y: 24 }, false, name)
}

/// The strokes and their names.
#[tactic(auto, unfolding(page_draw_svg::specs::SessionPictures::outcome_samples_svg))]
fn push_samples(out: &mut Vec<u8>) -> Result<(), AllocError>
    ensures { OnOk result (out.new.items ≡ out.old.items ++ outcome_samples_svg) }
{
    push_sample(out, 20, SegmentOutcome::Verified, b"verified")?;
    push_sample(out, 170, SegmentOutcome::Unconfirmed, b"unconfirmed")?;
    push_sample(out, 340, SegmentOutcome::NoNode, b"refused, or not judged")?;
    Ok(())
}

/// The upright stroke of an end, of this height.
fn push_upright(out: &mut Vec<u8>, height: u64, end: End) -> Result<(), AllocError>
    ensures { OnOk result (out.new.items ≡ out.old.items ++ session_upright_svg height end) }
{
    let x = upright_column(end);
    push_line(
        out,
        Point { x, y: 94 },
        Point { x, y: height },
        b" stroke=\"#000\"",
    )
}

/// The name of an end, which begins or ends at the point.
fn push_name(out: &mut Vec<u8>, at: Point, ends: bool, socket: &Socket) -> Result<(), AllocError>
    ensures { OnOk result (out.new.items ≡ out.old.items ++ words_tag at ends (end_name socket.now)) }
{
    let mut name = Vec::new(*out.allocator());
    push_end(&mut name, socket)?;
    push_words(out, at, ends, name.as_slice())
}

/// The two ends, of this height, with their names.
#[tactic(auto, unfolding(page_draw_svg::specs::SessionPictures::session_uprights_svg))]
fn push_uprights(out: &mut Vec<u8>, ends: &SessionEnds, height: u64) -> Result<(), AllocError>
    ensures { OnOk result (out.new.items ≡ out.old.items ++ session_uprights_svg ends.now height) }
{
    push_upright(out, height, End::A)?;
    push_upright(out, height, End::B)?;
    push_name(out, Point { x: 200, y: 72 }, false, &ends.left)?;
    push_name(out, Point { x: 600, y: 88 }, true, &ends.right)
}

/// Puts what stands in front of so many segments with these keys behind `out`.
#[tactic(auto, unfolding(page_draw_svg::specs::SessionPictures::session_front_svg))]
pub(crate) fn push_front(
    out: &mut Vec<u8>,
    ends: &SessionEnds,
    keys: &[Option<u8>],
    count: u32,
) -> Result<(), AllocError>
    ensures { OnOk result (out.new.items ≡ out.old.items ++ session_front_svg ends.now keys.now count) }
{
    let height = rung_height(count);
    push_head(out, height)?;
    push_tip(out)?;
    push_samples(out)?;
    push_key_samples(out, keys)?;
    push_uprights(out, ends, height)
}
