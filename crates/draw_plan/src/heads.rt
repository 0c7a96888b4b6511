//! What stands around the lines of a picture.
ghost use Rattle.std.specs.Prelude.{◌≡◌, ◌++◌, OnOk, codes, decimal};
ghost use Rattle.book_scope_plan.specs.Bars.{summary_words};
ghost use Rattle.page_draw_plan_svg.specs.PlanPictures.{picture_height, plan_head, plan_size, summary_svg};
ghost use Rattle.page_svg.specs.Tags.{style_svg};

use crate::picture::push_summary_words;
use ao_base::push_decimal;
use page_svg::{Point, push_words};
use std::alloc::AllocError;

fn picture_height(count: u32) -> u64
    ensures { result ≡ picture_height count }
{
    36 * u64::from(count) + 30
}

/// A piece of a tag and a number after it.
fn push_numbered(out: &mut Vec<u8>, piece: &[u8], number: u64) -> Result<(), AllocError>
    ensures { OnOk result (out.new.items ≡ out.old.items ++ (piece.now ++ decimal number)) }
{
    out.extend_from_slice(piece)?;
    push_decimal(out, number)
}

/// How words and the page look, as in each picture.
#[tactic(auto, unfolding(page_svg::specs::Tags::style_svg))]
fn push_style(out: &mut Vec<u8>) -> Result<(), AllocError>
    ensures { OnOk result (out.new.items ≡ out.old.items ++ style_svg) }
{
    out.extend_from_slice(
        b"<style>text{stroke:#fff;stroke-width:3px;paint-order:stroke}svg{max-width:100%;",
    )?;
    out.extend_from_slice(b"height:auto;background:#fff}</style>\n")
}

/// How wide and how high a picture is.
#[tactic(auto, unfolding(page_draw_plan_svg::specs::PlanPictures::plan_size))]
fn push_size(out: &mut Vec<u8>, width: u64, height: u64) -> Result<(), AllocError>
    ensures { OnOk result (out.new.items ≡ out.old.items ++ plan_size width height) }
{
    push_numbered(
        out,
        b"<svg xmlns=\"http://www.w3.org/2000/svg\" width=\"",
        width,
    )?;
    push_numbered(out, b"\" height=\"", height)?;
    push_numbered(out, b"\" viewBox=\"0 0 ", width)?;
    push_numbered(out, b" ", height)?;
    Ok(())
}

#[tactic(auto, unfolding(page_draw_plan_svg::specs::PlanPictures::plan_head))]
fn push_head(out: &mut Vec<u8>, width: u64, height: u64) -> Result<(), AllocError>
    ensures { OnOk result (out.new.items ≡ out.old.items ++ plan_head width height) }
{
    push_size(out, width, height)?;
    out.extend_from_slice(
        b"\" font-family=\"monospace\" font-size=\"12\" stroke-width=\"1.5\">\n",
    )?;
    push_style(out)?;
    Ok(())
}

/// Puts the head of a picture of this width and so many lines behind `out`. An error only when out of memory.
pub fn push_front(out: &mut Vec<u8>, width: u64, count: u32) -> Result<(), AllocError>
    ensures { OnOk result (out.new.items ≡ out.old.items ++ plan_head width (picture_height count)) }
{
    push_head(out, width, picture_height(count))
}

/// Puts behind `out` how many connections there are and with how many nothing is wrong, where there are two or
/// more: it stands above the lines. An error only when out of memory.
#[tactic(auto, unfolding(page_draw_plan_svg::specs::PlanPictures::summary_svg))]
pub fn push_summary(out: &mut Vec<u8>, all: u32, good: u32) -> Result<(), AllocError>
    ensures { OnOk result (out.new.items ≡ out.old.items ++ summary_svg all good) }
{
    if 1 < all {
        let mut words = Vec::new(*out.allocator());
        push_summary_words(&mut words, all, good)?;
        push_words(out, Point { x: 20, y: 16 }, false, words.as_slice())?;
        out.push(b'\n')?;
    }
    Ok(())
}

/// Puts the end of a picture behind `out`. An error only when out of memory.
pub fn push_end(out: &mut Vec<u8>) -> Result<(), AllocError>
    ensures { OnOk result (out.new.items ≡ out.old.items ++ codes "</svg>\n") }
{
    out.extend_from_slice(b"</svg>\n")
}
