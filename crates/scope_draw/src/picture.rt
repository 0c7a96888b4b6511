//! The picture of a ladder.
ghost use Rattle.std.specs.Prelude.{◌≡◌, ◌≤◌, ◌++◌, List, [], IfOk, OnOk, flat_map, length};
ghost use Rattle.book_draw.specs.declared.rung.Rung.{Rung as Step};
ghost use Rattle.page_draw_svg.specs.Pictures.{drawn_as, element_svg, front_svg, svg_text, uprights_svg};
ghost use Rattle.page_draw_svg.specs.Placements.{placements_from};
ghost use Rattle.draw_ladder.specs.Sights.{Saw};

use crate::arrows::push_element;
use crate::heads::{push_samples, push_tips, push_upright};
use crate::past::Past;
use crate::places::placed_at;
use crate::positions::row_height;
use book_base::{Bytes, End};
use book_draw::Rung;
use draw_ladder::{Seen, print_ladder};
use page_draw_svg::Form;
use page_svg::push_head;
use std::alloc::{AllocError, Global};

/// Puts the elements of all rungs behind `out`.
fn push_elements(
    alloc: Global,
    out: &mut Vec<u8>,
    all: &Seen,
    rungs: &[Rung],
) -> Result<(), AllocError>
    requires { length rungs.now ≤ 100000 }
    ensures { OnOk result ((rs : List Step) → Saw all.now rs → out.new.items
        ≡ out.old.items ++ flat_map element_svg (placements_from rs [] rungs.now)) }
{
    let mut past = Past::new(alloc);
    for (index, rung) in rungs.iter().enumerate() {
        let placed = placed_at(alloc, all, &past, index as u32, rung)?;
        push_element(out, &placed)?;
        past.see(index as u32, rung)?;
    }
    Ok(())
}

/// The two ends.
fn push_uprights(out: &mut Vec<u8>, height: u64) -> Result<(), AllocError>
    ensures { OnOk result (out.new.items ≡ out.old.items ++ uprights_svg height) }
{
    push_upright(out, height, End::A, b"a")?;
    push_upright(out, height, End::B, b"b")
}

/// What stands in front of the elements of so many rungs.
#[tactic(auto, unfolding(page_draw_svg::specs::Pictures::front_svg))]
fn push_front(out: &mut Vec<u8>, count: u32) -> Result<(), AllocError>
    ensures { OnOk result (out.new.items ≡ out.old.items ++ front_svg count) }
{
    let height = row_height(count);
    push_head(out, height)?;
    push_tips(out)?;
    push_samples(out)?;
    push_uprights(out, height)
}

/// The picture of the ladder of these rungs, at most 100,000, in SVG. An error only for want of memory.
#[tactic(auto, unfolding(page_draw_svg::specs::Pictures::svg_text))]
pub fn print_svg(alloc: Global, rungs: &[Rung]) -> Result<Bytes, AllocError>
    requires { length rungs.now ≤ 100000 }
    ensures { IfOk result (λ text. text ≡ svg_text rungs.now) }
{
    let all = Seen::of(alloc, rungs)?;
    let mut out = Vec::new(alloc);
    push_front(&mut out, rungs.len() as u32)?;
    push_elements(alloc, &mut out, &all, rungs)?;
    out.extend_from_slice(b"</svg>\n")?;
    Ok(Bytes::from_vec(out))
}

/// The rungs, at most 100,000, drawn in the form. An error only for want of memory.
pub fn draw_rungs_as(alloc: Global, form: Form, rungs: &[Rung]) -> Result<Bytes, AllocError>
    requires { length rungs.now ≤ 100000 }
    ensures { IfOk result (λ text. text ≡ drawn_as form rungs.now) }
{
    match form {
        Form::Text => print_ladder(alloc, rungs),
        Form::Svg => print_svg(alloc, rungs),
    }
}
