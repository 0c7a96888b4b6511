//! The text of a ladder.
ghost use Rattle.std.specs.Prelude.{◌≡◌, ◌<◌, ◌+◌, ◌++◌, List, [], IfOk, OnOk, drop, length};
ghost use Rattle.book_draw.specs.declared.rung.Rung.{Rung as Step};
ghost use Rattle.book_draw.specs.Ladders.{arrival_label, arriving_pen, first_rung, is_clock_of_b, is_in_line};
ghost use Rattle.book_draw.specs.Ladders.{is_one_line, is_one_line_next, ladder_head, ladder_text, made_pen, meets};
ghost use Rattle.book_draw.specs.Ladders.{other_margin, rung_comes, rung_end, rung_line, rung_margin, rung_text};
ghost use Rattle.book_draw.specs.Ladders.{rung_way, rungs_text, sketch_label, way_from, way_to};
ghost use Rattle.draw_ladder.specs.Sights.{Saw};

use crate::fates::{Seen, delivery_of};
use crate::labels::{push_arrival, push_sketch};
use crate::lines::{
    arriving_pen, made_pen, push_blank_way, push_line_at, push_way_from, push_way_to,
};
use crate::margins::{push_answered, push_call, push_clock, push_making, push_phase};
use book_base::{Bytes, End};
use book_draw::{Brought, Delivery, Rung, Sketch};
use both_ends::is_same_end;
use std::alloc::{AllocError, Global};

/// Whether the delivery is of the segment that the other end made.
fn meets(end: End, sketch: &Sketch, delivery: Option<Delivery>) -> bool
    ensures { result ≡ meets end sketch.now delivery }
{
    delivery.is_some_and(|delivery| !is_same_end(end, delivery.at) && sketch.name == delivery.name)
}

fn is_clock_of_b(rung: &Rung) -> bool
    ensures { result ≡ is_clock_of_b rung.now }
{
    match rung {
        Rung::Clock(end, _) => is_same_end(*end, End::B),
        _ => false,
    }
}

/// Whether a rung and the one behind it are one line.
fn is_one_line(rung: &Rung, next: &Rung) -> bool
    ensures { result ≡ is_one_line rung.now next.now }
{
    match rung {
        Rung::Clock(end, _) => is_same_end(*end, End::A) && is_clock_of_b(next),
        Rung::Made(end, sketch, _) => meets(*end, sketch, delivery_of(*next)),
        _ => false,
    }
}

fn is_one_line_next(rung: &Rung, next: Option<Rung>) -> bool
    ensures { result ≡ is_one_line_next rung.now next }
{
    next.is_some_and(|next| is_one_line(rung, &next))
}

fn is_in_line(before: Option<Rung>, rung: &Rung) -> bool
    ensures { result ≡ is_in_line before rung.now }
{
    before.is_some_and(|before| is_one_line(&before, rung))
}

/// The end at which a rung happens.
pub fn rung_end(rung: &Rung) -> End
    ensures { result ≡ rung_end rung.now }
{
    match rung {
        Rung::Clock(end, _) => *end,
        Rung::Made(end, _, _) => *end,
        Rung::Came(end, _, _) => *end,
        Rung::Call(end, _, _) => *end,
        Rung::Turned(end, _) => *end,
    }
}

/// Whether what the rung makes comes, by what is seen of all rungs; true where it makes nothing.
pub fn rung_comes(all: &Seen, rung: &Rung) -> bool
    ensures { (rs : List Step) → Saw all.now rs → result ≡ rung_comes rs rung.now }
{
    match rung {
        Rung::Made(_, sketch, _) => all.has_come(sketch.name),
        _ => true,
    }
}

/// Puts the words beside a rung, which makes a segment that comes, or none, behind `out`.
pub fn push_margin(out: &mut Vec<u8>, comes: bool, rung: &Rung) -> Result<(), AllocError>
    ensures { OnOk result (out.new.items ≡ out.old.items ++ rung_margin comes rung.now) }
{
    match rung {
        Rung::Clock(_, seconds) => push_clock(out, *seconds),
        Rung::Made(_, _, transmission) => push_making(out, *transmission, comes),
        Rung::Came(_, _, answer) => push_answered(out, *answer),
        Rung::Call(_, deed, reply) => push_call(out, *deed, *reply),
        Rung::Turned(_, phase) => push_phase(out, *phase),
    }
}

/// The words of the next rung, where it is one line with this one.
fn push_other(out: &mut Vec<u8>, rung: &Rung, next: Option<Rung>) -> Result<(), AllocError>
    ensures { OnOk result (out.new.items ≡ out.old.items ++ other_margin rung.now next) }
{
    if let Some(next) = next {
        if is_one_line(rung, &next) {
            push_margin(out, true, &next)?;
        }
    }
    Ok(())
}

/// The way of a segment that was made.
fn push_made_way(
    out: &mut Vec<u8>,
    comes: bool,
    at_once: bool,
    end: End,
    sketch: &Sketch,
) -> Result<(), AllocError>
    ensures { OnOk result (out.new.items ≡ out.old.items ++ way_from end (made_pen end comes at_once)
        (sketch_label sketch.now)) }
{
    let mut label = Vec::new(*out.allocator());
    push_sketch(&mut label, sketch)?;
    push_way_from(out, end, made_pen(end, comes, at_once), label.as_slice())
}

/// The way of what came.
fn push_arriving_way(
    out: &mut Vec<u8>,
    seen: &Seen,
    end: End,
    what: Brought,
) -> Result<(), AllocError>
    ensures { OnOk result ((earlier : List Step) → Saw seen.now earlier → out.new.items ≡ out.old.items
        ++ way_to end (arriving_pen end what) (arrival_label end earlier what)) }
{
    let mut label = Vec::new(*out.allocator());
    push_arrival(&mut label, end, seen, what)?;
    push_way_to(out, end, arriving_pen(end, what), label.as_slice())
}

/// The way of a rung, after what was seen.
fn push_way(
    out: &mut Vec<u8>,
    comes: bool,
    at_once: bool,
    seen: &Seen,
    rung: &Rung,
) -> Result<(), AllocError>
    ensures { OnOk result ((earlier : List Step) → Saw seen.now earlier
        → out.new.items ≡ out.old.items ++ rung_way comes at_once earlier rung.now) }
{
    match rung {
        Rung::Made(end, sketch, _) => push_made_way(out, comes, at_once, *end, sketch),
        Rung::Came(end, what, _) => push_arriving_way(out, seen, *end, *what),
        _ => push_blank_way(out),
    }
}

/// The line of a rung, with the next one where it is of both.
fn push_rung_line(
    out: &mut Vec<u8>,
    all: &Seen,
    seen: &Seen,
    rung: &Rung,
    next: Option<Rung>,
) -> Result<(), AllocError>
    ensures { OnOk result ((rs earlier : List Step) → Saw all.now rs → Saw seen.now earlier
        → out.new.items ≡ out.old.items ++ rung_line rs earlier rung.now next) }
{
    let comes = rung_comes(all, rung);
    let mut own = Vec::new(*out.allocator());
    push_margin(&mut own, comes, rung)?;
    let mut way = Vec::new(*out.allocator());
    push_way(&mut way, comes, is_one_line_next(rung, next), seen, rung)?;
    let mut other = Vec::new(*out.allocator());
    push_other(&mut other, rung, next)?;
    push_line_at(
        out,
        rung_end(rung),
        own.as_slice(),
        way.as_slice(),
        other.as_slice(),
    )
}

/// The line of a rung, where it isn't in the line before.
fn push_rung(
    out: &mut Vec<u8>,
    all: &Seen,
    seen: &Seen,
    rung: &Rung,
    next: Option<Rung>,
) -> Result<(), AllocError>
    ensures { OnOk result ((rs earlier : List Step) → Saw all.now rs → Saw seen.now earlier
        → out.new.items ≡ out.old.items ++ rung_text rs earlier rung.now next) }
{
    if is_in_line(seen.last, rung) {
        Ok(())
    } else {
        push_rung_line(out, all, seen, rung, next)
    }
}

/// The names of the two ends.
fn push_head(out: &mut Vec<u8>) -> Result<(), AllocError>
    ensures { OnOk result (out.new.items ≡ out.old.items ++ ladder_head) }
{
    let mut way = Vec::new(*out.allocator());
    push_blank_way(&mut way)?;
    push_line_at(out, End::A, b" a", way.as_slice(), b" b")
}

/// The first of rungs, if there is one.
fn first_rung(rungs: &[Rung]) -> Option<Rung>
    ensures { result ≡ first_rung rungs.now }
{
    match rungs {
        [first, ..] => Some(*first),
        [] => None,
    }
}

/// The rung behind the one at this place, if there is one.
fn rung_after(rungs: &[Rung], index: usize) -> Option<Rung>
    requires { index < length rungs.now }
    ensures { result ≡ first_rung (drop (index + 1) rungs.now) }
{
    first_rung(&rungs[index + 1..])
}

/// Puts the lines of all rungs behind `out`.
fn push_rungs(
    alloc: Global,
    out: &mut Vec<u8>,
    all: &Seen,
    rungs: &[Rung],
) -> Result<(), AllocError>
    ensures { OnOk result ((rs : List Step) → Saw all.now rs → out.new.items
        ≡ out.old.items ++ rungs_text rs [] rungs.now) }
{
    let mut seen = Seen::new(alloc);
    for (index, rung) in rungs.iter().enumerate() {
        push_rung(out, all, &seen, rung, rung_after(rungs, index))?;
        seen.see(*rung)?;
    }
    Ok(())
}

/// The text of the ladder of these rungs. An error only for want of memory.
#[tactic(auto, unfolding(book_draw::specs::Ladders::ladder_text))]
pub fn print_ladder(alloc: Global, rungs: &[Rung]) -> Result<Bytes, AllocError>
    ensures { IfOk result (λ text. text ≡ ladder_text rungs.now) }
{
    let all = Seen::of(alloc, rungs)?;
    let mut out = Vec::new(alloc);
    push_head(&mut out)?;
    push_rungs(alloc, &mut out, &all, rungs)?;
    Ok(Bytes::from_vec(out))
}
