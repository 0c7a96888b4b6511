//! A rung in its place.
ghost use Rattle.std.specs.Prelude.{◌≡◌, ℕ, List, IfOk};
ghost use Rattle.book_draw.specs.declared.rung.Rung.{Rung as Step};
ghost use Rattle.page_draw_svg.specs.Placements.{label_of_rung, placed_at, start_of_rung, stroke_of_brought};
ghost use Rattle.page_draw_svg.specs.Placements.{stroke_of_rung};
ghost use Rattle.draw_ladder.specs.Sights.{Saw};
ghost use Rattle.scope_draw.specs.Kept.{Keeps};

use crate::past::Past;
use book_base::Bytes;
use book_draw::{Brought, Rung};
use draw_ladder::{Seen, push_arrival, push_sketch, rung_comes};
use page_draw_svg::{Placed, Start, Stroke};
use std::alloc::{AllocError, Global};

/// The stroke of what came.
fn stroke_of_brought(past: &Past, what: Brought) -> Stroke
    ensures { (row : ℕ) (rs : List Step) → Keeps past.now row rs → result ≡ stroke_of_brought rs what }
{
    match what {
        Brought::Segment(number) => {
            if past.seen.has_come(number) {
                Stroke::Again
            } else {
                Stroke::Whole
            }
        }
        Brought::Altered(_) => Stroke::Altered,
        Brought::Injected => Stroke::Injected,
    }
}

/// The stroke of a rung.
fn stroke_of(all: &Seen, past: &Past, rung: &Rung) -> Stroke
    ensures { (rs earlier : List Step) (row : ℕ) → Saw all.now rs → Keeps past.now row earlier
        → result ≡ stroke_of_rung rs earlier rung.now }
{
    match rung {
        Rung::Made(_, _, _) => {
            if rung_comes(all, rung) {
                Stroke::Whole
            } else {
                Stroke::Lost
            }
        }
        Rung::Came(_, what, _) => stroke_of_brought(past, *what),
        _ => Stroke::Whole,
    }
}

/// What is written on the arrow of a rung.
fn label_of(alloc: Global, past: &Past, rung: &Rung) -> Result<Bytes, AllocError>
    ensures { IfOk result (λ text. (row : ℕ) (rs : List Step) → Keeps past.now row rs
        → text ≡ label_of_rung rs rung.now) }
{
    let mut label = Vec::new(alloc);
    match rung {
        Rung::Made(_, sketch, _) => push_sketch(&mut label, sketch)?,
        Rung::Came(end, what, _) => push_arrival(&mut label, *end, &past.seen, *what)?,
        _ => {}
    }
    Ok(Bytes::from_vec(label))
}

/// Where the arrow of a rung at which something came begins.
fn arrow_start(past: &Past, rung: &Rung) -> Option<Start>
    ensures { (row : ℕ) (rs : List Step) → Keeps past.now row rs → result ≡ start_of_rung rs rung.now }
{
    match rung {
        Rung::Came(_, what, _) => past.start_of_brought(*what),
        _ => None,
    }
}

/// The rung in its place in this row, behind what was seen.
pub(crate) fn placed_at(
    alloc: Global,
    all: &Seen,
    past: &Past,
    row: u32,
    rung: &Rung,
) -> Result<Placed, AllocError>
    ensures { IfOk result (λ p. (rs earlier : List Step) → Saw all.now rs → Keeps past.now row earlier
        → p ≡ placed_at rs earlier rung.now) }
{
    let label = label_of(alloc, past, rung)?;
    Ok(Placed {
        rung: *rung,
        row,
        label,
        stroke: stroke_of(all, past, rung),
        start: arrow_start(past, rung),
    })
}
