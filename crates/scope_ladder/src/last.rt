//! What is drawn when all is read: how many segments are left out, or the picture. And how the drawing ends.
ghost use Rattle.std.specs.Prelude.{◌≡◌, IfOk, List};
ghost use Rattle.ao_base.specs.Outside.{Side};
ghost use Rattle.book_draw.specs.Times.{left_runs};
ghost use Rattle.book_draw.specs.declared.session_rung.SessionRung.{SessionRung as Segment};
ghost use Rattle.page_draw_svg.specs.SessionPictures.{picture_between};
ghost use Rattle.scope_ladder.specs.Drawing.{last_text};
ghost use Rattle.scope_ladder.specs.Searches.{Seeks, Tells};
ghost use Rattle.scope_ladder.specs.Writing.{EndsBy, WritesLast};

use crate::draw::LadderHalt;
use crate::drawer::Drawer;
use crate::search::Search;
use ao_base::{Failed, Sink, write_all};
use capture_walk::{WalkEnd, WalkHalt};
use draw_session_rungs::{print_left, print_session_svg};
use page_draw_svg::LadderForm;
use std::alloc::AllocError;

// Whether the session was found, at the capture's end.
fn told(search: &Search) -> Result<(), LadderHalt>
    ensures { (rs : List Segment) → Seeks search.now rs → Tells search.now.number rs result }
{
    match search.found {
        Some(_) => Ok(()),
        None => Err(LadderHalt::NoSession(search.known.len())),
    }
}

// The picture of the segments that were kept; nothing where the session wasn't found.
fn kept_picture(drawer: &Drawer) -> Result<Vec<u8>, AllocError>
    ensures { IfOk result (λ text. text.items
        ≡ picture_between drawer.now.search.found drawer.now.kept.items (left_runs drawer.now.within drawer.now.left)) }
{
    match drawer.search.found {
        None => Ok(Vec::new(drawer.alloc)),
        Some(ends) => print_session_svg(
            drawer.alloc,
            &ends,
            drawer.kept.as_slice(),
            drawer.within,
            drawer.left,
        ),
    }
}

// What is drawn when all is read.
fn last_text(drawer: &Drawer) -> Result<Vec<u8>, AllocError>
    ensures { IfOk result (λ text. text.items ≡ last_text drawer.now) }
{
    match drawer.form {
        LadderForm::Text => print_left(drawer.alloc, drawer.within, drawer.left),
        LadderForm::Picture => kept_picture(drawer),
    }
}

// Writes what is drawn when all is read, and tells this then.
fn write_last<O: Sink>(
    drawer: &Drawer,
    out: &mut O,
    after: Result<(), LadderHalt>,
) -> Result<(), LadderHalt>
    ensures { WritesLast (last_text drawer.now) (O.side out.old) (O.side out.new) after result }
{
    let text = match last_text(drawer) {
        Ok(text) => text,
        Err(_) => return Err(LadderHalt::Walk(WalkHalt::Memory)),
    };
    match write_all(out, text.as_slice()) {
        Ok(()) => after,
        Err(Failed) => Err(LadderHalt::Walk(WalkHalt::Write)),
    }
}

/// Ends the drawing of a capture whose walk ended so: what is drawn when all is read is written, unless a write failed
/// before or memory ran out.
pub(crate) fn finish<O: Sink>(
    drawer: &Drawer,
    walked: Result<WalkEnd, WalkHalt>,
    out: &mut O,
) -> Result<(), LadderHalt>
    ensures { EndsBy drawer.now (O.side out.old) (O.side out.new) walked result }
{
    match walked {
        Ok(_) => write_last(drawer, out, told(&drawer.search)),
        Err(WalkHalt::Broken(fault)) => write_last(
            drawer,
            out,
            Err(LadderHalt::Walk(WalkHalt::Broken(fault))),
        ),
        Err(WalkHalt::TooLong) => write_last(drawer, out, Err(LadderHalt::Walk(WalkHalt::TooLong))),
        Err(WalkHalt::Read) => write_last(drawer, out, Err(LadderHalt::Walk(WalkHalt::Read))),
        Err(WalkHalt::Write) => Err(LadderHalt::Walk(WalkHalt::Write)),
        Err(WalkHalt::Memory) => Err(LadderHalt::Walk(WalkHalt::Memory)),
    }
}
