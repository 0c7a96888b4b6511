//! The picture of a session.
ghost use Rattle.std.specs.Prelude.{◌≡◌, ◌≤◌, ◌++◌, IfOk, OnOk, flat_map, length};
ghost use Rattle.book_draw.specs.Times.{left_runs};
ghost use Rattle.page_draw_svg.specs.SessionPictures.{session_line_svg, session_lines_picture};
ghost use Rattle.page_draw_svg.specs.SessionPictures.{session_picture, session_rows};

use crate::fold::session_lines;
use crate::heads::push_front;
use crate::keys::keys_drawn;
use crate::left::push_left_lines;
use crate::runs::push_line_element;
use book_draw::{DrawnTime, LeftOut, SessionEnds, SessionLine, SessionRung};
use std::alloc::{AllocError, Global};

/// The most lines of a picture, 2^32 - 1.
const MOST_ROWS: usize = 4_294_967_295;

/// Puts the elements of lines behind `out`.
fn push_elements(
    out: &mut Vec<u8>,
    ends: &SessionEnds,
    lines: &[SessionLine],
) -> Result<(), AllocError>
    requires { length lines.now ≤ 4294967295 }
    ensures { OnOk result (out.new.items ≡ out.old.items ++ flat_map (session_line_svg ends.now)
        (session_rows lines.now)) }
{
    for (index, line) in lines.iter().enumerate() {
        push_line_element(out, ends, index as u32, line)?;
    }
    Ok(())
}

/// The picture of lines between these ends, whose segments have these keys.
#[tactic(auto, unfolding(page_draw_svg::specs::SessionPictures::session_lines_picture))]
fn print_lines(
    alloc: Global,
    ends: &SessionEnds,
    keys: &[Option<u8>],
    lines: &[SessionLine],
) -> Result<Vec<u8>, AllocError>
    ensures { IfOk result (λ text. text.items ≡ session_lines_picture ends.now keys.now lines.now) }
{
    if lines.len() > MOST_ROWS {
        return Err(AllocError);
    }
    let mut out = Vec::new(alloc);
    push_front(&mut out, ends, keys, lines.len() as u32)?;
    push_elements(&mut out, ends, lines)?;
    out.extend_from_slice(b"</svg>\n")?;
    Ok(out)
}

/// The picture of the segments of a session between these ends that were seen within a time, in SVG, with how many
/// it leaves out. An error only for want of memory, and where it would have more than 2^32 - 1 lines.
pub fn print_session_svg(
    alloc: Global,
    ends: &SessionEnds,
    rungs: &[SessionRung],
    within: DrawnTime,
    left: LeftOut,
) -> Result<Vec<u8>, AllocError>
    ensures { IfOk result (λ text. text.items ≡ session_picture ends.now rungs.now (left_runs within left)) }
{
    let keys = keys_drawn(alloc, rungs)?;
    let mut lines = session_lines(alloc, ends, rungs)?;
    push_left_lines(&mut lines, within, left)?;
    print_lines(alloc, ends, keys.as_slice(), lines.as_slice())
}
