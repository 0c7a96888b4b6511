//! A session of a capture, each segment drawn before the next packet is read.
ghost use Rattle.std.specs.Prelude.{ℕ, List};
ghost use Rattle.ao_base.specs.Outside.{Side};
ghost use Rattle.scope_ladder.specs.Drawing.{request_of};
ghost use Rattle.scope_ladder.specs.Writing.{Writes};

use crate::drawer::Drawer;
use crate::last::finish;
use ao_base::{Sink, Source};
use book_draw::DrawnTime;
use book_sessions::GivenIsns;
use capture_walk::{CaptureReader, WalkHalt, walk};
use key_table::Tables;
use page_draw_svg::LadderForm;
use std::alloc::Global;

/// Which session of a capture is drawn.
#[derive(Clone, Copy, Debug, PartialEq, Eq)]
pub struct LadderRequest {
    /// In which form.
    pub form: LadderForm,
    /// Over how many laps of the sequence space a segment is judged whose MAC is wrong.
    pub laps: u32,
    /// Its number, the first one being 1.
    pub number: u64,
    /// Within which time its segments were seen that are drawn; all are judged.
    pub within: DrawnTime,
}

/// Why not the session of a whole capture was drawn.
#[derive(Clone, Copy, Debug, PartialEq, Eq)]
pub enum LadderHalt {
    /// The capture has so many sessions, and none of this number.
    NoSession(u64),
    /// The capture wasn't read to its end, or not all was written; or memory ran out.
    Walk(WalkHalt),
}

/// Draws the session of a capture that is asked for, judged by the tables as behind handshakes with the given initial
/// sequence numbers. Of text the lines of each packet are written before the next one is read, and last how many
/// segments are left out before and after the time that is asked for; a picture is written when all is read. Ok
/// at the capture's end.
///
/// NoSession comes exactly where the capture ends and none of its sessions has the number; nothing was written
/// then. Broken comes where the capture has this fault, whatever follows it; Read only where the source's count
/// of faults rose; TooLong only where it gave more than 2^63 bytes. With each of these the session of all
/// packets that were read before is written, and nothing else. Write comes only where the sink's count of
/// faults rose, with a front part of what is drawn of the packets that were read; of text all lines of those before
/// the last one are in it. Memory comes for want of memory, and where a picture would have 2^32 lines or more: of
/// text perhaps without the last packet and what is left out, of a picture with nothing written. With Broken, Read,
/// TooLong, Memory and Write at most 16,842,776 bytes were taken past the last part of the capture that was read.
pub fn draw_session<I: Source, O: Sink>(
    alloc: Global,
    asked: LadderRequest,
    tables: Tables,
    isns: &[GivenIsns],
    input: &mut I,
    out: &mut O,
) -> Result<(), LadderHalt>
    ensures { (given : List ℕ) × Writes (request_of asked tables isns.now) given
        (I.side input.old) (I.side input.new) (O.side out.old) (O.side out.new) result }
{
    let mut reader = match CaptureReader::new(alloc) {
        Ok(reader) => reader,
        Err(_) => return Err(LadderHalt::Walk(WalkHalt::Memory)),
    };
    let mut drawer = match Drawer::new(alloc, asked, tables, isns) {
        Ok(drawer) => drawer,
        Err(_) => return Err(LadderHalt::Walk(WalkHalt::Memory)),
    };
    let walked = walk(&mut reader, &mut drawer, input, out);
    finish(&drawer, walked, out)
}
