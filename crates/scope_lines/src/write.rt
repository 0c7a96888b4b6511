//! The lines of a capture, each written before the next packet is read.
ghost use Rattle.std.specs.Prelude.{◌≡◌, ℕ, List};
ghost use Rattle.ao_base.specs.Outside.{Side};
ghost use Rattle.scope_lines.specs.Writes.{Writes, lines_ended};

use crate::line::print_line;
use ao_base::{Sink, Source};
use capture_walk::{
    CaptureFault, CaptureReader, HearHalt, Heard, Hearer, WalkEnd, WalkHalt, tell, walk,
};
use std::alloc::Global;

/// Why not the lines of a whole capture were written.
#[derive(Clone, Copy, Debug, PartialEq, Eq)]
pub enum LinesHalt {
    /// The capture is faulty here.
    Broken(CaptureFault),
    /// The source gave more than 2^63 bytes.
    TooLong,
    /// A read failed.
    Read,
    /// A write failed.
    Write,
    /// Memory ran out.
    Memory,
}

/// Writes the line of each packet that it hears. It keeps the room for one line.
#[derive(Drop)]
struct LineWriter {
    line: Vec<u8>,
}

impl Hearer for LineWriter {
    ghost use Rattle.book_captures.specs.PacketLines.{packet_lines};

    ghost Asked = { Unit {0} };

    ghost told = { λ q. packet_lines };

    ghost stands = { λ q writer packets. Unit {0} };

    ghost stops = { λ q writer packets last. ⊥ };

    fn hear<O: Sink>(&mut self, shown: &CaptureReader, out: &mut O) -> Result<Heard, HearHalt> {
        match print_line(&mut self.line, shown) {
            Ok(()) => tell(self.line.as_slice(), out),
            Err(_) => Err(HearHalt::Memory),
        }
    }
}

// How the lines end where the walk ended so.
fn ended(walked: Result<WalkEnd, WalkHalt>) -> Result<(), LinesHalt>
    ensures { result ≡ lines_ended walked }
{
    match walked {
        Ok(_) => Ok(()),
        Err(WalkHalt::Broken(fault)) => Err(LinesHalt::Broken(fault)),
        Err(WalkHalt::TooLong) => Err(LinesHalt::TooLong),
        Err(WalkHalt::Read) => Err(LinesHalt::Read),
        Err(WalkHalt::Write) => Err(LinesHalt::Write),
        Err(WalkHalt::Memory) => Err(LinesHalt::Memory),
    }
}

/// Writes the line of each packet of a capture, in its order, before the next packet is read. Ok at the
/// capture's end.
///
/// Broken comes where the capture has this fault, after the packets whose lines were written; Read only
/// where the source's count of faults rose; TooLong only where it gave more than 2^63 bytes; Write only
/// where the sink's count of faults rose, with a proper front part of the last packet's line written; and Memory
/// where memory ran out, perhaps without the line of the last packet. With each the lines of all packets that
/// were read before are written, and no others; and at most 16,842,776 bytes were taken past the last part of
/// the capture that was read, after a packet whose line wasn't written whole at most 16,842,752.
pub fn write_lines<I: Source, O: Sink>(
    alloc: Global,
    input: &mut I,
    out: &mut O,
) -> Result<(), LinesHalt>
    ensures { (given : List ℕ) × Writes given (I.side input.old) (I.side input.new) (O.side out.old) (O.side out.new)
        result }
{
    let mut reader = match CaptureReader::new(alloc) {
        Ok(reader) => reader,
        Err(_) => return Err(LinesHalt::Memory),
    };
    let mut writer = LineWriter {
        line: Vec::new(alloc),
    };
    ended(walk(&mut reader, &mut writer, input, out))
}
