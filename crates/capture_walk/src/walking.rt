//! The packets of a capture, each heard before the next one is read.
ghost use Rattle.std.specs.Prelude.{◌≡◌, ◌<◌, ◌≤◌, ℕ, false, List, [], Ok, None};
ghost use Rattle.ao_base.specs.Outside.{Side};
ghost use Rattle.book_captures.specs.Captures.{CapturePacket};
ghost use Rattle.capture_walk.specs.Reads.{most_read, new_reading};
ghost use Rattle.capture_walk.specs.Walks.{Between, HearsNext, Walks};

use crate::hearer::{HearHalt, Heard, Hearer};
use crate::reader::{CaptureHalt, CaptureReader, CaptureStep};
use ao_base::{Sink, Source};
use capture_reader::CaptureFault;

/// How a walk ends where nothing failed.
#[derive(Clone, Copy, Debug, PartialEq, Eq)]
pub enum WalkEnd {
    /// All packets of the capture were heard.
    End,
    /// The hearer stopped at the packet that the reader shows.
    Done,
}

/// Why a walk ends before.
#[derive(Clone, Copy, Debug, PartialEq, Eq)]
pub enum WalkHalt {
    /// The capture is faulty here.
    Broken(CaptureFault),
    /// The source gave more than 2^63 bytes.
    TooLong,
    /// A read failed.
    Read,
    /// A write failed.
    Write,
    /// Memory ran out.
    Memory,
}

/// One step of a walk: reads the next record or block of the capture, and has the hearer hear the packet that
/// it shows, if it shows one. None where the walk goes on.
///
/// It begins and goes on only between two parts: all packets that were read were heard, and all that is told of
/// them was written. So before the source is asked for more, nothing waits.
pub fn hear_next<H: Hearer, I: Source, O: Sink>(
    reader: &mut CaptureReader,
    hearer: &mut H,
    input: &mut I,
    out: &mut O,
) -> Result<Option<WalkEnd>, WalkHalt>
    requires { reader.old.over ≡ false }
    ensures over { result ≡ Ok None → reader.new.over ≡ false }
    ensures further { result ≡ Ok None → reader.old.counts.bytes < reader.new.counts.bytes }
    ensures within { result ≡ Ok None → reader.new.counts.bytes ≤ most_read }
    ensures hears { (q : H.Asked) (given : List ℕ) (shown : List CapturePacket) (first : Side) (empty : Side) →
        Between (H.told q) (H.stands q hearer.old) reader.old given shown first (I.side input.old) empty
        (O.side out.old) → (next : List ℕ) × HearsNext (H.told q) (H.stands q hearer.new) (H.stops q hearer.new)
        reader.new given shown next first (I.side input.new) empty (O.side out.new) result }
{
    match reader.next(input) {
        Ok(CaptureStep::Packet) => {}
        Ok(CaptureStep::Block) => return Ok(None),
        Ok(CaptureStep::End) => return Ok(Some(WalkEnd::End)),
        Err(CaptureHalt::Read) => return Err(WalkHalt::Read),
        Err(CaptureHalt::TooLong) => return Err(WalkHalt::TooLong),
        Err(CaptureHalt::Broken(fault)) => return Err(WalkHalt::Broken(fault)),
    }
    match hearer.hear(reader, out) {
        Ok(Heard::Next) => Ok(None),
        Ok(Heard::Done) => Ok(Some(WalkEnd::Done)),
        Err(HearHalt::Write) => Err(WalkHalt::Write),
        Err(HearHalt::Memory) => Err(WalkHalt::Memory),
    }
}

/// Reads a capture, of which a new reader has read nothing, and has each packet heard before the next one is
/// read, to the capture's end or to the packet at which the hearer stops.
///
/// Broken comes where the capture has this fault, whatever follows it, after the packets that were heard; Read
/// only where the source's count of faults rose; TooLong only where it gave more than 2^63 bytes. With each of
/// these all packets that were read were heard, and all that is told of them was written. Write comes only
/// where the sink's count of faults rose, with a proper front part written of what is told of the last packet;
/// Memory for want of memory, perhaps without what is told of the last packet. However it ends before the
/// source's end, at most 16,842,776 bytes were taken past the last part that was read: 16,842,752 where that
/// showed a packet, and with a header 24 more.
pub fn walk<H: Hearer, I: Source, O: Sink>(
    reader: &mut CaptureReader,
    hearer: &mut H,
    input: &mut I,
    out: &mut O,
) -> Result<WalkEnd, WalkHalt>
    requires { reader.old ≡ new_reading }
    ensures { (q : H.Asked) → H.stands q hearer.old [] → H.told q [] ≡ [] → (given : List ℕ) ×
        Walks (H.told q) (H.stands q hearer.new) (H.stops q hearer.new) reader.new given
        (I.side input.old) (I.side input.new) (O.side out.old) (O.side out.new) result }
{
    'parts: loop {
        match hear_next(reader, hearer, input, out) {
            Ok(None) => {}
            Ok(Some(end)) => return Ok(end),
            Err(halt) => return Err(halt),
        }
    }
}
