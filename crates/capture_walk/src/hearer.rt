//! Who hears the packets of a capture.
ghost use Rattle.std.specs.Prelude.{◌≡◌, ℕ, List, IsSome, Some};
ghost use Rattle.ao_base.specs.Outside.{Side};
ghost use Rattle.book_captures.specs.Captures.{CapturePacket};
ghost use Rattle.capture_walk.specs.Hearing.{Hears, Tells};

use crate::reader::CaptureReader;
use ao_base::{Failed, Sink, write_all};

/// What became of a packet that was heard.
#[derive(Clone, Copy, Debug, PartialEq, Eq)]
pub enum Heard {
    /// The hearer stands after it, and wants the next one.
    Next,
    /// The hearer stops at it, and wants no more.
    Done,
}

/// Why a packet wasn't heard.
#[derive(Clone, Copy, Debug, PartialEq, Eq)]
pub enum HearHalt {
    /// A write failed.
    Write,
    /// Memory ran out.
    Memory,
}

/// Who hears the packets of a capture, one after another, and may tell of them before all is read.
pub trait Hearer {
    // What a hearer may be asked for.
    ghost Asked: { Type 0 };

    // The text that is told of packets before all is read, by what was asked for.
    ghost told: { Asked → List CapturePacket → List ℕ };

    // The hearer, asked for this, stands after these packets.
    ghost stands: { Asked → Self → List CapturePacket → Type 0 };

    // The hearer, asked for this, stopped at a packet after these ones.
    ghost stops: { Asked → Self → List CapturePacket → CapturePacket → Type 0 };

    /// Hears the packet that the reader shows, and writes what it adds to the text that is told.
    ///
    /// Next: the hearer stands after it, and all that it adds was written. Done: the hearer stopped at it, and
    /// the same was written. Write comes only where the sink's count of faults rose, with a proper front part
    /// of it written; Memory for want of memory, with nothing of it written, or the whole.
    fn hear<O: Sink>(&mut self, shown: &CaptureReader, out: &mut O) -> Result<Heard, HearHalt>
        requires { IsSome shown.now.packet }
        ensures { (q : Asked) (before : List CapturePacket) (p : CapturePacket) → shown.now.packet ≡ Some p →
            stands q self.old before → Hears (told q) (stands q self.new) (stops q self.new) before p
            (O.side out.old) (O.side out.new) result };
}

/// Writes this text, as what a packet adds to the text that is told. Next where all of it was written; Write
/// comes only where the sink's count of faults rose, with a proper front part of it written.
pub fn tell<O: Sink>(text: &[u8], out: &mut O) -> Result<Heard, HearHalt>
    ensures { Tells text.now (O.side out.old) (O.side out.new) result }
{
    match write_all(out, text) {
        Ok(()) => Ok(Heard::Next),
        Err(Failed) => Err(HearHalt::Write),
    }
}
