//! The lines of a capture that is checked, each written before the next packet is read.
ghost use Rattle.std.specs.Prelude.{◌≡◌, ℕ, List};
ghost use Rattle.ao_base.specs.Outside.{Side};
ghost use Rattle.book_sessions.specs.declared.class.PacketClass.{PacketClass};
ghost use Rattle.packet_check.specs.Reading.{Checks, EndsTotal};
ghost use Rattle.packet_check.specs.Tallies.{Tallies};

use crate::packets::PacketChecker;
use crate::tally::Tally;
use ao_base::{Failed, Sink, Source, write_all};
use book_sessions::GivenIsns;
use capture_walk::{CaptureFault, CaptureReader, WalkHalt, walk};
use key_table::Tables;
use std::alloc::Global;

// Writes the last line of a capture that has this fault, or none, and says how all ends.
fn write_total<O: Sink>(
    alloc: Global,
    tally: Tally,
    fault: Option<CaptureFault>,
    out: &mut O,
) -> Result<bool, WalkHalt>
    ensures { (classes : List PacketClass) → Tallies tally classes
        → EndsTotal classes fault (O.side out.old) (O.side out.new) result }
{
    let mut line = Vec::new(alloc);
    match tally.push_total(&mut line) {
        Ok(()) => {}
        Err(_) => return Err(WalkHalt::Memory),
    }
    match write_all(out, line.as_slice()) {
        Ok(()) => {}
        Err(Failed) => return Err(WalkHalt::Write),
    }
    match fault {
        None => Ok(tally.is_amiss()),
        Some(fault) => Err(WalkHalt::Broken(fault)),
    }
}

/// Checks each packet of a capture, by the tables, after handshakes with the given initial sequence numbers, and writes
/// its line before the next packet is asked for; foreign segments have one only with `all`. Then it writes the last
/// line, how many packets count as what. Ok at the capture's end, and whether something is amiss: a segment that
/// isn't foreign doesn't pass, or a packet without a segment may have one, or no segment passes at all.
///
/// Broken comes where the capture has this fault, with the lines of the packets in front of it and the last line
/// written; Read only where the source's count of faults rose, and TooLong only where it gave more than 2^63 bytes,
/// with the lines of all packets that were read written; Write only where the sink's count of faults rose, with a
/// proper front part written of the last of these lines, or of the last line; and Memory where memory ran out or
/// more than 2^64 - 1 packets are counted, with the lines of all packets that were read written, but perhaps for
/// that of the last one, or for the last line.
pub fn check_capture<I: Source, O: Sink>(
    alloc: Global,
    all: bool,
    tables: Tables,
    isns: &[GivenIsns],
    input: &mut I,
    out: &mut O,
) -> Result<bool, WalkHalt>
    ensures { (given : List ℕ) × Checks all tables isns.now given (I.side input.old) (I.side input.new)
        (O.side out.old) (O.side out.new) result }
{
    let mut reader = match CaptureReader::new(alloc) {
        Ok(reader) => reader,
        Err(_) => return Err(WalkHalt::Memory),
    };
    let mut packets = match PacketChecker::behind(alloc, all, tables, isns) {
        Ok(packets) => packets,
        Err(_) => return Err(WalkHalt::Memory),
    };
    match walk(&mut reader, &mut packets, input, out) {
        Ok(_) => write_total(alloc, packets.tally, None, out),
        Err(WalkHalt::Broken(fault)) => write_total(alloc, packets.tally, Some(fault), out),
        Err(WalkHalt::TooLong) => Err(WalkHalt::TooLong),
        Err(WalkHalt::Read) => Err(WalkHalt::Read),
        Err(WalkHalt::Write) => Err(WalkHalt::Write),
        Err(WalkHalt::Memory) => Err(WalkHalt::Memory),
    }
}
