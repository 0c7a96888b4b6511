//! Packets of a pcap file, each judged before the next is read, and answered before more is asked for.
ghost use Rattle.std.specs.Prelude.{◌≡◌, ◌<◌, ℕ, List, [], IsSome, None, Some, false, map};
ghost use Rattle.book_pcap.specs.Packets.{Packet};
ghost use Rattle.book_cmd_check.specs.StoredPackets.{stored_packet};
ghost use Rattle.cmd_check.specs.Judges.{HasHeard};
ghost use Rattle.cmd_check.specs.CheckedPackets.{Checks, JudgesPacket, Moves};

use crate::halt::Halt;
use crate::judge::Judge;
use crate::writer::{run_out, write_lines};
use ao_base::{Failed, Sink, Source, Steps};
use key_table::Tables;
use pcap_file::{PacketStep, Packets};
use std::alloc::{AllocError, Global};
use std::sync::ledger::{Blank, Ledger};

/// What becomes of the packet that the reader shows, behind those that were heard before: its line is
/// gathered. There is none for a packet without a datagram.
fn judge_packet<L: Ledger>(
    judge: &mut Judge,
    alloc: Global,
    steps: &mut Steps<L>,
    packets: &Packets,
    lines: &mut Vec<u8>,
) -> Result<(), AllocError>
    requires { IsSome packets.now.packet }
    ensures { (p : Packet) (shown : List Packet) → packets.now.packet ≡ Some p
        → HasHeard judge.old (map stored_packet shown) →
        JudgesPacket judge.old judge.new shown p lines.old.items lines.new.items result }
{
    let datagram = packets.datagram();
    if datagram.is_empty() {
        return Ok(());
    }
    let number = u64::from(packets.number());
    let seconds = u64::from(packets.seconds());
    judge.hear(alloc, steps, number, seconds, datagram, lines)
}

/// Goes to the next packet. The lines that are gathered are written before the source is asked for
/// it: so no line waits for a packet that is still to come.
fn next_packet<I: Source, O: Sink>(
    packets: &mut Packets,
    input: &mut I,
    lines: &mut Vec<u8>,
    out: &mut O,
) -> Result<PacketStep, Failed>
    requires { packets.old.over ≡ false }
    ensures { (given : List ℕ) × Moves packets.old packets.new (I.side input.old) (I.side input.new) given
        lines.old.items lines.new.items (O.side out.old) (O.side out.new) result }
{
    if packets.next_kept() {
        return Ok(PacketStep::Packet);
    }
    match write_lines(lines, out) {
        Ok(()) => Ok(packets.next(input)),
        Err(failed) => Err(failed),
    }
}

/// Judges all packets that a new reader shows, by a judge that has heard none, and writes the lines of those that the
/// reader keeps before it asks for more.
fn check_all<L: Ledger, I: Source, O: Sink>(
    packets: &mut Packets,
    judge: &mut Judge,
    alloc: Global,
    steps: &mut Steps<L>,
    lines: &mut Vec<u8>,
    input: &mut I,
    out: &mut O,
) -> Result<bool, Halt>
    requires packets { packets.old ≡
        record { kept = []; taken = 0; count = 0; head = None; over = false; packet = None } }
    requires heard { HasHeard judge.old [] }
    requires lines { lines.old.items ≡ [] }
    ensures { (given : List ℕ) ×
        Checks judge.old.checking.tables given (I.side input.old) (I.side input.new) (O.side out.old) (O.side out.new)
        result }
{
    'packets: loop {
        match next_packet(packets, input, lines, out) {
            Ok(PacketStep::Packet) => {}
            Ok(PacketStep::End) => return Ok(judge.is_amiss()),
            Ok(PacketStep::Fault) => return Err(Halt::Read),
            Ok(PacketStep::TooLong) => return Err(Halt::TooLong),
            Ok(PacketStep::BadHead(fault)) => return Err(Halt::Head(fault)),
            Ok(PacketStep::BadRecord(number)) => return Err(Halt::Record(number)),
            Err(_) => return Err(Halt::Write),
        }
        match judge_packet(judge, alloc, steps, packets, lines) {
            Ok(()) => {}
            Err(_) => return Err(run_out(lines, out)),
        }
    }
}

/// Judges the packets of a pcap file, and writes the lines of those that it keeps before it asks for more. The loop
/// stands apart, over what it borrows: each of its ends would drop what is made here.
pub(crate) fn check_packets<L: Ledger, I: Source, O: Sink>(
    alloc: Global,
    tables: Tables,
    input: &mut I,
    out: &mut O,
    blank: Blank,
) -> Result<bool, Halt>
    requires name { blank.name ≡ L.name }
    requires parts { blank.parts ≡ L.parts }
    requires part { 0 < blank.parts }
    ensures { (given : List ℕ) × Checks tables given (I.side input.old) (I.side input.new) (O.side out.old)
        (O.side out.new) result }
{
    let mut steps = Steps::<L>::new(blank);
    let mut packets = match Packets::new(alloc) {
        Ok(packets) => packets,
        Err(_) => return Err(Halt::Memory),
    };
    let mut judge = match Judge::new(alloc, tables) {
        Ok(judge) => judge,
        Err(_) => return Err(Halt::Memory),
    };
    let mut lines = Vec::new(alloc);
    check_all(
        &mut packets,
        &mut judge,
        alloc,
        &mut steps,
        &mut lines,
        input,
        out,
    )
}
