//! A packet, checked, and its line.
ghost use Rattle.std.specs.Prelude.{◌≡◌, ℕ, IfOk, IsSome, List, None, Ok, Some};
ghost use Rattle.book_captures.specs.Captures.{CapturePacket};
ghost use Rattle.book_cmd_check.specs.Captures.{Connection, Stored};
ghost use Rattle.book_keys.specs.Rows.{Table};
ghost use Rattle.book_segments.specs.Segments.{Read, reading};
ghost use Rattle.book_sessions.specs.CutOff.{cut_segment};
ghost use Rattle.book_sessions.specs.Sessions.{judged_of};
ghost use Rattle.book_sessions.specs.CheckedPackets.{OfNothing, checked_fault};
ghost use Rattle.capture_check.specs.Checkers.{StandsFor};
ghost use Rattle.packet_check.specs.Checking.{ChecksAs, ChecksPacket, SaysContent, stored_as};

use crate::class::{class_by, class_without, is_foreign_segment};
use crate::columns::{push_columns, push_dashes, push_front};
use crate::saying::{push_other, push_said};
use crate::shown::{StoredBytes, stored_shown};
use ao_base::Steps;
use book_sessions::{PacketClass, PassedOver};
use capture_check::{CheckLine, Checker};
use capture_listener::{cut_whole, mended, told_fault};
use capture_walk::CaptureReader;
use key_table::Tables;
use std::alloc::{AllocError, Global};
use std::sync::ledger::Ledger;
use tcp_segment::{Datagram, DatagramFault, read_datagram};

// Checks a segment that was stored at a time.
fn check_segment<L: Ledger>(
    checker: &mut Checker,
    alloc: Global,
    steps: &mut Steps<L>,
    time: u64,
    datagram: &Datagram<'_>,
    line: &mut Vec<u8>,
) -> Result<PacketClass, AllocError>
    ensures checks { (held : List Connection) (s : Stored) → reading s.bytes ≡ Read datagram.now → s.time ≡ time
        → StandsFor checker.old.entries held → IfOk result (λ class. ChecksAs checker.old.tables held (Ok s)
        checker.new.entries line.old.items line.new.items class) }
    ensures tables { checker.new.tables ≡ checker.old.tables }
{
    let said = checker.hear(alloc, time, datagram, steps)?;
    push_columns(line, datagram)?;
    push_said(alloc, line, &said)?;
    let foreign = is_foreign_segment(checker.tables(), datagram);
    Ok(class_by(foreign, said.is_pass()))
}

// Says that bytes with this fault are no segment.
fn say_bad(
    alloc: Global,
    bytes: &[u8],
    fault: DatagramFault,
    line: &mut Vec<u8>,
) -> Result<PacketClass, AllocError>
    ensures { (tables : List Table) (s : Stored) → s.bytes ≡ bytes.now
        → IfOk result (λ class. SaysContent tables (checked_fault s fault None) line.old.items line.new.items class) }
{
    push_dashes(line)?;
    push_said(alloc, line, &CheckLine::Bad(fault))?;
    Ok(class_without(PassedOver::Faulty(told_fault(bytes, fault))))
}

// Says that a segment with this fault was cut off, of which these are the bytes with zeros for those that are
// missing.
fn say_cut(
    tables: &Tables,
    alloc: Global,
    datagram: &Datagram<'_>,
    fault: DatagramFault,
    line: &mut Vec<u8>,
) -> Result<PacketClass, AllocError>
    ensures { (s : Stored) → IfOk result (λ class. SaysContent tables.now
        (checked_fault s fault (Some datagram.now)) line.old.items line.new.items class) }
{
    push_columns(line, datagram)?;
    push_said(alloc, line, &CheckLine::Bad(fault))?;
    Ok(class_by(is_foreign_segment(tables, datagram), false))
}

// Checks bytes with this fault: a segment that was cut off, or none.
fn check_fault(
    tables: &Tables,
    alloc: Global,
    bytes: &[u8],
    fault: DatagramFault,
    line: &mut Vec<u8>,
) -> Result<PacketClass, AllocError>
    ensures { (s : Stored) → s.bytes ≡ bytes.now → IfOk result (λ class. SaysContent tables.now
        (checked_fault s fault (cut_segment s.bytes)) line.old.items line.new.items class) }
{
    let found = cut_whole(alloc, bytes)?;
    match found {
        None => say_bad(alloc, bytes, fault, line),
        Some(whole) => match read_datagram(whole.as_slice()) {
            // What was filled in is a segment.
            Err(_) => say_bad(alloc, bytes, fault, line),
            Ok(datagram) => say_cut(tables, alloc, &datagram, fault, line),
        },
    }
}

// Checks the bytes that are judged at a time.
fn check_judged<L: Ledger>(
    checker: &mut Checker,
    alloc: Global,
    steps: &mut Steps<L>,
    stored: StoredBytes<'_>,
    line: &mut Vec<u8>,
) -> Result<PacketClass, AllocError>
    ensures checks { (held : List Connection) (number : ℕ) → StandsFor checker.old.entries held
        → IfOk result (λ class. ChecksAs checker.old.tables held (stored_as number (Ok stored.entry))
        checker.new.entries line.old.items line.new.items class) }
    ensures tables { checker.new.tables ≡ checker.old.tables }
{
    match read_datagram(stored.bytes) {
        Ok(datagram) => check_segment(checker, alloc, steps, stored.time, &datagram, line),
        Err(fault) => check_fault(checker.tables(), alloc, stored.bytes, fault, line),
    }
}

// Checks what was stored, with its header checksum.
fn check_stored<L: Ledger>(
    checker: &mut Checker,
    alloc: Global,
    steps: &mut Steps<L>,
    stored: StoredBytes<'_>,
    line: &mut Vec<u8>,
) -> Result<PacketClass, AllocError>
    ensures checks { (held : List Connection) (number : ℕ) → StandsFor checker.old.entries held
        → IfOk result (λ class. ChecksAs checker.old.tables held (judged_of (stored_as number (Ok stored.entry)))
        checker.new.entries line.old.items line.new.items class) }
    ensures tables { checker.new.tables ≡ checker.old.tables }
{
    let found = mended(alloc, stored.bytes)?;
    match found {
        None => check_judged(checker, alloc, steps, stored, line),
        Some(whole) => {
            let judged = StoredBytes {
                time: stored.time,
                bytes: whole.as_slice(),
            };
            check_judged(checker, alloc, steps, judged, line)
        }
    }
}

// Says that nothing is judged of a packet, for this reason.
fn say_other(why: PassedOver, line: &mut Vec<u8>) -> Result<PacketClass, AllocError>
    ensures { (tables : List Table)
        → IfOk result (λ class. SaysContent tables (OfNothing why) line.old.items line.new.items class) }
{
    push_dashes(line)?;
    push_other(line, why)?;
    Ok(class_without(why))
}

// Checks what a packet has.
fn check_captured<L: Ledger>(
    checker: &mut Checker,
    alloc: Global,
    steps: &mut Steps<L>,
    captured: Result<StoredBytes<'_>, PassedOver>,
    line: &mut Vec<u8>,
) -> Result<PacketClass, AllocError>
    ensures checks { (held : List Connection) (number : ℕ) → StandsFor checker.old.entries held
        → IfOk result (λ class. ChecksAs checker.old.tables held (judged_of (stored_as number captured.entry))
        checker.new.entries line.old.items line.new.items class) }
    ensures tables { checker.new.tables ≡ checker.old.tables }
{
    match captured {
        Err(why) => say_other(why, line),
        Ok(stored) => check_stored(checker, alloc, steps, stored, line),
    }
}

/// Checks the packet that the reader shows, makes `line` its line, and says what it counts as: the answer, and the
/// connections that the checker knows afterwards, are those of the definition, whatever connections it knew. An
/// error for want of memory alone.
pub(crate) fn check_shown<L: Ledger>(
    checker: &mut Checker,
    alloc: Global,
    steps: &mut Steps<L>,
    reader: &CaptureReader,
    line: &mut Vec<u8>,
) -> Result<PacketClass, AllocError>
    requires { IsSome reader.now.packet }
    ensures checks { (p : CapturePacket) (held : List Connection) → reader.now.packet ≡ Some p
        → StandsFor checker.old.entries held
        → IfOk result (λ class. ChecksPacket checker.old.tables held p checker.new.entries line.new.items class) }
    ensures tables { checker.new.tables ≡ checker.old.tables }
{
    line.clear();
    push_front(line, reader.number(), reader.time())?;
    check_captured(checker, alloc, steps, stored_shown(reader), line)
}
