//! A capture's table of sessions, written when the capture is read.
ghost use Rattle.std.specs.Prelude.{◌≡◌, ℕ, List};
ghost use Rattle.toml.specs.View.{table_view};
ghost use Rattle.ao_base.specs.Outside.{Side};
ghost use Rattle.scope_sessions.specs.Reading.{series_of};
ghost use Rattle.scope_sessions.specs.Writing.{Writes, WritesCounted, table_report};

use crate::count::{Counted, count_capture};
use crate::due::push_form;
use crate::table_text::has_amiss;
use ao_base::{Failed, Sink, Source, write_all};
use book_sessions::GivenIsns;
use capture_walk::WalkHalt;
use page_sessions_json::TableRequest;
use scope_keys::KeyFile;
use std::alloc::Global;

// Writes the table of what was counted.
fn write_counted<O: Sink>(
    alloc: Global,
    request: TableRequest,
    document: &toml::Table,
    counted: &Counted,
    out: &mut O,
) -> Result<bool, WalkHalt>
    ensures { WritesCounted (table_report request) (table_view document.now) counted.now (O.side out.old)
        (O.side out.new) result }
{
    let tables = counted.listener.tables();
    let index = &counted.index;
    let amiss = match has_amiss(alloc, tables, index) {
        Ok(amiss) => amiss,
        Err(_) => return Err(WalkHalt::Memory),
    };
    let mut text = Vec::new(alloc);
    match push_form(alloc, request, &mut text, document, tables, index) {
        Ok(()) => {}
        Err(_) => return Err(WalkHalt::Memory),
    }
    match write_all(out, text.as_slice()) {
        Ok(()) => {}
        Err(Failed) => return Err(WalkHalt::Write),
    }
    match counted.fault {
        None => Ok(amiss),
        Some(fault) => Err(WalkHalt::Broken(fault)),
    }
}

/// Writes the tables of the sessions of a capture that are asked for, judged by the tables of a key file as behind
/// handshakes with the given initial sequence numbers, and of each key of these tables who used it last and
/// whether anyone asks for it. Where a MAC is wrong as it stands the segment is judged over so many laps of the
/// sequence space more; where no handshake is verified, by initial sequence numbers that were seen, as unconfirmed.
/// Each table that is due in front of a packet is written before that packet is counted, the last one at the end. Ok
/// at the capture's end, and whether anything is amiss: of the sessions that aren't foreign to the key file a segment
/// that isn't verified, or no such session at all; or a packet that is passed over and may be a segment.
///
/// Broken comes where the capture has this fault, with the tables of the packets in front of it written; Read only
/// where the source's count of faults rose; TooLong only where it gave more than 2^63 bytes; Write only where the
/// sink's count of faults rose, with a front part of the last of the tables written; and Memory where memory ran out,
/// or where 2^64 - 1 packets of one kind are counted. With Read, TooLong and Memory only the tables were written that
/// were due in front of the packets that were read, with Memory perhaps not that in front of the last one. With
/// Broken, Read, TooLong and Memory, and with Write in front of a packet, at most 16,842,776 bytes were taken past the
/// last part that was read.
pub fn write_sessions<I: Source, O: Sink>(
    alloc: Global,
    request: TableRequest,
    laps: u32,
    file: KeyFile,
    isns: &[GivenIsns],
    input: &mut I,
    out: &mut O,
) -> Result<bool, WalkHalt>
    ensures { (given : List ℕ) × Writes (table_report request)
        (series_of (table_view file.document) file.tables laps isns.now request) given (I.side input.old)
        (I.side input.new) (O.side out.old) (O.side out.new) result }
{
    let KeyFile { document, tables } = file;
    match count_capture(alloc, tables, laps, isns, &document, request, input, out) {
        Ok(counted) => write_counted(alloc, request, &document, &counted, out),
        Err(halt) => Err(halt),
    }
}
