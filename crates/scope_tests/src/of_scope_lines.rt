//! Lines of captures that come in pieces, and whose reads and writes fail.
ghost use Rattle.std.specs.Prelude.{◌≤◌};

use crate::files::{PCAP, PCAPNG};
use ao_base::{MemSink, MemSource};
use book_base::{Bytes, Numbers};
use scope_lines::{CaptureFault, Cause, LinesHalt, RecordFault, write_lines};
use std::alloc::{AllocError, Global};
use std::test::Fail;

/// A capture, how reading and writing it is disturbed, and what is to come of it.
#[derive(Clone, Copy)]
struct Case<'a> {
    file: &'a [u8],
    /// The most bytes that a read gives.
    piece: u32,
    /// How many bytes the output has room for.
    room: usize,
    /// Which read fails; 0 for none.
    read: u64,
    end: Result<(), LinesHalt>,
    out: &'a [u8],
}

const LINES: &[u8] = b"1 45000004\n2 45000004\n";

/// A list of this number, or of none for 0.
fn failing(alloc: Global, number: u64) -> Result<Numbers, AllocError> {
    let mut numbers = Vec::new(alloc);
    if number > 0 {
        numbers.push(number)?;
    }
    Ok(Numbers::from_vec(numbers))
}

/// The source of a case.
fn source(alloc: Global, case: Case<'_>) -> Result<MemSource, AllocError> {
    let content = Bytes::from_vec(Vec::from_slice(alloc, case.file)?);
    Ok(MemSource::new(content, case.piece.max(1), failing(alloc, case.read)?))
}

/// Writes the lines of a case.
fn write(alloc: Global, input: &mut MemSource, out: &mut MemSink) -> Result<(), LinesHalt> {
    write_lines(alloc, input, out)
}

/// Compares how a case ended, and what was written.
fn compare(case: Case<'_>, end: Result<(), LinesHalt>, out: &[u8]) -> Result<(), Fail> {
    if end != case.end {
        return Err(Fail::from(format_end(end)));
    }
    if out != case.out {
        return Err(Fail::from(std::str::from_utf8(out)));
    }
    Ok(())
}

/// The status that goes with an end.
fn format_end(end: Result<(), LinesHalt>) -> u8 {
    match end {
        Ok(()) => 0,
        Err(LinesHalt::Broken(_)) => 4,
        Err(LinesHalt::TooLong) => 4,
        Err(LinesHalt::Read) => 5,
        Err(LinesHalt::Write) => 6,
        Err(LinesHalt::Memory) => 7,
    }
}

fn expect(alloc: Global, case: Case<'_>) -> Result<(), Fail> {
    let mut input = source(alloc, case)?;
    let mut out = MemSink::new(alloc, case.room, failing(alloc, 0)?)?;
    let end = write(alloc, &mut input, &mut out);
    compare(case, end, out.bytes())
}

/// A capture that nothing disturbs.
fn smooth<'a>(file: &'a [u8], out: &'a [u8]) -> Case<'a> {
    Case {
        file,
        piece: 1_000,
        room: 1_000,
        read: 0,
        end: Ok(()),
        out,
    }
}

#[test]
fn a_capture_comes_byte_by_byte(rt: HostRuntime) -> Result<(), Fail> {
    let mut case = smooth(PCAP, LINES);
    case.piece = 1;
    expect(rt.alloc(), case)
}

#[test]
fn a_pcapng_file(rt: HostRuntime) -> Result<(), Fail> {
    let mut case = smooth(PCAPNG, b"3 45000004\n");
    case.piece = 5;
    expect(rt.alloc(), case)
}

#[test]
fn the_third_read_fails(rt: HostRuntime) -> Result<(), Fail> {
    let mut case = smooth(PCAP, b"1 45000004\n");
    case.piece = 24;
    case.read = 3;
    case.end = Err(LinesHalt::Read);
    expect(rt.alloc(), case)
}

#[test]
fn the_output_is_full_in_the_second_line(rt: HostRuntime) -> Result<(), Fail> {
    let mut case = smooth(PCAP, b"1 45000004\n2 45");
    case.room = 15;
    case.end = Err(LinesHalt::Write);
    expect(rt.alloc(), case)
}

#[test]
fn a_file_ends_in_its_second_record(rt: HostRuntime) -> Result<(), Fail> {
    let mut case = smooth(&PCAP[..63], b"1 45000004\n");
    case.end = Err(LinesHalt::Broken(CaptureFault {
        cause: Cause::Record(RecordFault::Short),
        number: 2,
        byte: 44,
    }));
    expect(rt.alloc(), case)
}
