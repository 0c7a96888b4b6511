//! Captures whose packets are checked: what `check` says of the same datagrams stands in examples/check-pcap.

use crate::checks::{KEYS, MIXED, PLAIN, TAGGED};
use ao_base::{MemSink, MemSource};
use book_base::{Bytes, Numbers};
use capture_walk::WalkHalt;
use key_table::read_tables;
use packet_check::check_capture;
use std::alloc::{AllocError, Global};
use std::test::Fail;

/// A capture, whether foreign segments are listed, and what is to come of it.
#[derive(Clone, Copy)]
struct Case<'a> {
    file: &'a [u8],
    all: bool,
    /// The status that goes with its end: 0, 1, or 4 for a fault of the capture.
    status: u8,
    out: &'a [u8],
}

const LINES: &[u8] =
    b"1 1970-01-01T00:00:00Z 10.0.0.1 1000 10.0.0.2 2000 1 1 pass row 1 number 100 checksum good\n\
2 1970-01-01T00:00:00Z 10.0.0.2 2000 10.0.0.1 1000 1 1 pass row 1 number 200 checksum good\n\
3 1970-01-01T00:00:00Z 10.0.0.1 1000 10.0.0.2 2000 1 1 pass row 1 number 101 checksum good\n\
4 1970-01-01T00:00:00Z 10.0.0.1 1000 10.0.0.2 2000 1 1 refused bad-mac checksum wrong\n\
5 1970-01-01T01:01:40Z 10.0.0.1 1000 10.0.0.2 2000 1 1 refused expired checksum good\n\
packets 5 pass 3 refused 2 foreign 0 other 0\n";

const FOUR: &[u8] =
    b"1 1970-01-01T00:00:00Z 10.0.0.1 1000 10.0.0.2 2000 1 1 pass row 1 number 100 checksum good\n\
2 1970-01-01T00:00:00Z 10.0.0.2 2000 10.0.0.1 1000 1 1 pass row 1 number 200 checksum good\n\
3 1970-01-01T00:00:00Z 10.0.0.1 1000 10.0.0.2 2000 1 1 pass row 1 number 101 checksum good\n\
4 1970-01-01T00:00:00Z 10.0.0.1 1000 10.0.0.2 2000 1 1 refused bad-mac checksum wrong\n\
packets 4 pass 3 refused 1 foreign 0 other 0\n";

const OWN: &[u8] = b"2 1970-01-01T00:00:00Z - - - - - - other not IP\n\
3 1970-01-01T00:00:00Z 10.0.0.1 1000 10.0.0.2 2000 1 1 pass row 1 number 100 checksum good\n\
4 1970-01-01T00:00:00Z 10.0.0.2 2000 10.0.0.1 1000 1 1 pass row 1 number 200 checksum good\n\
5 1970-01-01T00:00:00Z 10.0.0.1 1000 10.0.0.2 2000 1 1 pass row 1 number 101 checksum good\n\
packets 5 pass 3 refused 0 foreign 1 other 1\n";

const NONE_PASSES: &[u8] = b"1 1970-01-01T00:00:00Z 10.0.0.8 40000 10.0.0.9 179 - - unknown-node\n\
2 1970-01-01T00:00:00Z - - - - - - other not IP\n\
packets 2 pass 0 refused 0 foreign 1 other 1\n";

/// The status that goes with an end.
fn status_of(end: Result<bool, WalkHalt>) -> u8 {
    match end {
        Ok(amiss) => u8::from(amiss),
        Err(WalkHalt::Broken(_)) => 4,
        Err(WalkHalt::TooLong) => 4,
        Err(WalkHalt::Read) => 5,
        Err(WalkHalt::Write) => 6,
        Err(WalkHalt::Memory) => 7,
    }
}

/// Compares how a case ended, and what was written.
fn compare(case: Case<'_>, status: u8, out: &[u8]) -> Result<(), Fail> {
    if status != case.status {
        return Err(Fail::from(status));
    }
    if out != case.out {
        return Err(Fail::from(std::str::from_utf8(out)));
    }
    Ok(())
}

/// Checks a capture that comes in pieces of seven bytes.
fn expect(alloc: Global, case: Case<'_>) -> Result<(), Fail> {
    let Ok(tables) = read_tables(alloc, KEYS) else {
        return Err(Fail::from(3_u8));
    };
    let content = Bytes::from_vec(Vec::from_slice(alloc, case.file)?);
    let mut input = MemSource::new(content, 7, Numbers::from_vec(Vec::new(alloc)));
    let mut out = MemSink::new(alloc, 4096, Numbers::from_vec(Vec::new(alloc)))?;
    let end = check_capture(alloc, case.all, tables, &[], &mut input, &mut out);
    compare(case, status_of(end), out.bytes())
}

#[test]
fn the_sayings_are_those_of_check(rt: HostRuntime) -> Result<(), Fail> {
    let plain = Case {
        file: PLAIN,
        all: false,
        status: 1,
        out: LINES,
    };
    expect(rt.alloc(), plain)
}

#[test]
fn a_tag_makes_no_difference(rt: HostRuntime) -> Result<(), Fail> {
    let tagged = Case {
        file: TAGGED,
        all: true,
        status: 1,
        out: LINES,
    };
    expect(rt.alloc(), tagged)
}

#[test]
fn a_foreign_segment_is_not_amiss(rt: HostRuntime) -> Result<(), Fail> {
    let mixed = Case {
        file: MIXED,
        all: false,
        status: 0,
        out: OWN,
    };
    expect(rt.alloc(), mixed)
}

#[test]
fn no_segment_that_passes_is_amiss(rt: HostRuntime) -> Result<(), Fail> {
    let foreign = Case {
        file: &MIXED[..156],
        all: true,
        status: 1,
        out: NONE_PASSES,
    };
    expect(rt.alloc(), foreign)
}

#[test]
fn the_last_line_stands_at_a_fault(rt: HostRuntime) -> Result<(), Fail> {
    let cut = Case {
        file: &TAGGED[..TAGGED.len() - 10],
        all: false,
        status: 4,
        out: FOUR,
    };
    expect(rt.alloc(), cut)
}
