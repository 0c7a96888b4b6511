//! A read and a write that fail in the middle of a check, of lines and of a pcap file.
ghost use Rattle.std.specs.Prelude.{◌≤◌};

use ao_base::{MemSink, MemSource};
use book_base::{Address, Algorithm, Bytes, Numbers};
use cmd_check::{Form, Halt, answer};
use key_table::Tables;
use std::alloc::{AllocError, Global};
use std::test::Fail;

/// Two lines of segments that are cut off.
const TWO_LINES: &[u8] = b"0 45\n0 45\n";

/// The line of the first of them.
const LINE: &[u8] = b"1 bad truncated\n";

/// A header of numbers with their lowest bytes first, for raw IP.
const RAW: &[u8] =
    b"\xd4\xc3\xb2\xa1\x02\x00\x04\x00\x00\x00\x00\x00\x00\x00\x00\x00\x00\x00\x04\x00\x65\x00\x00\x00";

/// The beginning of the record of a packet of 40 bytes.
const RECORD: &[u8] = b"\x00\x00\x00\x00\x00\x00\x00\x00\x28\x00\x00\x00\x28\x00\x00\x00";

/// A datagram of 40 bytes: IPv4 and TCP without options or payload.
const DATAGRAM: &[u8] =
    b"\x45\x00\x00\x28\x00\x00\x40\x00\x40\x06\x26\xce\x0a\x00\x00\x01\x0a\x00\x00\x02\
\x03\xe8\x07\xd0\x00\x00\x00\x65\x00\x00\x00\xc9\x50\x10\xff\xff\x8e\xec\x00\x00";

/// The line of the first of two packets with it.
const PACKET_LINE: &[u8] = b"1 refused no-ao checksum good\n";

/// A file with that datagram twice.
fn two_packets(alloc: Global) -> Result<Vec<u8>, AllocError> {
    let mut file = Vec::new(alloc);
    file.extend_from_slice(RAW)?;
    for _ in 0..2 {
        file.extend_from_slice(RECORD)?;
        file.extend_from_slice(DATAGRAM)?;
    }
    Ok(file)
}

/// How a check is made: the most bytes that a read gives, and the numbers of the reads and writes
/// that fail.
#[derive(Clone, Copy)]
struct Way<'a> {
    piece: u32,
    reads: &'a [u64],
    writes: &'a [u64],
}

/// Checks an input by two nodes with one key: how it ended, and whether this was written.
fn ends(
    alloc: Global,
    form: Form,
    text: &[u8],
    way: Way<'_>,
    written: &[u8],
) -> Result<(Result<bool, Halt>, bool), AllocError>
    requires { 1 ≤ way.piece }
{
    let (a, b) = (Address::V4([10, 0, 0, 1]), Address::V4([10, 0, 0, 2]));
    let tables = Tables::shared(alloc, a, b, Algorithm::HmacSha1, b"testvector")?;
    let content = Bytes::from_vec(Vec::from_slice(alloc, text)?);
    let reads = Numbers::from_vec(Vec::from_slice(alloc, way.reads)?);
    let writes = Numbers::from_vec(Vec::from_slice(alloc, way.writes)?);
    let mut input = MemSource::new(content, way.piece, reads);
    let mut out = MemSink::new(alloc, 1_000, writes)?;
    let end = answer(alloc, tables, form, &mut input, &mut out);
    Ok((end, out.bytes() == written))
}

#[test]
fn a_line_isnt_read(rt: HostRuntime) -> Result<(), Fail> {
    let way = Way {
        piece: 7,
        reads: &[2],
        writes: &[],
    };
    assert!(rt; ends(rt.alloc(), Form::Lines, TWO_LINES, way, LINE)? == (Err(Halt::Read), true));
    Ok(())
}

#[test]
fn a_line_isnt_answered(rt: HostRuntime) -> Result<(), Fail> {
    let way = Way {
        piece: 7,
        reads: &[],
        writes: &[2],
    };
    assert!(rt; ends(rt.alloc(), Form::Lines, TWO_LINES, way, LINE)? == (Err(Halt::Write), true));
    Ok(())
}

#[test]
fn a_packet_isnt_read(rt: HostRuntime) -> Result<(), Fail> {
    let file = two_packets(rt.alloc())?;
    let way = Way {
        piece: 7,
        reads: &[13],
        writes: &[],
    };
    assert!(rt;
        ends(rt.alloc(), Form::Pcap, file.as_slice(), way, PACKET_LINE)? == (Err(Halt::Read), true)
    );
    Ok(())
}

#[test]
fn a_packet_isnt_answered(rt: HostRuntime) -> Result<(), Fail> {
    let file = two_packets(rt.alloc())?;
    let way = Way {
        piece: 7,
        reads: &[],
        writes: &[2],
    };
    assert!(rt;
        ends(rt.alloc(), Form::Pcap, file.as_slice(), way, PACKET_LINE)? == (Err(Halt::Write), true)
    );
    Ok(())
}
