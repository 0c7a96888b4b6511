//! Runs of the top call that are disturbed: reads in pieces, reads and writes that fail, an output that
//! is full. Whole runs, which nothing disturbs, stand in `examples/run-..`. The datagrams are those of an
//! independent program. Long texts stand in functions of their own, which a caller's proof doesn't unfold.
mod check;
mod completeness;
mod halting;
mod hostile;

use ao_base::{MemSink, MemSource};
use ao_run::run;
use book_base::{Bytes, Numbers, Words};
use std::alloc::{AllocError, Global};
use std::test::Fail;

/// Two routers that send in the first hour of 1970 and accept for a minute more.
fn one_row() -> &'static [u8] {
    br#"[[node]]
name = "r1"
address = "10.0.0.1"
[[node.key]]
AdminKeyName = "first"
LocalKeyName = "1"
PeerKeyName = "1"
Peers = ["10.0.0.2"]
Protocol = "TCP-AO"
ProtocolSpecificInfo = "options"
KDF = "HMAC-SHA-1"
AlgID = "HMAC-SHA-1-96"
Key = "0b0b0b0b0b0b0b0b0b0b0b0b0b0b0b0b0b0b0b0b"
Direction = "both"
SendLifetimeStart = "19700101000000Z"
SendLifetimeEnd = "19700101010000Z"
AcceptLifetimeStart = "19700101000000Z"
AcceptLifetimeEnd = "19700101010100Z"
[[node]]
name = "r2"
address = "10.0.0.2"
[[node.key]]
AdminKeyName = "first"
LocalKeyName = "1"
PeerKeyName = "1"
Peers = ["10.0.0.1"]
Protocol = "TCP-AO"
ProtocolSpecificInfo = "options"
KDF = "HMAC-SHA-1"
AlgID = "HMAC-SHA-1-96"
Key = "0b0b0b0b0b0b0b0b0b0b0b0b0b0b0b0b0b0b0b0b"
Direction = "both"
SendLifetimeStart = "19700101000000Z"
SendLifetimeEnd = "19700101010000Z"
AcceptLifetimeStart = "19700101000000Z"
AcceptLifetimeEnd = "19700101010100Z"
"#
}

/// What the program says to words of no command.
fn usage() -> &'static [u8] {
    b"usage: aotcp link [KEYS] | check KEYS | show | vectors | keys KEYS TIME | \
lint KEYS LEAD LAG FROM TO | storm SEED COUNT | check --pcap KEYS | bgp KEYS | timed KEYS | node KEYS\n"
}

/// What a call with these words over memory is to do.
#[derive(Clone, Copy)]
struct Case<'a> {
    words: &'a [&'a [u8]],
    keys: &'a [u8],
    input: &'a [u8],
    status: u8,
    out: &'a [u8],
    err: &'a [u8],
}

/// How a run over memory is disturbed.
#[derive(Clone, Copy)]
struct Disturbed {
    /// The most bytes that a read of the input gives.
    piece: u32,
    /// How many bytes the output has room for.
    room: usize,
    /// Which read of the key file fails; 0 for none, here as below.
    keys: u64,
    /// Which read of the input.
    input: u64,
    /// Which write of the output.
    out: u64,
    /// Which write of the text for errors.
    err: u64,
}

fn undisturbed() -> Disturbed {
    Disturbed {
        piece: 1_000,
        room: 65_536,
        keys: 0,
        input: 0,
        out: 0,
        err: 0,
    }
}

/// Nothing fails, and a read of the input gives at most so many bytes.
fn in_pieces(piece: u32) -> Disturbed {
    let mut how = undisturbed();
    how.piece = piece;
    how
}

/// A copy of these bytes.
fn copy(alloc: Global, bytes: &[u8]) -> Result<Bytes, AllocError> {
    Ok(Bytes::from_vec(Vec::from_slice(alloc, bytes)?))
}

/// The words of a command line.
fn words_of(alloc: Global, line: &[&[u8]]) -> Result<Words, AllocError> {
    let mut words = Vec::new(alloc);
    for word in line {
        words.push(copy(alloc, word)?)?;
    }
    Ok(Words::from_vec(words))
}

/// A list of this number, or of none for 0.
fn failing(alloc: Global, number: u64) -> Result<Numbers, AllocError> {
    let mut numbers = Vec::new(alloc);
    if number > 0 {
        numbers.push(number)?;
    }
    Ok(Numbers::from_vec(numbers))
}

/// A source of these bytes in pieces of that size, the read of which with that number fails.
fn source(alloc: Global, bytes: &[u8], piece: u32, fails: u64) -> Result<MemSource, AllocError> {
    let content = copy(alloc, bytes)?;
    Ok(MemSource::new(content, piece.max(1), failing(alloc, fails)?))
}

/// A sink with that room, the write of which with that number fails.
fn sink(alloc: Global, room: usize, fails: u64) -> Result<MemSink, AllocError> {
    MemSink::new(alloc, room, failing(alloc, fails)?)
}

/// Compares what a run left.
fn compare(case: Case<'_>, status: u8, out: &[u8], err: &[u8]) -> Result<(), Fail> {
    if status != case.status {
        return Err(Fail::from(status));
    }
    if out != case.out {
        return Err(Fail::from(std::str::from_utf8(out)));
    }
    if err != case.err {
        return Err(Fail::from(std::str::from_utf8(err)));
    }
    Ok(())
}

/// Runs the case, disturbed so, and compares what it left.
fn expect_disturbed(alloc: Global, case: Case<'_>, how: Disturbed) -> Result<(), Fail> {
    let words = words_of(alloc, case.words)?;
    let mut keys = source(alloc, case.keys, 1_000, how.keys)?;
    let mut input = source(alloc, case.input, how.piece, how.input)?;
    let mut out = sink(alloc, how.room, how.out)?;
    let mut err = sink(alloc, 65_536, how.err)?;
    let status = run(alloc, &words, &mut keys, &mut input, &mut out, &mut err);
    compare(case, status, out.bytes(), err.bytes())
}
