//! Whole reads and whole writes.
ghost use Rattle.std.specs.Prelude.{◌≡◌, ℕ, ◌+◌, ◌<◌, ◌≤◌, List, min};
ghost use Rattle.ao_base.specs.Outside.{Side, WritesAll};
ghost use Rattle.ao_base.specs.ReadAll.{ReadsAll};

use crate::outside::{Failed, Sink, Source};
use book_base::Bytes;
use std::alloc::Global;
use thiserror::Error;

/// Why not all bytes were read.
#[derive(Debug, Drop, Error)]
pub enum ReadProblem {
    #[error("out of memory")]
    Memory,
    #[error("a fault of the outside")]
    Fault,
    #[error("too long")]
    TooLong,
}

/// The most bytes that one call asks a source for.
const BLOCK: usize = 16384;

/// All bytes that the source has left, to its end. It takes at most `most` + 1 bytes from it.
///
/// Fault comes only where the source's count of faults rose, and TooLong exactly where it gave more
/// than `most` bytes. So over a source that doesn't fail, as a `MemSource` of which no call is told to,
/// and that has at most `most` bytes left, only want of memory is in the way.
pub fn read_all<S: Source>(alloc: Global, src: &mut S, most: u64) -> Result<Bytes, ReadProblem>
    ensures { (given : List ℕ) × ReadsAll (S.side src.old) (S.side src.new) most given result }
{
    let mut all: Vec<u8> = Vec::new(alloc);
    let mut buf = [0u8; BLOCK];
    'reads: loop {
        let left = most - all.len() as u64;
        let Ok(n) = src.read(&mut buf[..wanted(left)]) else {
            return Err(ReadProblem::Fault);
        };
        if n == 0 {
            return Ok(Bytes::from_vec(all));
        }
        if n as u64 > left {
            return Err(ReadProblem::TooLong);
        }
        let Ok(()) = all.extend_from_slice(&buf[..n]) else {
            return Err(ReadProblem::Memory);
        };
    }
}

// How many bytes one call asks for where so many more are allowed: one more shows that there are too
// many.
fn wanted(left: u64) -> usize
    ensures { result ≡ min (left + 1) 16384 }
{
    if left < BLOCK as u64 {
        left as usize + 1
    } else {
        BLOCK
    }
}

/// Writes all bytes, in as many calls as the sink needs.
///
/// Failed leaves a proper front part of them in the sink, and comes only where its count of faults
/// rose: never over a new `MemSink` of which no call is told to fail, with more room than all that is
/// written to it.
pub fn write_all<S: Sink>(sink: &mut S, bytes: &[u8]) -> Result<(), Failed>
    ensures { (n : ℕ) × WritesAll (S.side sink.old) (S.side sink.new) bytes.now n result }
{
    let mut at = 0;
    while at < bytes.len() {
        let Ok(n) = sink.write(&bytes[at..]) else {
            return Err(Failed);
        };
        at += n;
    }
    Ok(())
}
