//! What is known over sources and sinks in memory of which no call is told to fail: proved callers.
ghost use Rattle.std.specs.Prelude.{◌≡◌, ◌+◌, ◌<◌, ◌≤◌, ◌++◌, length, IfOk, IfSome};

use ao_base::{Failed, MemSink, MemSource, ReadProblem, read_all, write_all};
use book_base::{Bytes, Numbers};
use std::alloc::{AllocError, Global};
use std::test::Fail;

/// A new sink with more room than both texts are long, once they are written to it: no write fails.
fn both_written(
    alloc: Global,
    room: usize,
    first: &[u8],
    second: &[u8],
) -> Result<MemSink, AllocError>
    requires { length first.now + length second.now < room }
    ensures { IfOk result (λ sink. sink.held ≡ first.now ++ second.now) }
{
    let mut sink = MemSink::new(alloc, room, Numbers::from_vec(Vec::new(alloc)))?;
    match write_all(&mut sink, first) {
        Ok(()) => {}
        Err(Failed) => unreachable!(),
    }
    match write_all(&mut sink, second) {
        Ok(()) => Ok(sink),
        Err(Failed) => unreachable!(),
    }
}

/// All bytes of a new source, in its pieces: no read fails.
fn all_read(alloc: Global, content: Bytes, piece: u32) -> Option<Bytes>
    requires { 1 ≤ piece }
    ensures { IfSome result (λ bytes. bytes ≡ content) }
{
    let most = content.as_slice().len() as u64;
    let mut src = MemSource::new(content, piece, Numbers::from_vec(Vec::new(alloc)));
    match read_all(alloc, &mut src, most) {
        Ok(bytes) => Some(bytes),
        Err(ReadProblem::Memory) => None,
        Err(ReadProblem::Fault) => unreachable!(),
        Err(ReadProblem::TooLong) => unreachable!(),
    }
}

#[test]
fn no_write_fails_with_room_left(rt: HostRuntime) -> Result<(), Fail> {
    let sink = both_written(rt.alloc(), 8, b"hel".as_slice(), b"lo".as_slice())?;
    assert!(rt; sink.bytes() == b"hello".as_slice());
    Ok(())
}

#[test]
fn no_read_fails_untold(rt: HostRuntime) -> Result<(), Fail> {
    let content = Bytes::from_vec(Vec::from_slice(rt.alloc(), b"hello".as_slice())?);
    let bytes = all_read(rt.alloc(), content, 2).ok_or("out of memory")?;
    assert!(rt; bytes.as_slice() == b"hello".as_slice());
    Ok(())
}
