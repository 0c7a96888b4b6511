//! Sources, sinks and buffers. Hexadecimal, addresses and decimals stand in the examples of each command.
ghost use Rattle.std.specs.Prelude.{◌≡◌};

use ao_base::{
    Buffer, Failed, MemSink, MemSource, QuietSource, ReadProblem, ReadSource, Sink, Source,
    WriteSink, read_all, write_all,
};
use book_base::{Bytes, Numbers};
use std::alloc::{AllocError, Global};
use std::io::{Error, Read, Write};
use std::test::Fail;

/// A reader and a writer that always fail.
#[derive(Drop)]
struct Broken;

impl Read for Broken {
    fn read(&mut self, _buf: &mut [u8]) -> std::io::Result<usize> {
        Err(Error::other("broken"))
    }
}

impl Write for Broken {
    fn write(&mut self, _buf: &[u8]) -> std::io::Result<usize> {
        Err(Error::other("broken"))
    }

    fn flush(&mut self) -> std::io::Result<()> {
        Ok(())
    }
}

/// A writer that takes nothing.
#[derive(Drop)]
struct Stuck;

impl Write for Stuck {
    fn write(&mut self, _buf: &[u8]) -> std::io::Result<usize> {
        Ok(0)
    }

    fn flush(&mut self) -> std::io::Result<()> {
        Ok(())
    }
}

fn bytes_of(alloc: Global, text: &[u8]) -> Result<Bytes, AllocError> {
    Ok(Bytes::from_vec(Vec::from_slice(alloc, text)?))
}

fn numbers_of(alloc: Global, numbers: &[u64]) -> Result<Numbers, AllocError> {
    Ok(Numbers::from_vec(Vec::from_slice(alloc, numbers)?))
}

// A source of `hello` in pieces of two bytes, whose calls of these numbers fail.
fn hello_source(alloc: Global, failing: &[u64]) -> Result<MemSource, AllocError> {
    let content = bytes_of(alloc, b"hello".as_slice())?;
    Ok(MemSource::new(content, 2, numbers_of(alloc, failing)?))
}

// A sink with room for seven bytes, whose calls of these numbers fail.
fn small_sink(alloc: Global, failing: &[u64]) -> Result<MemSink, AllocError> {
    MemSink::new(alloc, 7, numbers_of(alloc, failing)?)
}

// Each call with long clauses stands in a function without any, so that the proof of a test has none of
// them before it.
fn read<S: Source>(alloc: Global, src: &mut S, most: u64) -> Result<Bytes, ReadProblem> {
    read_all(alloc, src, most)
}

fn write<S: Sink>(sink: &mut S, bytes: &[u8]) -> Result<(), Failed> {
    write_all(sink, bytes)
}

#[test]
fn a_source_is_read_to_its_end_in_pieces(rt: HostRuntime) -> Result<(), Fail> {
    let mut src = hello_source(rt.alloc(), [].as_slice())?;
    let bytes = read(rt.alloc(), &mut src, 5)?;
    assert!(rt; bytes.as_slice() == b"hello".as_slice());
    Ok(())
}

#[test]
fn a_source_with_a_byte_more_is_too_long(rt: HostRuntime) -> Result<(), Fail> {
    let mut src = QuietSource::new(bytes_of(rt.alloc(), b"hello")?);
    let long = read(rt.alloc(), &mut src, 4);
    assert!(rt; matches!(long, Err(ReadProblem::TooLong)));
    Ok(())
}

#[test]
fn a_reader_is_read_to_its_end(rt: HostRuntime) -> Result<(), Fail> {
    let mut src = ReadSource::new(b"hello".as_slice());
    let bytes = read(rt.alloc(), &mut src, 9)?;
    assert!(rt; bytes.as_slice() == b"hello".as_slice());
    Ok(())
}

#[test]
fn a_read_that_fails_in_the_middle_is_a_fault(rt: HostRuntime) -> Result<(), Fail> {
    let mut src = hello_source(rt.alloc(), [2].as_slice())?;
    let failed = matches!(read(rt.alloc(), &mut src, 9), Err(ReadProblem::Fault));
    let rest = read(rt.alloc(), &mut src, 9)?;
    assert!(rt; failed && rest.as_slice() == b"llo".as_slice());
    Ok(())
}

#[test]
fn a_sink_holds_what_fits(rt: HostRuntime) -> Result<(), Fail> {
    let mut sink = small_sink(rt.alloc(), [].as_slice())?;
    write(&mut sink, b"hello".as_slice())?;
    assert!(rt; write(&mut sink, b"you".as_slice()).is_err());
    assert!(rt; sink.bytes() == b"helloyo".as_slice());
    Ok(())
}

#[test]
fn a_sink_holds_nothing_of_a_write_that_fails(rt: HostRuntime) -> Result<(), Fail> {
    let mut sink = small_sink(rt.alloc(), [1].as_slice())?;
    assert!(rt; write(&mut sink, b"hello".as_slice()).is_err());
    assert!(rt; sink.bytes() == b"".as_slice());
    Ok(())
}

#[test]
fn a_writer_gets_the_bytes(rt: HostRuntime) -> Result<(), Fail> {
    let mut text = Vec::new(rt.alloc());
    let mut sink = WriteSink::new(&mut text);
    write(&mut sink, b"hello".as_slice())?;
    assert!(rt; text.as_slice() == b"hello".as_slice());
    Ok(())
}

/// Takes more into a buffer of four bytes that isn't full.
fn more(buffer: &mut Buffer, src: &mut MemSource) -> Result<usize, Fail>
    requires { buffer.old.size ≡ 4 }
    ensures { buffer.new.size ≡ 4 }
{
    if buffer.kept().len() > 3 {
        return Err(Fail::from("full"));
    }
    Ok(buffer.more(src)?)
}

/// Hands out so many bytes of a buffer of four bytes, and passes over them.
fn hand_out(buffer: &mut Buffer, len: usize) -> Result<(), Fail>
    requires { buffer.old.size ≡ 4 }
    ensures { buffer.new.size ≡ 4 }
{
    if buffer.kept().len() < len {
        return Err(Fail::from("fewer are kept"));
    }
    buffer.pass(0, len, len);
    Ok(())
}

/// Takes so many more into a buffer of four bytes, which then keeps these.
fn expect_more(
    buffer: &mut Buffer,
    src: &mut MemSource,
    count: usize,
    kept: &[u8],
) -> Result<(), Fail>
    requires { buffer.old.size ≡ 4 }
    ensures { buffer.new.size ≡ 4 }
{
    let taken = more(buffer, src)?;
    if taken != count || buffer.kept() != kept {
        return Err(Fail::from("other bytes are kept"));
    }
    Ok(())
}

/// Hands out two of the six bytes that come in pieces of three, and then takes the others.
fn expect_moved(buffer: &mut Buffer, src: &mut MemSource) -> Result<(), Fail>
    requires { buffer.old.size ≡ 4 }
{
    expect_more(buffer, src, 3, b"abc".as_slice())?;
    hand_out(buffer, 2)?;
    if buffer.piece() != b"ab".as_slice() {
        return Err(Fail::from("another piece is handed out"));
    }
    expect_more(buffer, src, 1, b"cd".as_slice())?;
    expect_more(buffer, src, 2, b"cdef".as_slice())
}

#[test]
fn a_full_buffer_moves_its_bytes(rt: HostRuntime) -> Result<(), Fail> {
    let failing = numbers_of(rt.alloc(), [].as_slice())?;
    let mut src = MemSource::new(bytes_of(rt.alloc(), b"abcdef")?, 3, failing);
    let mut buffer = Buffer::new(rt.alloc(), 4)?;
    expect_moved(&mut buffer, &mut src)
}

#[test]
fn a_fault_of_a_reader_is_told(rt: HostRuntime) -> Result<(), Fail> {
    let read = read(rt.alloc(), &mut ReadSource::new(Broken), 9);
    assert!(rt; matches!(read, Err(ReadProblem::Fault)));
    Ok(())
}

#[test]
fn faults_of_writers_are_told(rt: HostRuntime) -> Result<(), Fail> {
    assert!(rt; write(&mut WriteSink::new(Broken), b"hello".as_slice()).is_err());
    assert!(rt; write(&mut WriteSink::new(Stuck), b"hello".as_slice()).is_err());
    Ok(())
}
