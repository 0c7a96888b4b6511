//! Runs over a reader and a writer of ten bytes a call, one of which may fail.
use super::{Case, compare, sink, source, words_of};
use ao_base::{ReadSource, WriteSink};
use ao_run::run;
use std::alloc::Global;
use std::io::{self, ErrorKind, Read, Write};
use std::test::Fail;

/// A reader or a writer in memory, the call of which with this number fails; none for 0.
#[derive(Drop)]
struct Halting<T> {
    inner: T,
    failing: u64,
    calls: u64,
}

impl<T> Halting<T> {
    fn turn(&mut self) -> io::Result<()> {
        self.calls = self.calls.saturating_add(1);
        if self.calls == self.failing {
            return Err(io::Error::from(ErrorKind::ConnectionReset));
        }
        Ok(())
    }
}

impl<T: Read> Read for Halting<T> {
    fn read(&mut self, buf: &mut [u8]) -> io::Result<usize> {
        self.turn()?;
        let most = buf.len().min(10);
        self.inner.read(&mut buf[..most])
    }
}

impl<T: Write> Write for Halting<T> {
    fn write(&mut self, buf: &[u8]) -> io::Result<usize> {
        self.turn()?;
        let most = buf.len().min(10);
        self.inner.write(&buf[..most])
    }

    fn flush(&mut self) -> io::Result<()> {
        Ok(())
    }
}

/// Runs the case, in which the read of the input and the write of the output with these numbers fail,
/// and compares what it left.
pub(super) fn expect_halting(
    alloc: Global,
    case: Case<'_>,
    read: u64,
    write: u64,
) -> Result<(), Fail> {
    let words = words_of(alloc, case.words)?;
    let mut keys = source(alloc, case.keys, 1, 0)?;
    let mut out = Vec::new(alloc);
    let mut err = sink(alloc, 1_000, 0)?;
    let reader = Halting {
        inner: case.input,
        failing: read,
        calls: 0,
    };
    let writer = Halting {
        inner: &mut out,
        failing: write,
        calls: 0,
    };
    let mut input = ReadSource::new(reader);
    let status = run(
        alloc,
        &words,
        &mut keys,
        &mut input,
        &mut WriteSink::new(writer),
        &mut err,
    );
    compare(case, status, out.as_slice(), err.bytes())
}
