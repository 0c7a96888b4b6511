//! Readers and writers of std as sources and sinks.
ghost use Rattle.std.specs.Prelude.{◌≡◌, ℕ};
ghost use Rattle.ao_base.specs.Adapters.{side_of_sink, side_of_source, sink_over, source_over};
ghost use Rattle.ao_base.specs.Outside.{Side, Reads, Writes, CountsOnce};

use crate::outside::{Failed, Sink, Source};
use std::io::{Read, Write};

/// A reader as a source. Its count of faults, 0 when made, is raised by one at each error of the
/// reader, up to 2^64 - 1. It tells its bytes where the reader does.
#[derive(Drop)]
pub struct ReadSource<R> {
    reader: R,
    faults: u64,
}

impl<R: Read> ReadSource<R> {
    /// The source that gives what the reader has left.
    pub fn new(reader: R) -> ReadSource<R>
        ensures { result ≡ source_over reader }
    {
        ReadSource { reader, faults: 0 }
    }
}

impl<R: Read> Source for ReadSource<R> {
    ghost side = { side_of_source R.remaining };

    /// What the reader gives. The count rises by one at Failed, and stays as it was at Ok.
    fn read(&mut self, buf: &mut [u8]) -> Result<usize, Failed>
        ensures reads { Reads (side_of_source R.remaining self.old) (side_of_source R.remaining self.new) buf.new
            result }
        ensures counts { CountsOnce (side_of_source R.remaining self.old).faults
            (side_of_source R.remaining self.new).faults result }
    {
        match self.reader.read(buf) {
            Ok(n) => Ok(n),
            Err(_) => {
                self.faults = self.faults.saturating_add(1);
                Err(Failed)
            }
        }
    }
}

/// A writer as a sink. Its count of faults, 0 when made, is raised by one at each error of the
/// writer and where it takes no byte of a piece that isn't empty, up to 2^64 - 1. It tells its bytes
/// where the writer does.
#[derive(Drop)]
pub struct WriteSink<W> {
    writer: W,
    faults: u64,
}

impl<W: Write> WriteSink<W> {
    /// The sink that puts what it takes into the writer.
    pub fn new(writer: W) -> WriteSink<W>
        ensures { result ≡ sink_over writer }
    {
        WriteSink { writer, faults: 0 }
    }
}

impl<W: Write> Sink for WriteSink<W> {
    ghost side = { side_of_sink W.contents };

    /// What the writer takes. The count rises by one at Failed, and stays as it was at Ok.
    fn write(&mut self, buf: &[u8]) -> Result<usize, Failed>
        ensures writes { Writes (side_of_sink W.contents self.old) (side_of_sink W.contents self.new) buf.now result }
        ensures counts { CountsOnce (side_of_sink W.contents self.old).faults (side_of_sink W.contents self.new).faults
            result }
    {
        match self.writer.write(buf) {
            Ok(n) => {
                if n == 0 && !buf.is_empty() {
                    self.faults = self.faults.saturating_add(1);
                    return Err(Failed);
                }
                Ok(n)
            }
            Err(_) => {
                self.faults = self.faults.saturating_add(1);
                Err(Failed)
            }
        }
    }
}
