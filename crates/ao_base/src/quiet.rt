//! A source and a sink that never fail.
ghost use Rattle.std.specs.Prelude.{◌≡◌, ℕ, ◌≤◌, ◌++◌, List, Some, None, Result, Ok, length, take, drop, min};
ghost use Rattle.ao_base.specs.Outside.{Side, Reads, Writes, wary};

use crate::memory::give;
use crate::outside::{Failed, Sink, Source};
use book_base::Bytes;
use std::marker::Model;

/// A source over bytes in memory that never fails: its count of faults is the constant 0. It tells
/// its bytes.
#[derive(Debug, Drop)]
pub struct QuietSource {
    content: Bytes,
    at: usize,
}

impl Model for QuietSource {
    ghost Value = { List ℕ };

    ghost view = { λ s. drop s.at s.content };

    ghost invariant = { λ s. s.at ≤ length s.content };
}

impl QuietSource {
    /// The source that gives these bytes.
    pub fn new(content: Bytes) -> QuietSource
        ensures { result ≡ content }
    {
        QuietSource { content, at: 0 }
    }

    fn left(&self) -> &[u8]
        ensures { result.now ≡ self.now }
    {
        let all = self.content.as_slice();
        &all[self.at..]
    }
}

impl Source for QuietSource {
    ghost side = { λ left. wary (Some left) 0 };

    /// Gives the lesser of what is left and the length of `buf`.
    fn read(&mut self, buf: &mut [u8]) -> Result<usize, Failed>
        ensures reads { Reads (wary (Some self.old) 0) (wary (Some self.new) 0) buf.new result }
        ensures least { result ≡ Ok (min (length buf.old) (length self.old)) }
        ensures buffer { buf.new ≡ take (length buf.old) self.old ++ drop (length self.old) buf.old }
    {
        // The content has a length of 64 bits, and so has each place in it: the proof sees it here.
        let _total = self.content.as_slice().len();
        let n = give(self.left(), usize::MAX, buf);
        self.at += n;
        Ok(n)
    }
}

/// A sink that keeps nothing and never fails: its count of faults is the constant 0.
#[derive(Debug, Drop)]
pub struct QuietSink;

impl QuietSink {
    /// A sink that takes everything.
    pub fn new() -> QuietSink {
        QuietSink
    }
}

impl Sink for QuietSink {
    ghost side = { λ _. wary None 0 };

    /// Takes all of `buf`.
    fn write(&mut self, buf: &[u8]) -> Result<usize, Failed>
        ensures writes { Writes (wary None 0) (wary None 0) buf.now result }
        ensures whole { result ≡ Ok (length buf.now) }
    {
        Ok(buf.len())
    }
}
