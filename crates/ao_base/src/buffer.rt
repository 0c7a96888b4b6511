//! The bytes that were taken from a source and are still wanted, in memory of a fixed size, of which
//! only as much is touched as they need.
ghost use Rattle.std.specs.Prelude.{◌≡◌, ℕ, ◌+◌, ◌-◌, ◌<◌, ◌≤◌, List, [], length, take, drop, slice_range};
ghost use Rattle.std.specs.Prelude.{vec_capacity, IfOk};
ghost use Rattle.ao_base.specs.Outside.{Side, Reads};
ghost use Rattle.ao_base.specs.Buffered.{Buffered, TakesMore};

use crate::outside::{Failed, Source};
use std::alloc::{AllocError, Global};
use std::marker::Model;

/// The most bytes that one read asks for, as many as a pipe holds.
const LONGEST_READ: usize = 65_536;

/// Bytes that were taken and not yet passed over, with the piece that was handed out last.
#[derive(Debug, Drop)]
pub struct Buffer {
    bytes: Vec<u8>,
    size: usize,
    first: usize,
    after: usize,
    from: usize,
    to: usize,
}

impl Model for Buffer {
    ghost use Rattle.std.specs.Prelude.{◌≤◌, length, slice_range, vec_capacity};
    ghost use Rattle.ao_base.specs.Buffered.{Buffered};

    ghost Value = { Buffered };

    ghost view = { λ b. record {
      kept = slice_range b.bytes.items b.from b.to;
      piece = slice_range b.bytes.items b.first b.after;
      size = b.size;
    } };

    ghost invariant = { λ b. (b.first ≤ b.after) × (b.after ≤ length b.bytes.items) × (b.from ≤ b.to)
        × (b.to ≤ length b.bytes.items) × (length b.bytes.items ≤ b.size) × (b.size ≤ vec_capacity b.bytes) };
}

impl Buffer {
    /// An empty buffer for `size` bytes. It takes all its memory here, and touches none of it.
    pub fn new(alloc: Global, size: usize) -> Result<Buffer, AllocError>
        ensures { IfOk result (λ b. b ≡ record { kept = []; piece = []; size = size }) }
    {
        let bytes = Vec::with_capacity(alloc, size)?;
        Ok(Buffer {
            bytes,
            size,
            first: 0,
            after: 0,
            from: 0,
            to: 0,
        })
    }

    /// The bytes that are kept, never more than the size.
    pub fn kept(&self) -> &[u8]
        ensures value { result.now ≡ self.now.kept }
        ensures fits { length result.now ≤ self.now.size }
    {
        &self.bytes.as_slice()[self.from..self.to]
    }

    /// The piece that was handed out last.
    pub fn piece(&self) -> &[u8]
        ensures { result.now ≡ self.now.piece }
    {
        &self.bytes.as_slice()[self.first..self.after]
    }

    /// Hands out the kept bytes from `first` up to `after`, and passes over the first `past`.
    pub fn pass(&mut self, first: usize, after: usize, past: usize)
        requires ordered { first ≤ after }
        requires within { after ≤ length self.old.kept }
        requires past { past ≤ length self.old.kept }
        ensures { self.new
            ≡ record {
              kept = drop past self.old.kept;
              piece = slice_range self.old.kept first after;
              size = self.old.size;
            } }
    {
        self.first = self.from + first;
        self.after = self.from + after;
        self.from += past;
    }

    /// Takes the next bytes of the source after those that are kept, and answers how many; none
    /// only at its end. Nothing is handed out then.
    pub fn more<S: Source>(&mut self, src: &mut S) -> Result<usize, Failed>
        requires { length self.old.kept < self.old.size }
        ensures { (given : List ℕ) × TakesMore self.old self.new (S.side src.old) (S.side src.new) given result }
    {
        let len = self.to - self.from;
        let (from, to, size) = (self.from, self.to, self.size);
        let front = make_room(self.bytes.as_mut_slice(), from, to, size);
        let at = front + len;
        self.first = 0;
        self.after = 0;
        self.from = front;
        self.to = at;
        reach(&mut self.bytes, at, size);
        let Ok(n) = fill(src, self.bytes.as_mut_slice(), at) else {
            return Err(Failed);
        };
        self.to = at + n;
        Ok(n)
    }
}

// Where the bytes from `from` up to `to` begin afterwards, with room for more of `size` behind them:
// moved to the front, where they reached to the end. So they are too where a read's worth was passed,
// and they are no more than that: a large buffer of which little is kept stays in the nearest memory.
fn make_room(bytes: &mut [u8], from: usize, to: usize, size: usize) -> usize
    requires ordered { from ≤ to }
    requires within { to ≤ length bytes.old }
    requires fits { length bytes.old ≤ size }
    requires room { to - from < size }
    ensures same { take (to - from) (drop result bytes.new) ≡ slice_range bytes.old from to }
    ensures within { result + (to - from) ≤ length bytes.new }
    ensures room { result + (to - from) < size }
{
    let is_far = from >= LONGEST_READ && from >= to - from;
    if to < size && !is_far {
        return from;
    }
    bytes.copy_within(from..to, 0);
    0
}

// Lengthens the bytes, within the memory that they have, to where a read at `at` ends.
fn reach(bytes: &mut Vec<u8>, at: usize, size: usize)
    requires room { at < size }
    requires within { at ≤ length bytes.old.items }
    requires fits { length bytes.old.items ≤ size }
    requires memory { size ≤ vec_capacity bytes.old }
    ensures same { take at bytes.new.items ≡ take at bytes.old.items }
    ensures room { at < length bytes.new.items }
    ensures fits { length bytes.new.items ≤ size }
    ensures memory { size ≤ vec_capacity bytes.new }
{
    let end = end_of_read(at, size);
    if bytes.len() < end {
        let _ = bytes.resize(end, 0);
    }
}

// Where a read at `at` ends at most, in a buffer for `size` bytes.
fn end_of_read(at: usize, size: usize) -> usize
    requires { at < size }
    ensures some { at < result }
    ensures within { result ≤ size }
{
    if size - at < LONGEST_READ {
        size
    } else {
        at + LONGEST_READ
    }
}

// Reads into the bytes from `at` on, a read's worth at most.
fn fill<S: Source>(src: &mut S, bytes: &mut [u8], at: usize) -> Result<usize, Failed>
    requires { at < length bytes.old }
    ensures front { take at bytes.new ≡ take at bytes.old }
    ensures reads { Reads (S.side src.old) (S.side src.new) (drop at bytes.new) result }
{
    let end = end_of_read(at, bytes.len());
    src.read(&mut bytes[at..end])
}
