//! The bytes received, in order or not.
ghost use Rattle.std.specs.Prelude.{◌≡◌, ℕ, ◌+◌, ◌^◌, ◌≤◌, ◌↔◌, ◌++◌, None, IsTrue, IsSome, IsOk, IfOk, OnOk, OnErr};
ghost use Rattle.std.specs.Prelude.{length, min, drop};
ghost use Rattle.book_segments.specs.Received.{below_limit, bytes_from, most_runs};
ghost use Rattle.stream_buffers.specs.Kept.{IsKept, RunsFrom, Shows, byte_at, forgotten_below, grown, missing_then};
ghost use Rattle.stream_buffers.specs.Kept.{ready_count, runs_then, window};

use crate::buffer::{BUFFER_LENGTH, write};
use crate::run::{Run, Span};
use crate::slots::Slots;
use crate::walk::{Place, find, join};
use ao_base::Steps;
use std::alloc::{AllocError, Global};
use std::marker::Model;
use std::sync::ledger::Ledger;
use thiserror::Error;

/// How many positions lie from the first one that isn't taken to the end of the window: as many as
/// the window field can say (RFC 9293, section 3.1).
const WINDOW: u64 = 65_535;
/// How many separate runs are kept past the first missing position at most (own).
const MOST_RUNS: u32 = 64;

/// More than 64 separate runs would lie past the first missing position.
#[derive(Clone, Copy, Debug, Error, PartialEq, Eq)]
#[error("too many runs")]
pub struct TooManyRuns;

/// The bytes that were received and aren't taken, seen as a finite map from positions to bytes,
/// with the first position that isn't taken and the first missing one (RFC 9293, section 3.10.7.4).
///
/// The bytes lie in a buffer by their positions. Those from `from` to below `expected` are ready,
/// the others lie in the runs of the pool, and `end` is one past the last of all.
#[derive(Drop)]
pub struct Reassembly {
    buffer: Vec<u8>,
    from: u64,
    expected: u64,
    end: u64,
    runs: Slots<Run>,
}

impl Model for Reassembly {
    ghost use Rattle.stream_buffers.specs.Kept.{Kept, kept_code};

    ghost Value = { Kept };

    ghost coded = { kept_code };

    ghost use Rattle.stream_buffers.specs.Spans.{IsSound, seen};

    ghost view = { λ r. seen r.buffer.items r.from r.expected r.runs.pairs };

    ghost invariant = { λ r. IsSound r.buffer.items r.from r.expected r.end r.runs };
}

impl Reassembly {
    /// One without a byte whose first missing position is `first`, at most 2^63, with all its
    /// memory; `AllocError` is want of memory.
    pub fn new(alloc: Global, first: u64) -> Result<Reassembly, AllocError>
        requires { first ≤ 2 ^ 63 }
        ensures { IfOk result (λ r. Shows r first first (λ p. None)) }
    {
        let buffer = vec![in alloc; 0; BUFFER_LENGTH as usize]?;
        let runs = Slots::new(alloc, MOST_RUNS)?;
        Ok(Reassembly {
            buffer,
            from: first,
            expected: first,
            end: first,
            runs,
        })
    }

    /// The first missing position, which is the number expected next (RFC 9293, section 3.3.1).
    pub fn expected(&self) -> u64
        ensures expected { result ≡ self.now.expected }
        ensures sound { IsKept self.now }
    {
        self.expected
    }

    /// How many bytes are ready to be taken: those in front of the first missing one.
    pub fn ready(&self) -> usize
        ensures { result ≡ ready_count self.now }
    {
        (self.expected - self.from) as usize
    }

    /// How many positions are open from the first missing one on: 65,535 less the ready bytes (RFC
    /// 9293, section 3.8.6).
    pub fn window(&self) -> u16
        ensures { result ≡ window self.now }
    {
        (WINDOW - (self.expected - self.from)) as u16
    }

    /// Keeps those bytes of a piece that lie from the first missing position on, in the window and
    /// below `limit`, and aren't kept yet; a byte that is kept already stays as it is. The bytes
    /// that then follow the ready ones without a gap become ready (RFC 9293, section 3.10.7.4). The
    /// piece begins at position `number` and ends at 2^63 at the latest.
    ///
    /// `TooManyRuns` exactly where more than 64 separate runs would then lie past the first missing
    /// position; then nothing changes. It counts at most 65 steps, and none for a piece without bytes.
    pub fn keep<L: Ledger>(
        &mut self,
        number: u64,
        bytes: &[u8],
        limit: Option<u64>,
        steps: &mut Steps<L>,
    ) -> Result<(), TooManyRuns>
        requires { number + length bytes.now ≤ 2 ^ 63 }
        ensures variant { IsOk result ↔
            (runs_then self.old (grown self.old number bytes.now limit) ≤ most_runs) }
        ensures ok { OnOk result (Shows self.new self.old.from
            (missing_then self.old (grown self.old number bytes.now limit))
            (grown self.old number bytes.now limit)) }
        ensures err { OnErr result (self.new ≡ self.old) }
        ensures steps { steps.new ≤ steps.old + 65 }
        ensures bare { length bytes.now ≡ 0 → steps.new ≡ steps.old }
    {
        let low = number.max(self.expected);
        let edge = below(limit, self.from + WINDOW);
        let high = edge.min(number + bytes.len() as u64);
        if high <= low {
            return Ok(());
        }
        let piece = &bytes[(low - number) as usize..(high - number) as usize];
        match find(&self.runs, self.expected, low, high, steps) {
            Place::Touching(base) => {
                self.expected = join(
                    &mut self.buffer,
                    &mut self.runs,
                    base,
                    self.expected,
                    low,
                    piece,
                    steps,
                );
                self.end = self.end.max(high);
                Ok(())
            }
            Place::Behind(_) if low == self.expected => {
                write(&mut self.buffer, low, piece, low, high);
                self.expected = high;
                self.end = self.end.max(high);
                Ok(())
            }
            Place::Behind(last) => {
                match self.runs.insert_after(last, Run::of(Span::new(low, high))) {
                    Ok(_) => {}
                    Err(_) => return Err(TooManyRuns),
                }
                write(&mut self.buffer, low, piece, low, high);
                self.end = self.end.max(high);
                Ok(())
            }
        }
    }

    /// Moves the first ready bytes to the front of `out`, as many as fit, and answers how many they
    /// are. The rest of `out` stays.
    pub fn take(&mut self, out: &mut [u8]) -> usize
        ensures count { result ≡ min (length out.old) (ready_count self.old) }
        ensures taken { out.new ≡
            bytes_from (byte_at self.old) self.old.from result ++ drop result out.old }
        ensures rest { Shows self.new (self.old.from + result) self.old.expected
            (forgotten_below (self.old.from + result) (byte_at self.old)) }
    {
        let count = out.len().min((self.expected - self.from) as usize);
        for index in 0..count {
            out[index] = self.buffer[((self.from + index as u64) % BUFFER_LENGTH) as usize];
        }
        self.from += count as u64;
        count
    }

    /// Whether some byte at or past a position is kept, ready or not.
    pub fn kept_from(&self, position: u64) -> bool
        ensures { IsTrue result ↔ ((p : ℕ) × (position ≤ p) × IsSome (byte_at self.now p)) }
    {
        position < self.end && self.from < self.end
    }

    /// Forgets all bytes; the first missing position is then `first`, at most 2^63.
    pub fn restart(&mut self, first: u64)
        requires { first ≤ 2 ^ 63 }
        ensures { Shows self.new first first (λ p. None) }
    {
        while let Some(slot) = self.runs.first() {
            self.runs.remove(slot);
        }
        self.from = first;
        self.expected = first;
        self.end = first;
    }

    /// The pool of 64 places in which the runs are kept. Its items are, in order, the separate runs
    /// of bytes past the first missing position.
    pub fn runs(&self) -> &Slots<Run>
        ensures places { result.now.capacity ≡ most_runs }
        ensures runs { RunsFrom (byte_at self.now) self.now.expected result.now.pairs }
    {
        &self.runs
    }
}

/// The lesser of `end` and a limit, where there is one.
fn below(limit: Option<u64>, end: u64) -> u64
    ensures { result ≡ below_limit limit end }
{
    match limit {
        Some(limit) => limit.min(end),
        None => end,
    }
}
