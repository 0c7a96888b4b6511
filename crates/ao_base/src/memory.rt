//! A source and a sink in memory, whose calls fail where they are told to.
ghost use Rattle.std.specs.Prelude.{◌≡◌, ℕ, ◌+◌, ◌<◌, ◌≤◌, ◌++◌, List, [], Some, length, take, drop, min};
ghost use Rattle.std.specs.Prelude.{vec_capacity, IfOk};
ghost use Rattle.std.specs.List.{list_any};
ghost use Rattle.std.specs.Prelude.{◌==◌};
ghost use Rattle.ao_base.specs.InMemory.{GivingState, TakingState, Gives, Takes, IsTaking, giving_side, taking_side};
ghost use Rattle.ao_base.specs.Outside.{Side, Reads, Writes, one_later};

use crate::outside::{Failed, Sink, Source};
use book_base::{Bytes, Numbers};
use std::alloc::{AllocError, Global};
use std::marker::Model;

/// A source over bytes in memory. It tells its bytes, and its calls fail where they are told to:
/// where none is, the count of faults never rises.
#[derive(Debug, Drop)]
pub struct MemSource {
    content: Bytes,
    at: usize,
    piece: u32,
    failing: Numbers,
    calls: u64,
    faults: u64,
}

impl Model for MemSource {
    ghost Value = { GivingState };

    ghost view = { λ s. record {
      left = drop s.at s.content;
      piece = s.piece;
      failing = s.failing;
      calls = s.calls;
      faults = s.faults;
    } };

    ghost invariant = { λ s. (s.at ≤ length s.content) × (1 ≤ s.piece) };
}

impl MemSource {
    /// The source that gives these bytes, at most `piece` in one call, which is at least 1. Its
    /// calls are numbered from 1, and all from 2^64 - 1 on have that number; those fail whose number
    /// stands in `failing`. Its count of faults is 0.
    pub fn new(content: Bytes, piece: u32, failing: Numbers) -> MemSource
        requires { 1 ≤ piece }
        ensures { result ≡ record { left = content; piece = piece; failing = failing; calls = 0; faults = 0 } }
    {
        MemSource {
            content,
            at: 0,
            piece,
            failing,
            calls: 0,
            faults: 0,
        }
    }
}

impl Source for MemSource {
    ghost side = { giving_side };

    /// Fails, and raises the count, exactly where the call's number stands in `failing`; else gives
    /// the least of `piece`, the length of `buf` and what is left.
    fn read(&mut self, buf: &mut [u8]) -> Result<usize, Failed>
        ensures reads { Reads (giving_side self.old) (giving_side self.new) buf.new result }
        ensures gives { Gives self.old self.new buf.old buf.new result }
    {
        self.calls = self.calls.saturating_add(1);
        if self.failing.as_slice().contains(&self.calls) {
            self.faults = self.faults.saturating_add(1);
            return Err(Failed);
        }
        let all = self.content.as_slice();
        let n = give(&all[self.at..], self.piece as usize, buf);
        self.at += n;
        Ok(n)
    }
}

/// A sink in memory. It tells its bytes, holds no more than its room, and its calls fail where they
/// are told to: where none is, the count of faults doesn't rise before it is full.
#[derive(Debug, Drop)]
pub struct MemSink {
    held: Vec<u8>,
    room: usize,
    failing: Numbers,
    calls: u64,
    faults: u64,
}

impl Model for MemSink {
    ghost Value = { TakingState };

    ghost view = { λ s. record {
      held = s.held.items;
      room = s.room;
      failing = s.failing;
      calls = s.calls;
      faults = s.faults;
    } };

    ghost invariant = { λ s. (s.room ≤ vec_capacity s.held) × IsTaking
        (record { held = s.held.items; room = s.room; failing = s.failing; calls = s.calls; faults = s.faults }) };
}

impl MemSink {
    /// An empty sink that can hold `room` bytes; it takes all its memory here. Its calls are
    /// numbered from 1, and all from 2^64 - 1 on have that number; those fail whose number stands in
    /// `failing`. Its count of faults is 0.
    pub fn new(alloc: Global, room: usize, failing: Numbers) -> Result<MemSink, AllocError>
        ensures { IfOk result (λ s. s ≡ record { held = []; room = room; failing = failing; calls = 0; faults = 0 }) }
    {
        let held = Vec::with_capacity(alloc, room)?;
        Ok(MemSink {
            held,
            room,
            failing,
            calls: 0,
            faults: 0,
        })
    }

    /// The bytes that it holds, never more than its room. With no number in `failing` its count of
    /// faults is above 0 only where they are as many as its room.
    pub fn bytes(&self) -> &[u8]
        ensures bytes { result.now ≡ self.now.held }
        ensures taking { IsTaking self.now }
    {
        self.held.as_slice()
    }
}

impl Sink for MemSink {
    ghost side = { taking_side };

    /// Fails, and raises the count, exactly where the call's number stands in `failing`, or where
    /// `buf` isn't empty and the room is full; else takes the lesser of the length of `buf` and the
    /// room left. It takes no memory.
    fn write(&mut self, buf: &[u8]) -> Result<usize, Failed>
        ensures writes { Writes (taking_side self.old) (taking_side self.new) buf.now result }
        ensures takes { Takes self.old self.new buf.now result }
    {
        self.calls = self.calls.saturating_add(1);
        let free = self.room - self.held.len();
        if self.failing.as_slice().contains(&self.calls) || (free == 0 && !buf.is_empty()) {
            self.faults = self.faults.saturating_add(1);
            return Err(Failed);
        }
        let n = buf.len().min(free);
        let extended: Result<_, _> = self.held.extend_from_slice(&buf[..n]);
        extended.unwrap();
        Ok(n)
    }
}

/// Puts what fits of the front of `left`, and no more than `most`, into `buf`.
pub(crate) fn give(left: &[u8], most: usize, buf: &mut [u8]) -> usize
    ensures count { result ≡ min (min most (length buf.old)) (length left.now) }
    ensures bytes { buf.new ≡ take result left.now ++ drop result buf.old }
{
    let n = most.min(buf.len()).min(left.len());
    buf[..n].copy_from_slice(&left[..n]);
    n
}
