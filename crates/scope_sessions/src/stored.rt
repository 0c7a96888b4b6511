//! A stored datagram, counted: with its header checksum, where that isn't set.
ghost use Rattle.std.specs.Prelude.{◌≡◌, Ok, OnOk};
ghost use Rattle.book_segments.specs.Segments.{reading};
ghost use Rattle.book_sessions.specs.AsSent.{is_segment};
ghost use Rattle.book_sessions.specs.Listening.{Listening};
ghost use Rattle.book_sessions.specs.Sessions.{with_unset};
ghost use Rattle.capture_listener.specs.Listeners.{Knows};
ghost use Rattle.scope_sessions.specs.Counting.{CountsJudged, CountsStored, stored_at};

use crate::heard::hear;
use ao_base::Steps;
use capture_listener::{Listener, SessionIndex, is_segment, mended};
use std::alloc::{AllocError, Global};
use std::sync::ledger::Ledger;

// Counts the bytes that are judged at a time, in seconds since 1970.
fn count_judged<L: Ledger>(
    listener: &mut Listener,
    index: &mut SessionIndex,
    alloc: Global,
    steps: &mut Steps<L>,
    packet: u64,
    time: u64,
    bytes: &[u8],
) -> Result<(), AllocError>
    ensures counts { (k : Listening) → Knows listener.old k → OnOk result
        (CountsJudged listener.old.judging k listener.new index.old index.new (Ok (stored_at packet time bytes.now))) }
    ensures judging { listener.new.judging ≡ listener.old.judging }
{
    let seen = hear(listener, alloc, steps, packet, time, bytes)?;
    index.count(alloc, &seen)
}

// Counts bytes whose header checksum was set, if they are a segment, among those that had none.
fn count_unset(index: &mut SessionIndex, bytes: &[u8]) -> Result<(), AllocError>
    ensures { OnOk result (index.new ≡ with_unset (is_segment (reading bytes.now)) index.old) }
{
    if is_segment(bytes) {
        index.count_unset()
    } else {
        Ok(())
    }
}

// Counts the bytes of a datagram whose header checksum was set.
fn count_mended<L: Ledger>(
    listener: &mut Listener,
    index: &mut SessionIndex,
    alloc: Global,
    steps: &mut Steps<L>,
    packet: u64,
    time: u64,
    bytes: &[u8],
) -> Result<(), AllocError>
    ensures counts { (k : Listening) → Knows listener.old k → OnOk result
        (CountsJudged listener.old.judging k listener.new (with_unset (is_segment (reading bytes.now)) index.old)
        index.new (Ok (stored_at packet time bytes.now))) }
    ensures judging { listener.new.judging ≡ listener.old.judging }
{
    count_unset(index, bytes)?;
    count_judged(listener, index, alloc, steps, packet, time, bytes)
}

/// Counts the bytes of a packet that were stored at a time, in seconds since 1970. An error for want of memory, or
/// where 2^64 - 1 packets of one kind are counted.
pub(crate) fn count_stored<L: Ledger>(
    listener: &mut Listener,
    index: &mut SessionIndex,
    alloc: Global,
    steps: &mut Steps<L>,
    packet: u64,
    time: u64,
    bytes: &[u8],
) -> Result<(), AllocError>
    ensures counts { (k : Listening) → Knows listener.old k → OnOk result
        (CountsStored listener.old.judging k listener.new index.old index.new (Ok (stored_at packet time bytes.now))) }
    ensures judging { listener.new.judging ≡ listener.old.judging }
{
    let found = mended(alloc, bytes)?;
    match found {
        None => count_judged(listener, index, alloc, steps, packet, time, bytes),
        Some(whole) => count_mended(
            listener,
            index,
            alloc,
            steps,
            packet,
            time,
            whole.as_slice(),
        ),
    }
}
