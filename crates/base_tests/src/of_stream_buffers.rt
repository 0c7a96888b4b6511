//! Pieces that arrive in any order, where no link brings them: bytes that differ, and the last positions.
//! Queues, joined runs and a 65th one stand in the examples of `link`.
ghost use Rattle.std.specs.Prelude.{◌≡◌, ◌+◌, ◌^◌, ◌<◌, ◌≤◌, length};

use ao_base::Steps;
use std::marker::Brand;
use std::sync::ledger::{Blank, Ledger};
use std::test::Fail;
use stream_buffers::Reassembly;

/// The greatest end of a piece.
const END: u64 = 1 << 63;

// Each call with long clauses stands in a function without any, so that the proof of a test has none of
// them before it.

/// Whether a piece was kept that ends at 2^63 at most.
fn keeps(received: &mut Reassembly, number: u64, piece: &[u8], limit: Option<u64>) -> bool {
    if number > END {
        return false;
    }
    if piece.len() as u64 > END - number {
        return false;
    }
    keeps_by::<Brand>(Blank::new(1), received, number, piece, limit)
}

fn keeps_by<L: Ledger>(
    blank: Blank,
    received: &mut Reassembly,
    number: u64,
    piece: &[u8],
    limit: Option<u64>,
) -> bool
    requires name { blank.name ≡ L.name }
    requires parts { blank.parts ≡ L.parts }
    requires part { 0 < blank.parts }
    requires ends { number + length piece.now ≤ 2 ^ 63 }
{
    let mut steps = Steps::<L>::new(blank);
    received.keep(number, piece, limit, &mut steps).is_ok()
}

/// Whether these are the runs, each with the sequence number of its first byte and its length.
fn has_runs(received: &Reassembly, runs: &[(u32, u32)]) -> bool {
    has_runs_by::<Brand>(Blank::new(1), received, runs)
}

fn has_runs_by<L: Ledger>(blank: Blank, received: &Reassembly, runs: &[(u32, u32)]) -> bool
    requires name { blank.name ≡ L.name }
    requires parts { blank.parts ≡ L.parts }
    requires part { 0 < blank.parts }
{
    let mut steps = Steps::<L>::new(blank);
    let pool = received.runs();
    let mut at = pool.first();
    for (first, length) in runs {
        let Some(slot) = at else { return false };
        let run = pool.get(slot);
        if run.first != *first || run.length != *length {
            return false;
        }
        at = pool.next(slot, &mut steps);
    }
    at.is_none()
}

/// The number of the first byte that misses, how many bytes are ready, and the window.
fn state(received: &Reassembly) -> (u64, usize, u16) {
    (received.expected(), received.ready(), received.window())
}

fn take(received: &mut Reassembly, out: &mut [u8]) -> usize {
    received.take(out)
}

fn is_kept_from(received: &Reassembly, position: u64) -> bool {
    received.kept_from(position)
}

fn restart_at_7(received: &mut Reassembly) {
    received.restart(7);
}

/// Whether a piece over three runs is kept behind them, and then the first byte.
fn fills_the_holes(received: &mut Reassembly) -> bool {
    keeps(received, 103, b"c", None)
        && keeps(received, 105, b"e", None)
        && keeps(received, 107, b"g", None)
        && keeps(received, 102, b"bXdXfXh", None)
        && has_runs(received, &[(102, 7)])
        && keeps(received, 101, b"aXX", None)
        && has_runs(received, &[])
        && state(received) == (109, 8, 65_527)
}

#[test]
fn a_piece_over_three_runs_fills_the_holes_alone(rt: HostRuntime) -> Result<(), Fail> {
    let mut received = Reassembly::new(rt.alloc(), 101)?;
    assert!(rt; fills_the_holes(&mut received));
    let mut out = [0; 9];
    assert!(rt; take(&mut received, &mut out) == 8 && out == *b"abcdefgh\0");
    Ok(())
}

/// Whether the last position is kept, and then the two before it.
fn keeps_the_last(received: &mut Reassembly) -> bool {
    keeps(received, 0x7fff_ffff_ffff_ffff, b"c", None)
        && has_runs(received, &[(0xffff_ffff, 1)])
        && keeps(received, 0x7fff_ffff_ffff_fffd, b"ab", None)
        && state(received) == (END, 3, 65_532)
}

#[test]
fn the_last_positions_are_kept(rt: HostRuntime) -> Result<(), Fail> {
    let mut received = Reassembly::new(rt.alloc(), 0x7fff_ffff_ffff_fffd)?;
    assert!(rt; keeps_the_last(&mut received));
    let mut out = [0; 3];
    assert!(rt; take(&mut received, &mut out) == 3 && out == *b"abc");
    Ok(())
}

/// Whether of two pieces what is within the window and the limit is kept, and nothing after a restart.
fn keeps_within(received: &mut Reassembly) -> bool {
    let is_kept = keeps(received, 65_534, b"yz", None)
        && keeps(received, 10, b"klm", Some(12))
        && has_runs(received, &[(10, 2), (65_534, 1)])
        && is_kept_from(received, 65_534)
        && !is_kept_from(received, 65_535);
    restart_at_7(received);
    is_kept
        && has_runs(received, &[])
        && !is_kept_from(received, 0)
        && state(received) == (7, 0, 65_535)
}

#[test]
fn nothing_is_kept_past_the_window_or_the_limit(rt: HostRuntime) -> Result<(), Fail> {
    let mut received = Reassembly::new(rt.alloc(), 0)?;
    assert!(rt; keeps_within(&mut received));
    Ok(())
}
