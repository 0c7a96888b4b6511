//! Times of any resolution in nanoseconds.
ghost use Rattle.std.specs.Prelude.{◌≡◌, ◌^◌, ◌/◌, ◌<◌, ◌≤◌, min};
ghost use Rattle.book_captures.specs.BlockContents.{moved_time as time_moved, stamp_time};

use book_captures::{TimeOffset, TimeResolution};

/// So many units of time, moved by an offset, in nanoseconds since 1970, without what is below one. A time
/// before 1970 is 1970, and one that 64 bits don't hold is the last that they do.
pub fn nanoseconds(resolution: TimeResolution, offset: TimeOffset, count: u64) -> u64
    ensures { result ≡ stamp_time resolution offset count }
{
    let scaled = count as u128 * 1_000_000_000;
    let time = match resolution {
        TimeResolution::Decimal(power) => divided(scaled, 10, power),
        TimeResolution::Binary(power) => divided(scaled, 2, power),
    };
    moved(offset, time)
}

// A time in nanoseconds, moved by an offset.
fn moved(offset: TimeOffset, time: u128) -> u64
    requires { time < 2 ^ 127 }
    ensures { result ≡ time_moved offset time }
{
    match offset {
        TimeOffset::Later(seconds) => last_below(time + seconds as u128 * 1_000_000_000),
        TimeOffset::Earlier(seconds) => {
            last_below(time.saturating_sub(seconds as u128 * 1_000_000_000))
        }
    }
}

// A time, or the last that 64 bits hold.
fn last_below(time: u128) -> u64
    ensures { result ≡ min time 18446744073709551615 }
{
    if time < u64::MAX as u128 {
        time as u64
    } else {
        u64::MAX
    }
}

// A number divided by a power.
#[tactic(auto, using(crate::proofs::Powers::divide_none, crate::proofs::Powers::divide_more))]
fn divided(number: u128, base: u128, power: u8) -> u128
    requires { 0 < base }
    ensures value { result ≡ number / base ^ power }
    ensures most { result ≤ number }
{
    let mut left = number;
    'powers: for _ in 0..power {
        left /= base;
    }
    left
}
