//! The retransmission timer.
ghost use Rattle.std.specs.Prelude.{◌≡◌, ◌≤◌, max, min};
ghost use Rattle.book_cmd_link.specs.Timers.{new_timer, sampled, expired, smoothed_with, value_of, least_value};
ghost use Rattle.book_cmd_link.specs.Timers.{greatest_value};
ghost use Rattle.stack_timers.specs.Bounds.{IsWithinADay, AreWithinADay};
ghost use Rattle.stack_timers.specs.Millis.{finer_value, with_sample};

use book_cmd_link::{Smoothed, Timer};
use std::marker::Model;

/// The least value, one second (RFC 6298, section 2.4).
const LEAST: u32 = 1000;
/// The greatest value, one minute (RFC 6298, section 2.5).
const GREATEST: u32 = 60_000;
/// The granularity of the clock, one second.
const GRANULARITY: u32 = 1000;
/// The most seconds that a sample counts for, a day.
const LONGEST: u32 = 86_400;
/// The same in milliseconds.
const LONGEST_MILLIS: u32 = 86_400_000;
/// The granularity of a clock that shows milliseconds.
const MILLISECOND: u32 = 1;
/// The least value once data flows after a SYN that was sent again, three seconds.
const SLOW: u32 = 3000;

/// A retransmission timer; seen as its value and, after a first sample, the smoothed round-trip time
/// and its variation, all in milliseconds (RFC 6298, section 2).
#[derive(Debug, Drop)]
pub struct Rto {
    timer: Timer,
}

impl Model for Rto {
    ghost use Rattle.book_cmd_link.specs.declared.timer.Timer.{Timer};
    ghost use Rattle.stack_timers.specs.Bounds.{IsTimer};

    ghost Value = { Timer };

    ghost view = { λ r. r.timer };

    ghost invariant = { λ r. IsTimer r.timer };
}

impl Rto {
    /// A timer before any sample: its value is one second (RFC 6298, section 2.1).
    pub fn new() -> Rto
        ensures { result ≡ new_timer }
    {
        Rto {
            timer: Timer {
                value: LEAST,
                smoothed: None,
            },
        }
    }

    /// After how many milliseconds without an acknowledgement a segment is sent again: from 1000 up to
    /// 60,000.
    pub fn value(&self) -> u32
        ensures value { result ≡ self.now.value }
        ensures least { least_value ≤ result }
        ensures greatest { result ≤ greatest_value }
    {
        self.timer.value
    }

    /// Takes a round-trip time of so many seconds into account; more than 86,400 count as 86,400 (RFC
    /// 6298, sections 2.2 and 2.3).
    pub fn sample(&mut self, seconds: u32)
        ensures { self.new ≡ sampled self.old seconds }
    {
        let smoothed = smoothed_with(self.timer.smoothed, seconds.min(LONGEST) * 1000);
        self.timer = Timer {
            value: value_of(smoothed),
            smoothed: Some(smoothed),
        };
    }

    /// Takes a round-trip time of so many milliseconds into account, as a clock shows it whose
    /// granularity is one millisecond; more than 86,400,000 count as 86,400,000 (RFC 6298, sections
    /// 2.2 and 2.3).
    pub fn sample_millis(&mut self, millis: u32)
        ensures { self.new ≡ with_sample (smoothed_with self.old.smoothed (min millis 86400000)) }
    {
        let smoothed = smoothed_with(self.timer.smoothed, millis.min(LONGEST_MILLIS));
        self.timer = Timer {
            value: finer_value(smoothed),
            smoothed: Some(smoothed),
        };
    }

    /// The value becomes three seconds, unless it is more: data begins to flow after a SYN that was
    /// sent again (RFC 6298, section 5.7).
    pub fn slow(&mut self)
        ensures { self.new ≡ record self.old { value = max self.old.value 3000 } }
    {
        self.timer.value = self.timer.value.max(SLOW);
    }

    /// Doubles the value, up to 60,000, after it went by without an acknowledgement (RFC 6298, section
    /// 5.5).
    pub fn back_off(&mut self)
        ensures { self.new ≡ expired self.old }
    {
        self.timer.value = (2 * self.timer.value).min(GREATEST);
    }
}

// What a round-trip time in milliseconds makes of the smoothed ones.
fn smoothed_with(had: Option<Smoothed>, time: u32) -> Smoothed
    requires smoothed { AreWithinADay had }
    requires time { time ≤ 86400000 }
    ensures smoothed { result ≡ smoothed_with had time }
    ensures within { IsWithinADay result }
{
    match had {
        None => Smoothed {
            mean: time,
            variation: time / 2,
        },
        Some(old) => Smoothed {
            mean: (7 * old.mean + time) / 8,
            variation: (3 * old.variation + old.mean.abs_diff(time)) / 4,
        },
    }
}

// The value that the smoothed times give.
fn value_of(smoothed: Smoothed) -> u32
    requires { IsWithinADay smoothed }
    ensures value { result ≡ value_of smoothed }
    ensures least { 1000 ≤ result }
    ensures greatest { result ≤ 60000 }
{
    let value = smoothed.mean + GRANULARITY.max(4 * smoothed.variation);
    value.clamp(LEAST, GREATEST)
}

// The value that the smoothed times give on a clock of milliseconds.
fn finer_value(smoothed: Smoothed) -> u32
    requires { IsWithinADay smoothed }
    ensures value { result ≡ finer_value smoothed }
    ensures least { 1000 ≤ result }
    ensures greatest { result ≤ 60000 }
{
    let value = smoothed.mean + MILLISECOND.max(4 * smoothed.variation);
    value.clamp(LEAST, GREATEST)
}
