//! A number of a stream in two halves.
ghost use Rattle.std.specs.Prelude.{◌≡◌, ◌+◌, ◌<◌, ◌^◌};

use crate::ring::LAP;

/// A number below 2^64 as the sequence number on the wire and the sequence number extension (RFC
/// 5925, section 6.2).
#[derive(Clone, Copy, Debug, PartialEq, Eq)]
pub struct Counter {
    /// The number modulo 2^32, as the sequence field has it.
    pub low: u32,
    /// How many times the low half has started anew.
    pub extension: u32,
}

impl Counter {
    ghost use Rattle.tcp_segment.specs.Counter.{number};

    /// The counter that stands at `value`.
    pub fn of(value: u64) -> Counter
        ensures { number result ≡ value }
    {
        Counter {
            low: (value % LAP) as u32,
            extension: (value / LAP) as u32,
        }
    }

    /// The number at which the counter stands.
    pub fn value(&self) -> u64
        ensures { result ≡ number self.now }
    {
        u64::from(self.extension) * LAP + u64::from(self.low)
    }

    /// Moves on by `by`; the number stays below 2^64.
    pub fn advance(&mut self, by: u32)
        requires { number self.old + by < 2 ^ 64 }
        ensures { number self.new ≡ number self.old + by }
    {
        let (low, carried) = self.low.overflowing_add(by);
        self.low = low;
        if carried {
            self.extension += 1;
        }
    }
}
