//! A way between two stacks that loses, repeats and reorders what is sent, as a seed says.
ghost use Rattle.std.specs.Prelude.{◌≤◌, ◌<◌, IfSome, length};
ghost use Rattle.stack_timers.specs.Watches.{latest};

use std::alloc::{AllocError, Global};

/// The last millisecond of the year 9999, since 1970.
pub(crate) const LATEST: u64 = 253_402_300_799_999;

/// So many milliseconds later.
pub(crate) fn later(now: u64, millis: u64) -> u64
    ensures { result ≤ latest }
{
    now.saturating_add(millis).min(LATEST)
}

/// A datagram on its way, and when it comes.
#[derive(Drop)]
pub(crate) struct OnWay {
    at: u64,
    pub(crate) to_server: bool,
    pub(crate) bytes: Vec<u8>,
}

/// A way, and the state of the dice that decide what becomes of a datagram.
#[derive(Drop)]
pub(crate) struct Way {
    items: Vec<OnWay>,
    dice: u64,
}

impl Way {
    pub(crate) fn new(alloc: Global, seed: u64) -> Way {
        Way {
            items: Vec::new(alloc),
            dice: seed,
        }
    }

    /// A number below 100.
    pub(crate) fn roll(&mut self) -> u64
        ensures { result < 100 }
    {
        self.dice = self
            .dice
            .wrapping_mul(6364136223846793005)
            .wrapping_add(1442695040888963407);
        (self.dice >> 33) % 100
    }

    /// How often what is sent comes: a fifth is lost, a tenth comes twice.
    fn copies(&mut self) -> u8 {
        match self.roll() {
            0..=19 => 0,
            20..=29 => 2,
            _ => 1,
        }
    }

    /// A datagram is sent, and comes 10 to 109 milliseconds later, or not, or twice.
    pub(crate) fn send(
        &mut self,
        alloc: Global,
        now: u64,
        to_server: bool,
        bytes: &[u8],
    ) -> Result<(), AllocError> {
        for _ in 0..self.copies() {
            let at = later(now, 10 + self.roll());
            let bytes = Vec::from_slice(alloc, bytes)?;
            self.items.push(OnWay {
                at,
                to_server,
                bytes,
            })?;
        }
        Ok(())
    }

    /// The place of a datagram that has come.
    fn place_due(&self, now: u64) -> Option<usize>
        ensures { IfSome result (λ i. i < length self.now.items.items) }
    {
        for (i, one) in self.items.as_slice().iter().enumerate() {
            if one.at <= now {
                return Some(i);
            }
        }
        None
    }

    /// A datagram that has come.
    pub(crate) fn take_due(&mut self, now: u64) -> Option<OnWay> {
        match self.place_due(now) {
            None => None,
            Some(place) => Some(self.items.remove(place)),
        }
    }

    /// When the next datagram comes, but this time at the latest.
    pub(crate) fn next(&self, mut until: u64) -> u64 {
        for one in self.items.as_slice() {
            until = until.min(one.at);
        }
        until
    }
}
