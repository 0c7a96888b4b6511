//! Lifetimes of a row.

/// The last second of the year 9999 in seconds since 1970, the greatest time that a key file can
/// write.
pub const LATEST: u64 = 253_402_300_799;

/// The times from `first` to `last`, both included, in seconds since 1970 (RFC 7210, section 2).
#[derive(Clone, Copy, Debug, PartialEq, Eq)]
pub struct Lifetime {
    pub first: u64,
    pub last: u64,
}

impl Lifetime {
    ghost use Rattle.std.specs.Prelude.{◌≡◌};
    ghost use Rattle.book_keys.specs.Lifetimes.{contains};

    /// Whether the time is one of them, in seconds since 1970.
    pub fn contains(&self, time: u64) -> bool
        ensures { result ≡ contains self.now time }
    {
        self.first <= time && time <= self.last
    }
}
