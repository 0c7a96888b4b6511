//! A gap of an end.

/// The first and the last second of a gap, in which an end has no row to send with.
#[derive(Clone, Copy, Debug, PartialEq, Eq)]
pub struct GapSeconds {
    pub first: u64,
    pub last: u64,
}
