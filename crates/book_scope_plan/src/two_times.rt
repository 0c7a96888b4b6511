//! Times of two ends.

/// The time of a column of a row, and that of the same column of a row of the other end, in seconds since 1970.
#[derive(Clone, Copy, Debug, PartialEq, Eq)]
pub struct TwoTimes {
    pub one: u64,
    pub other: u64,
}
