//! When a connection is looked at again.

use book_base::Pair;

/// A connection, and when it is to be looked at: its retransmission timer expires, or TIME-WAIT ends.
#[derive(Clone, Copy, Debug, PartialEq, Eq)]
pub struct Alarm {
    pub pair: Pair,
    /// In milliseconds since 1970.
    pub deadline: u64,
}
