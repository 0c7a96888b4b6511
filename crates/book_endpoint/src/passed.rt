//! What is told of a segment that passes.

use book_macs::Context;

/// What is told of a segment that passed: the row of the table under which it did, counted from 1,
/// its number in the stream, and the context of its traffic key.
#[derive(Clone, Copy, Debug, PartialEq, Eq)]
pub struct Passed {
    pub row: u8,
    pub number: u64,
    pub context: Context,
}
