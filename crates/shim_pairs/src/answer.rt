//! What a shim answers.

use book_shim::{Unsent, Untaken};

/// A datagram that goes on.
#[derive(Clone, Copy, Debug, PartialEq, Eq)]
pub struct Passed {
    /// How many bytes stand in the buffer.
    pub length: usize,
    /// What is kept of the pair must be saved before the datagram goes on: other initial sequence numbers
    /// or another key are in use, or a number went past a multiple of 2^29.
    pub changed: bool,
}

/// Why a datagram of the own kernel doesn't go on.
#[derive(Clone, Copy, Debug, PartialEq, Eq)]
pub enum PairUnsent {
    /// No node has the own address.
    NoNode,
    /// The guard of its pair says so.
    Unsent(Unsent),
}

/// Why a datagram from the network doesn't go on.
#[derive(Clone, Copy, Debug, PartialEq, Eq)]
pub enum PairUntaken {
    /// No node has the own address.
    NoNode,
    /// The guard of its pair says so.
    Untaken(Untaken),
}
