//! What an end answers where it may make a segment.

use ao_check::Sending;
use ao_kdf::Context;

/// A segment that was made.
#[derive(Clone, Copy, Debug, PartialEq, Eq)]
pub struct Made {
    /// How many bytes the datagram has; it stands in front of the buffer.
    pub length: usize,
    /// The row that it was sealed under, and the two ids that it tells.
    pub sending: Sending,
    /// Its number: an integer whose remainder modulo 2^32 is its sequence field.
    pub number: u64,
    /// The number that it acknowledges, where it has ACK.
    pub ack: Option<u64>,
    /// Its flags, FIN lowest and CWR highest.
    pub flags: u8,
    /// How many bytes of payload it has.
    pub payload: usize,
    /// The context of its traffic key.
    pub context: Context,
}

/// The answer of `emit`.
#[derive(Clone, Copy, Debug, PartialEq, Eq)]
pub enum Emission {
    /// A segment was made.
    Segment(Made),
    /// One would be made, but no row is sendable.
    NoKey,
    /// Nothing is to be sent.
    Idle,
}

/// The answer of `resend`.
#[derive(Clone, Copy, Debug, PartialEq, Eq)]
pub enum Resent {
    /// A segment was made.
    Segment(Made),
    /// One would be made, but no row is sendable.
    NoKey,
    /// Nothing is to be sent again.
    Nothing,
}
