//! What an event of a node answers.

use book_base::Bytes;
use tcp_endpoint::{Arrival, Made};

/// What an event of a node answers. The bytes of a segment that was made stand in front of the buffer
/// of the run.
#[derive(Drop)]
pub(crate) enum Told {
    Done,
    InUse,
    NodeFull,
    NoConnection,
    /// The piece isn't taken, for want of room.
    Full,
    /// The piece isn't taken, since the end was closed.
    Closed,
    Sent(Made),
    NoKey,
    Idle,
    Nothing,
    Answered(Arrival),
    /// The bytes that were taken, and whether the end of the stream is reached.
    Took(Bytes, bool),
}
