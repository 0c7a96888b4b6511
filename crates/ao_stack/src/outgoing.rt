//! What is told of a datagram that is handed out.

use book_base::Pair;
use book_link::Transmission;

/// A datagram that is handed out.
#[derive(Clone, Copy, Debug, PartialEq, Eq)]
pub struct Outgoing {
    /// How many bytes it has; it stands in front of the buffer.
    pub length: usize,
    /// The connection that sends it.
    pub pair: Pair,
    /// Whether it is the next segment of its end, or a timer sends it again (RFC 6298, section 5.4).
    pub kind: Transmission,
}
