//! What is known of a connection, in numbers.

/// The numbers of a connection, seen from one of its sockets, the source.
#[derive(Clone, Copy, Debug, PartialEq, Eq)]
pub struct KnownConnection {
    /// The initial sequence number of the source.
    pub source_isn: u32,
    /// The initial sequence number of the other socket, the destination.
    pub destination_isn: u32,
    /// The number in the stream that is expected of the source, at most 2^63; its SYN has its initial
    /// sequence number.
    pub expected: u64,
}
