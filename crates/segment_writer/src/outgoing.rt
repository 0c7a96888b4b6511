//! A segment before and after it is written.

use ao_kdf::Context;
use stream_buffers::SendQueue;
use tcp_segment::Counter;

/// So many bytes of a send queue, from a place on; they stay in the queue.
#[derive(Clone, Copy)]
pub struct Piece<'a> {
    pub queue: &'a SendQueue,
    /// How many bytes of the queue are before it.
    pub offset: usize,
    /// How many bytes it has; all of them are in the queue.
    pub count: usize,
}

/// What an end says in a segment that it is about to send.
#[derive(Clone, Copy)]
pub struct Outgoing<'a> {
    /// The flags (RFC 9293, section 3.1).
    pub flags: u8,
    /// The number of its SYN, or else of its first byte or its FIN, in the stream of the end: at most
    /// 2^63. The sequence field is its low half, and its extension goes into the MAC (RFC 5925,
    /// section 6.2).
    pub number: Counter,
    /// The sequence number expected of the peer, which is told with ACK alone.
    pub expected: u32,
    /// The window, which is told with ACK and without RST alone.
    pub window: u16,
    pub payload: Piece<'a>,
}

/// A segment that was written.
#[derive(Clone, Copy, Debug, PartialEq, Eq)]
pub struct Written {
    /// How many bytes it has, from the front of the buffer on.
    pub length: usize,
    /// The context of its traffic key (RFC 5925, section 5.2).
    pub context: Context,
}
