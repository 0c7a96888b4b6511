//! The numbers of one end.
use tcp_segment::Counter;

/// The numbers that an end keeps (RFC 9293, section 3.3.1). Each is an integer below 2^64; its
/// counter has the sequence number of the wire and the extension.
#[derive(Clone, Copy, Debug, PartialEq, Eq)]
pub struct SequenceState {
    /// SND.UNA: the oldest number that isn't acknowledged.
    pub una: Counter,
    /// SND.NXT: the number to send next.
    pub next: Counter,
    /// The numbers that come from the peer, once its initial sequence number is known.
    pub received: Option<Received>,
}

/// The numbers that come from the peer (RFC 9293, section 3.3.1).
#[derive(Clone, Copy, Debug, PartialEq, Eq)]
pub struct Received {
    /// RCV.NXT: the number expected next.
    pub expected: Counter,
    /// SND.WL1: the number of the segment in which the peer's window was heard.
    pub wl1: Counter,
    /// SND.WL2: what that segment acknowledged.
    pub wl2: Counter,
    /// The number of the peer's FIN, once it is recorded.
    pub fin: Option<Counter>,
}
