//! How far an end has sent.

/// How far a session that isn't closed has sent (RFC 9293, section 3.3.1).
#[derive(Clone, Copy, Debug, PartialEq, Eq)]
pub struct Front {
    /// SND.UNA: the oldest number that isn't acknowledged.
    pub una: u64,
    /// SND.NXT: the number to send next.
    pub next: u64,
}
