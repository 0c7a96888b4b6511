//! How far an end has come.

use book_endpoint::Phase;

/// Where an end stands, the oldest number that isn't acknowledged, the one to send next, and the one
/// that is expected next of the peer, 0 before any.
#[derive(Clone, Copy, Debug, PartialEq, Eq)]
pub struct Front {
    pub phase: Phase,
    pub una: u64,
    pub next: u64,
    pub expected: u64,
}

/// Where an end stood before something happened to it, and after.
#[derive(Clone, Copy, Debug, PartialEq, Eq)]
pub struct Change {
    pub before: Front,
    pub after: Front,
}

/// A number whose acknowledgement is timed, and when it was sent, in milliseconds since 1970 (RFC
/// 6298, section 3).
#[derive(Clone, Copy, Debug, PartialEq, Eq)]
pub struct Timed {
    pub number: u64,
    pub sent: u64,
}
