//! What changes in the use of a row.
use book_base::End;

/// What a row of an end is used for over a connection (RFC 7210, section 3, and RFC 5925, section 7).
#[derive(Clone, Copy, Debug, PartialEq, Eq)]
pub enum Role {
    /// It may accept what comes in.
    Acceptable,
    /// It is the one that is asked for: of the rows that may accept, the one with the greatest
    /// AcceptLifetimeStart, and the lowest of those.
    AskedFor,
    /// It may be sent with.
    Sendable,
    /// It is the one that is sent with, where no row is current: of the rows that may be sent with, the
    /// one with the greatest SendLifetimeStart, and the lowest of those.
    SentWith,
}

/// A row of an end begins to have a role at the time, or ends to have it: the time is the first, in
/// seconds since 1970, at which it is so. Rows are numbered from 1.
#[derive(Clone, Copy, Debug, PartialEq, Eq)]
pub struct Turn {
    pub time: u64,
    pub end: End,
    pub row: u8,
    pub role: Role,
    /// Whether it begins.
    pub begins: bool,
}
