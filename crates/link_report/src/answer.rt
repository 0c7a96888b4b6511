//! What an event at one end answers.
use book_base::Bytes;

/// What an event answers by which no segment is made and nothing comes.
#[derive(Debug, Drop)]
pub enum Answer {
    /// It was done.
    Done,
    /// The end used the initial sequence number before.
    IsnUsed,
    /// The end has no session.
    NoSession,
    /// The bytes aren't taken, for want of room.
    Full,
    /// The bytes aren't taken, since the session was closed.
    Closed,
    /// The bytes that were taken, and whether the end of the stream is reached.
    Took(Bytes, bool),
    /// The row was added under this number.
    Added(u8),
    /// The table has all its rows.
    TooManyRows,
    /// The row overlaps the one with this number.
    Overlap(u8),
    /// The table has no such row.
    NoRow,
}
