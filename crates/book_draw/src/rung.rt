//! The rungs of a ladder: what is drawn of a run.
use book_base::End;
use book_endpoint::{Arrival, Phase};
use book_link::Transmission;

/// What is drawn of a segment that was made.
#[derive(Clone, Copy)]
pub struct Sketch {
    /// Its number in the run's report, from 1.
    pub name: u32,
    /// Its flags, FIN lowest and CWR highest.
    pub flags: u8,
    /// The number of its first byte: an integer whose remainder modulo 2^32 is its sequence field.
    pub number: u64,
    /// The number that it acknowledges, where it has ACK.
    pub ack: Option<u64>,
    /// How many bytes of payload it has.
    pub length: u64,
    /// KeyID: the key that it is under.
    pub key_id: u8,
    /// RNextKeyID: the key that its maker asks for.
    pub rnext_key_id: u8,
}

/// What came to an end.
#[derive(Clone, Copy)]
pub enum Brought {
    /// The segment of this number, as it was made.
    Segment(u32),
    /// A copy of the segment of this number, with a byte altered.
    Altered(u32),
    /// A datagram that was injected.
    Injected,
}

/// The delivery of a segment as it was made.
#[derive(Clone, Copy)]
pub struct Delivery {
    /// The end that it came to.
    pub at: End,
    /// The segment's number.
    pub name: u32,
}

/// What was asked of an end where no segment was made and none came.
#[derive(Clone, Copy)]
pub enum Deed {
    Connect,
    Listen,
    Start,
    /// So many bytes to send.
    Give(u64),
    Send,
    Resend,
    /// The segment of this number was to arrive.
    Deliver(u32),
    Inject,
    /// A copy of the segment of this number was to arrive.
    Alter(u32),
    Take,
    Close,
    Abort,
    Add,
    /// The row of this number.
    Withdraw(u8),
}

/// What came of it.
#[derive(Clone, Copy)]
pub enum Reply {
    Done,
    /// So many bytes were taken, and whether the end of the stream is reached.
    Took(u64, bool),
    /// The number of the row that was added.
    Added(u8),
    IsnUsed,
    NoSession,
    NoSegment,
    NoPlace,
    Full,
    Closed,
    NoKey,
    Idle,
    Nothing,
    TooManyRows,
    /// The number of the row that overlaps.
    Overlap(u8),
    NoRow,
}

/// A rung of a ladder: what happened at an end.
#[derive(Clone, Copy)]
pub enum Rung {
    /// The end's clock was set to so many seconds since 1970-01-01.
    Clock(End, u64),
    /// The end made this segment, for the first time or again.
    Made(End, Sketch, Transmission),
    /// This came to the end, which answered so.
    Came(End, Brought, Arrival),
    /// This was asked of the end, and what came of it.
    Call(End, Deed, Reply),
    /// The end's live session is in this phase now.
    Turned(End, Phase),
}
