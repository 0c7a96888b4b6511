//! Whether a key may go, and what tells it.

/// Whether a row of a key file may go, by the segments of a capture.
#[derive(Clone, Copy, Debug, PartialEq, Eq)]
pub enum MayGo {
    /// All who may use it were seen to do without it, and have another row to send with.
    Yes,
    /// A verified segment of a connection that goes on carries it, or asks for it.
    No,
    /// Neither is known.
    Unknown,
}

/// Whether the rows of a key file that a word names may go.
#[derive(Clone, Copy, Debug, PartialEq, Eq)]
pub enum Retiring {
    /// No row is named so.
    NoSuchRow,
    /// All of them may go.
    Yes,
    /// One of them is still used, or not known to be unused.
    NotYes,
}

/// How a connection ends: whether a verified RST at the number expected was seen; the numbers of the packets
/// with a FIN of either side that moved on, 0 for none; and that of the last packet that moved on.
#[derive(Clone, Copy, Debug, PartialEq, Eq)]
pub struct Ending {
    pub reset: bool,
    pub onward: u64,
    pub back: u64,
    pub moved: u64,
}

/// What goes one way shows of a row: the number of the last packet that wants it, and of the last one that
/// moved on and doesn't, 0 for none.
#[derive(Clone, Copy, Debug, PartialEq, Eq)]
pub struct Wanting {
    pub wanted: u64,
    pub moved: u64,
}
