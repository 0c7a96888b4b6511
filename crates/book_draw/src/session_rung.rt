//! The rungs of a session's ladder.
use book_base::Socket;
use book_sessions::{KeyIds, Protection, SeenPass, SegmentOutcome};

/// A segment of a capture, as it is drawn.
#[derive(Clone, Copy, Debug, PartialEq, Eq)]
pub struct SessionRung {
    /// The number of its packet in the capture.
    pub packet: u64,
    /// When it was seen, in nanoseconds since 1970.
    pub time: u64,
    pub source: Socket,
    pub destination: Socket,
    /// Its flags, FIN lowest and CWR highest.
    pub flags: u8,
    /// Its sequence number.
    pub sequence: u32,
    /// What its acknowledgement field says.
    pub acknowledgement: u32,
    /// How many bytes of payload it has.
    pub length: u64,
    /// Its ids, where it has one TCP-AO option.
    pub ids: Option<KeyIds>,
    /// How it is protected.
    pub protection: Protection,
    /// What comes of it.
    pub outcome: SegmentOutcome,
    /// What the check found of it, where it is verified.
    pub pass: Option<SeenPass>,
}

/// The two ends of a session: the sockets of its first segment.
#[derive(Clone, Copy, Debug, PartialEq, Eq)]
pub struct SessionEnds {
    /// Its source, which is drawn at the left.
    pub left: Socket,
    /// Its destination.
    pub right: Socket,
}
