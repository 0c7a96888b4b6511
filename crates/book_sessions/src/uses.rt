//! What is counted of a capture.
use crate::outcome::{PassedOver, SegmentOutcome};
use book_base::Socket;

/// The KeyID and the RNextKeyID of a segment (RFC 5925, section 2.2).
#[derive(Clone, Copy, Debug, PartialEq, Eq)]
pub struct KeyIds {
    pub key_id: u8,
    pub rnext_key_id: u8,
}

/// The initial sequence numbers of a connection, as the sender of a segment sees it: its own, and that of
/// its peer, which a SYN without ACK doesn't tell.
#[derive(Clone, Copy, Debug, PartialEq, Eq)]
pub struct FlowIsns {
    pub own: u32,
    pub peer: Option<u32>,
}

/// What the options of a segment say of how it is protected.
#[derive(Clone, Copy, Debug, PartialEq, Eq)]
pub enum Protection {
    /// One TCP-AO option, and none of TCP MD5 (RFC 5925, section 2.2).
    Ao,
    /// An option of TCP MD5, and none of TCP-AO (RFC 2385, section 3.0).
    Md5,
    /// Neither.
    Plain,
    /// More than one TCP-AO option, or TCP MD5 beside one.
    Unclear,
}

/// What the check found of a segment that passes: the row of its receiver's table, from 1; the number of
/// its first byte, and the one after its last; and the initial sequence numbers of its connection.
#[derive(Clone, Copy, Debug, PartialEq, Eq)]
pub struct SeenPass {
    pub row: u8,
    pub first: u64,
    pub after: u64,
    pub isns: FlowIsns,
}

/// The control bits of a segment that begin or end a connection (RFC 9293, section 3.1).
#[derive(Clone, Copy, Debug, PartialEq, Eq)]
pub struct SeenBits {
    pub syn: bool,
    pub ack: bool,
    pub fin: bool,
    pub rst: bool,
}

/// A segment of a capture: the number of its packet, when it was seen, in seconds since 1970, its sockets,
/// its ids where it has one TCP-AO option, how it is protected, its control bits, what the check says of it,
/// and what the check found of it where it is verified.
#[derive(Clone, Copy, Debug, PartialEq, Eq)]
pub struct SeenSegment {
    pub packet: u64,
    pub time: u64,
    pub source: Socket,
    pub destination: Socket,
    pub ids: Option<KeyIds>,
    pub protection: Protection,
    pub bits: SeenBits,
    pub outcome: SegmentOutcome,
    pub pass: Option<SeenPass>,
}

/// What a segment shows of its connection, behind those that were seen: whether it moves on what is expected
/// of its sender, whether it resets the connection, and whether its sender is finished.
#[derive(Clone, Copy, Debug, PartialEq, Eq)]
pub struct Signs {
    pub moves: bool,
    pub resets: bool,
    pub finishes: bool,
}

/// The segments from one socket to another with one KeyID and one RNextKeyID, or with no single ones, and protected
/// alike, of which the check says the same, and, where they are verified, of one connection and under one row of the
/// receiver's table: the number of their session, whether one is a SYN with ACK, how many there are, the earliest and
/// the latest time at which one was seen, in seconds since 1970, and the number of the last packet. `reached` is the
/// greatest number after the last byte of one that passed. `moved` is the number of the last packet that moved on
/// what is expected of its sender, `reset` that of the last verified RST at the number expected, `finished` that of a
/// FIN that moved on; each is 0 where there is none.
#[derive(Clone, Copy, Debug, PartialEq, Eq)]
pub struct KeyUse {
    pub session: u64,
    pub source: Socket,
    pub destination: Socket,
    pub key_id: Option<u8>,
    pub asked: Option<u8>,
    pub protection: Protection,
    pub outcome: SegmentOutcome,
    pub row: Option<u8>,
    pub isns: Option<FlowIsns>,
    pub opens: bool,
    pub segments: u64,
    pub first: u64,
    pub last: u64,
    pub packet: u64,
    pub reached: u64,
    pub moved: u64,
    pub reset: u64,
    pub finished: u64,
}

/// How many packets are passed over for this reason.
#[derive(Clone, Copy, Debug, PartialEq, Eq)]
pub struct PassedCount {
    pub why: PassedOver,
    pub packets: u64,
}
