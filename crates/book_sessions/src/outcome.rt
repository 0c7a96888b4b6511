//! What comes of a packet of a capture.
use book_captures::Skipped;
use book_endpoint::Refusal;
use book_segments::DatagramFault;

/// What comes of a segment of a capture.
#[derive(Clone, Copy, Debug, PartialEq, Eq)]
pub enum SegmentOutcome {
    /// It passes: its MAC is right (RFC 5925, section 7.5).
    Verified,
    /// It is refused for this reason.
    Refused(Refusal),
    /// No node of the tables has its destination's address, or both its sockets are one.
    NoNode,
    /// It passes, and would fix a connection more than are held.
    TooMany,
    /// The handshake of its connection isn't verified; it passes under initial sequence numbers that were seen.
    Unconfirmed,
    /// The same, and under these numbers it is refused for this reason.
    UnconfirmedRefused(Refusal),
    /// It was cut off, and its headers are there.
    CutOff,
}

/// Why a packet of a capture is no segment that the check judges.
#[derive(Clone, Copy, Debug, PartialEq, Eq)]
pub enum PassedOver {
    /// It has no datagram.
    NoDatagram(Skipped),
    /// The capture doesn't say when it was seen.
    NoTime,
    /// Its datagram is none of TCP, or faulty.
    Faulty(DatagramFault),
}
