//! Single changes of how the MAC of a segment is made.
use book_base::Algorithm;

/// Which bytes of a whole MAC a segment carries.
#[derive(Clone, Copy, Debug, PartialEq, Eq)]
pub enum MacPart {
    /// The first ones (RFC 5926, section 3.2).
    First,
    /// The last ones.
    Last,
}

/// One of the two nodes of a segment.
#[derive(Clone, Copy, Debug, PartialEq, Eq)]
pub enum SegmentNode {
    /// That which the segment goes to.
    Receiver,
    /// That which it comes from.
    Sender,
}

/// The initial sequence numbers of the source and of the destination of a segment (RFC 5925, section 5.2).
#[derive(Clone, Copy, Debug, PartialEq, Eq)]
pub struct IsnPair {
    pub source_isn: u32,
    pub destination_isn: u32,
}

/// A single change of how the MAC of a segment is made: a mistake of one of its ends.
#[derive(Clone, Copy, Debug, PartialEq, Eq)]
pub enum Change {
    /// The row of this number, from 1, in the table of a node.
    AnotherRow(SegmentNode, u8),
    /// The MAC covers the options where it shouldn't, or doesn't where it should.
    OtherFlag,
    /// This algorithm in place of the row's.
    OtherAlgorithm(Algorithm),
    /// HMAC-SHA-256 in place of the row's algorithm, its MAC cut to 96 bits.
    CutSha256,
    /// The master key's hexadecimal digits, in lower case, are themselves taken as bytes.
    KeyAsText,
    /// The same in upper case.
    KeyAsUpperText,
    /// A newline stands behind the master key.
    KeyWithNewline,
    /// The digits in lower case, with a newline behind them.
    KeyAsTextWithNewline,
    /// The master key is filled with zeros to so many bytes.
    KeyPadded(u8),
    /// The zeros at the end of the master key are left out: it is taken for a text that a zero ends.
    KeyTrimmed,
    /// The output length of the key derivation is told in bytes.
    LengthInBytes,
    /// The context of the other direction: sockets and initial sequence numbers are exchanged.
    OtherDirection,
    /// The sockets of the context are exchanged, its numbers aren't.
    SocketsExchanged,
    /// The initial sequence numbers of the context are exchanged, its sockets aren't.
    IsnsExchanged,
    /// The destination's initial sequence number is 0 in the context.
    NoDestinationIsn,
    /// The context has these initial sequence numbers: those of another connection.
    OtherConnection(IsnPair),
    /// The extension is one more.
    LapMore,
    /// The extension is one less.
    LapLess,
    /// The segment's checksum stands in the MAC's input.
    ChecksumKept,
    /// The right MAC stands in the MAC's input: it was made a second time over what it was put into.
    MacKept,
    /// The last bytes of the whole MAC are sent.
    LastBytes,
    /// The MAC's input has no pseudo-header.
    NoPseudoHeader,
}
