//! What the blocks of a pcapng file say, and why one is refused.
use book_pcap::ByteOrder;

/// Why a block isn't read.
#[derive(Clone, Copy, Debug, PartialEq, Eq)]
pub enum BlockFault {
    /// The bytes end before the block does.
    Short,
    /// The file doesn't begin with a section's header.
    NoSection,
    /// The byte-order magic of a section's header is 1a2b3c4d in neither order.
    Order,
    /// The total length is below 12, or no multiple of 4.
    Length,
    /// The total length is above 16,777,216.
    TooLong,
    /// The total length at the block's end is another than the one at its front.
    Trailer,
}

/// Why what a block says is refused.
#[derive(Clone, Copy, Debug, PartialEq, Eq)]
pub enum BodyFault {
    /// The block has no room for its fields and for the bytes that it says it keeps.
    Short,
    /// The major version of a section isn't 1.
    Version,
    /// A packet is of an interface that its section doesn't describe before.
    NoInterface,
    /// A section describes more than 4,096 interfaces.
    TooManyInterfaces,
}

/// The unit of the times of an interface.
#[derive(Clone, Copy, Debug, PartialEq, Eq)]
pub enum TimeResolution {
    /// A second divided by this power of ten.
    Decimal(u8),
    /// A second divided by this power of two.
    Binary(u8),
}

/// How many seconds are added to the times of an interface.
#[derive(Clone, Copy, Debug, PartialEq, Eq)]
pub enum TimeOffset {
    /// They are added.
    Later(u64),
    /// They are taken away.
    Earlier(u64),
}

/// What a block says of an interface.
#[derive(Clone, Copy, Debug, PartialEq, Eq)]
pub struct Interface {
    /// The number of the link type of all its packets.
    pub link: u32,
    /// The most bytes that the snapshot leaves of a packet; 0 for no limit.
    pub snapshot: u32,
    /// The unit of its times.
    pub resolution: TimeResolution,
    /// What is added to its times.
    pub offset: TimeOffset,
}
