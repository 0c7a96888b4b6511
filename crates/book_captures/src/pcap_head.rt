//! What the header of a classic pcap file says, and why a record of it isn't read.
use book_pcap::ByteOrder;

/// The unit of the second number of a record's time.
#[derive(Clone, Copy, Debug, PartialEq, Eq)]
pub enum Resolution {
    /// A millionth of a second: magic number a1b2c3d4.
    Microseconds,
    /// A thousand-millionth of a second: magic number a1b23c4d.
    Nanoseconds,
}

/// What a file's header says of its numbers and of its packets.
#[derive(Clone, Copy, Debug, PartialEq, Eq)]
pub struct PcapHead {
    /// The order of the bytes of the file's numbers.
    pub order: ByteOrder,
    /// The unit of the second number of a time.
    pub resolution: Resolution,
    /// The number of the link type of all its packets.
    pub link: u32,
}

/// Why the header of a file is refused.
#[derive(Clone, Copy, Debug, PartialEq, Eq)]
pub enum PcapHeadFault {
    /// The file ends before the header's 24 bytes do.
    Short,
    /// The first four bytes are neither magic number in either order.
    Magic,
    /// The version isn't 2.4.
    Version,
}

/// Why a record isn't read.
#[derive(Clone, Copy, Debug, PartialEq, Eq)]
pub enum RecordFault {
    /// The bytes end before the record does.
    Short,
    /// The record says that it keeps more than 262,144 bytes.
    TooLong,
}
