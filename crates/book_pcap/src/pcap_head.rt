//! What the header of a pcap file says.

/// The order of the bytes of a file's numbers.
#[derive(Clone, Copy, Debug, PartialEq, Eq)]
pub enum ByteOrder {
    /// The highest byte first.
    Big,
    /// The lowest byte first.
    Little,
}

/// What each packet of a file begins with.
#[derive(Clone, Copy, Debug, PartialEq, Eq)]
pub enum LinkType {
    /// A header of Ethernet: link type 1.
    Ethernet,
    /// The header of IP: link type 101.
    Raw,
}

/// What a file's header says of its numbers and of its packets.
#[derive(Clone, Copy, Debug, PartialEq, Eq)]
pub struct Head {
    pub order: ByteOrder,
    pub link: LinkType,
}

/// Why the header of a file is refused.
#[derive(Clone, Copy, Debug, PartialEq, Eq)]
pub enum HeadFault {
    /// The file has fewer than 24 bytes.
    Short,
    /// The first four bytes are the magic number in neither order.
    Magic,
    /// The version isn't 2.4.
    Version,
    /// The link type is neither Ethernet (1) nor raw IP (101).
    LinkType,
}
