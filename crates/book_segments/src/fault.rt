//! Why bytes are no option area, and no datagram.

use thiserror::Error;

/// Why bytes are no option area (RFC 9293, section 3.2), with the place of the first faulty
/// option's kind byte.
#[derive(Clone, Copy, Debug, Error, PartialEq, Eq)]
pub enum OptionFault {
    /// A length byte below 2, or below 4 for TCP-AO (RFC 5925, section 2.2).
    #[error("option with a short length at {0}")]
    ShortLength(u8),
    /// No length byte, or an option that reaches past the area.
    #[error("option past the end at {0}")]
    PastEnd(u8),
}

/// Why bytes are no datagram: the first of these tests that holds, in this order.
#[derive(Clone, Copy, Debug, Error, PartialEq, Eq)]
pub enum DatagramFault {
    /// Fewer bytes than the IP header or its length field says.
    #[error("truncated")]
    Truncated,
    /// Neither IPv4 nor IPv6.
    #[error("neither IPv4 nor IPv6")]
    Version,
    /// An IPv4 header of less than 20 bytes, or of more than the total length.
    #[error("faulty header length")]
    HeaderLength,
    /// An IPv4 header whose words don't sum to ffff.
    #[error("wrong header checksum")]
    HeaderChecksum,
    /// A fragment of a datagram over IPv4.
    #[error("fragment")]
    Fragment,
    /// Another protocol than TCP.
    #[error("not TCP")]
    NotTcp,
    /// An extension header of IPv6.
    #[error("extension header")]
    ExtensionHeader,
    /// A data offset below the TCP header's length, or past the datagram's end.
    #[error("faulty data offset")]
    DataOffset,
    /// A fault in the TCP options.
    #[error("{0}")]
    BadOption(OptionFault),
}
