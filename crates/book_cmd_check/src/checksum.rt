//! What is said of the checksum of a datagram.

/// Whether a datagram's TCP checksum is right (RFC 9293, section 3.1).
#[derive(Clone, Copy, Debug, PartialEq, Eq)]
pub enum Checksum {
    Good,
    Wrong,
}
