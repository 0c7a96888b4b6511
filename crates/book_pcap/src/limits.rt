//! How long a datagram and a capture may be.

/// The greatest length of a datagram: the header of IPv6 and 65,535 bytes (RFC 8200, section 3).
pub const LONGEST_DATAGRAM: usize = 65_575;

/// The most bytes of a capture that is checked: 2^28.
pub const MOST_CAPTURE: u64 = 268_435_456;
