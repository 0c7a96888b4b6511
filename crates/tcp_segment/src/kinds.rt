//! The kinds of options, and the head of the TCP-AO option.

/// The kind of the maximum segment size (RFC 9293, section 3.7.1).
pub const MSS_KIND: u8 = 2;

/// The kind of TCP MD5 (RFC 2385, section 3).
pub(crate) const MD5_KIND: u8 = 19;

/// The kind of TCP-AO (RFC 5925, section 2.2).
pub const AO_KIND: u8 = 29;

/// How many bytes a TCP-AO option has in front of its MAC: kind, length, KeyID and RNextKeyID (RFC
/// 5925, section 2.2).
pub const AO_HEAD: u8 = 4;

/// How many bytes an option other than TCP-AO has at least: kind and length (RFC 9293, section 3.2).
pub(crate) const LEAST_OPTION: u8 = 2;
