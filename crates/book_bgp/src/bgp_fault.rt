//! What may be wrong with the header of a BGP message.

/// Why the header of a BGP message is refused (RFC 4271, section 6.1).
#[derive(Clone, Copy, Debug, PartialEq, Eq)]
pub enum BgpFault {
    /// The first 16 bytes aren't all ff.
    Marker,
    /// The length is below 19, above 4096, or none that the type may have.
    Length,
    /// The type is unknown.
    Kind,
}
