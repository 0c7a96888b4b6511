//! Why the check refuses a segment.

/// The first reason to refuse a segment in the order of the tests (RFC 5925, section 7.5).
#[derive(Clone, Copy, Debug, PartialEq, Eq)]
pub enum Refusal {
    /// No TCP-AO option.
    NoAo,
    /// More than one TCP-AO option.
    TwoAo,
    /// TCP MD5 beside TCP-AO.
    WithMd5,
    /// No row takes segments with its KeyID.
    NoTuple,
    /// A row does, but not at this time.
    Expired,
    /// Its MAC hasn't the length of the row's algorithm.
    MacLength,
    /// The initial sequence numbers of its traffic key aren't known.
    NoContext,
    /// Its number is below 0, or it ends past 2^63.
    Range,
    /// Its MAC is wrong.
    BadMac,
}
