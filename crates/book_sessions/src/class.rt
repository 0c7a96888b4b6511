//! What becomes of a packet of a capture that is checked.

/// What a packet of a capture counts as.
#[derive(Clone, Copy, Debug, PartialEq, Eq)]
pub enum PacketClass {
    /// It has a segment that passes, and isn't foreign.
    Passes,
    /// It has a segment that doesn't pass, or one that was cut off, and isn't foreign.
    Refused,
    /// It has a segment between two addresses of which neither is a node's, without a TCP-AO option.
    Foreign,
    /// It has no segment.
    Other,
    /// It has none that can be read, but may be one.
    Doubtful,
}
