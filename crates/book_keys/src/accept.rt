//! What a look-up by RecvID finds.

/// What a look-up by RecvID finds for a pair at a time (RFC 5925, section 7.5).
#[derive(Clone, Copy, Debug, PartialEq, Eq)]
pub enum Accept {
    /// The number of the row, from 1, which is acceptable now.
    Row(u8),
    /// Some matching row for what comes in has the id, and none of them is acceptable now.
    Expired,
    /// No matching row for what comes in has the id.
    Absent,
}
