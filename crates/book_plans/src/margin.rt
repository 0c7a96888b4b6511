//! How far a planned rollover may be off.

/// With how many seconds of lead, or of lag, two tables are aligned: what the reading of a
/// receiver's clock may be behind, or ahead of, the reading at which a segment was made.
#[derive(Clone, Copy, Debug, PartialEq, Eq)]
pub enum Margin {
    /// With so many seconds and with fewer, and with no more.
    UpTo(u64),
    /// With any number of seconds.
    Any,
}
