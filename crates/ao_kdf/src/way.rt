//! The two ways of a connection.

/// The way that a segment goes, as one end sees it.
#[derive(Clone, Copy, Debug, PartialEq, Eq)]
pub enum Way {
    /// To this end.
    Inbound,
    /// From this end.
    Outbound,
}
