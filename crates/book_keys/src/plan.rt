//! A plan of a change of keys.

/// How long before and after its sending a row must be accepted, and over which times a row must be
/// sendable; all four in seconds, the last two since 1970-01-01.
#[derive(Clone, Copy, Debug, PartialEq, Eq)]
pub struct Plan {
    pub lead: u64,
    pub lag: u64,
    pub from: u64,
    pub to: u64,
}
