//! A slice of a time.

/// The seconds from `first` to `last`, both included, since 1970.
#[derive(Clone, Copy, Debug, PartialEq, Eq)]
pub struct Slice {
    pub first: u64,
    pub last: u64,
}
