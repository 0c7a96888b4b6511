//! How long a line may be.

/// The most bytes of a line of an input of stored segments.
pub const MOST_LINE: usize = 131_200;
