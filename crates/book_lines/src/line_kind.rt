//! What may be wrong with a line of input.

/// The kind of a line's first faulty word.
#[derive(Clone, Copy, Debug, PartialEq, Eq)]
pub enum LineKind {
    /// A word that is unknown, missing or surplus, or that should be an address and is none.
    Word,
    /// No decimal below 2^64.
    Number,
    /// Not hexadecimal.
    Hex,
    /// A number or a length out of its range.
    Range,
    /// A faulty line of the head.
    Header,
    /// A faulty line that names the shared key.
    Shared,
}
