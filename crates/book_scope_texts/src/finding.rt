//! What is wrong in a key file, and where.
use book_base::Bytes;

/// A node of a key file, or one of its rows. Both are counted from 1; node 0 is the file, and row 0 the node
/// itself.
#[derive(Debug, Drop)]
pub struct KeyPlace {
    pub node: u8,
    pub row: u8,
    /// How the node is called in a text.
    pub name: Bytes,
}

/// What is wrong with a field of a key file.
#[derive(Debug, Drop)]
pub struct KeyFinding {
    /// The node of the field, from 1; 0 for the file.
    pub node: u8,
    /// The row of the field, from 1; 0 for a field of the node itself.
    pub row: u8,
    /// The key of the field.
    pub field: Bytes,
    /// What is said of it behind its key: whose it is, its value, and what is wanted.
    pub said: Bytes,
}

/// Why a text is no master key, or how it was written.
#[derive(Clone, Copy, Debug, PartialEq, Eq)]
pub enum SecretFault {
    /// `0x` stands in front of its digits.
    Prefixed,
    WithColons,
    WithBlanks,
    /// A byte of it is no hexadecimal digit.
    NotHex,
    /// A digit is missing.
    OddLength,
}

/// Why a text is no TOML.
#[derive(Clone, Copy, Debug, PartialEq, Eq)]
pub enum TomlFault {
    /// A byte is no UTF-8.
    Utf8,
    /// No key stands where one is to.
    Key,
    /// No equals sign stands behind a key.
    MissingEquals,
    /// A header of a table isn't closed.
    OpenTable,
    /// A header of an array of tables isn't closed.
    OpenArrayTable,
    /// More stands on a line than it may.
    EndOfLine,
    /// More stands behind a value than may.
    Content,
    /// A comma or the end of an array is missing.
    Array,
    /// A comma or the end of an inline table is missing.
    InlineTable,
    /// A text isn't closed, or has a byte that it can't have.
    Text,
    /// An escape in a text is none.
    Escape,
    /// No value stands where one is to.
    Value,
    /// An underscore stands elsewhere than between digits.
    Underscore,
    /// A number is out of its range.
    Overflow,
    /// A date or time is none.
    Datetime,
    /// A key or a table stands twice.
    Twice,
    /// A dotted key goes into a value that is no table.
    Extend,
    /// Values lie in one another too deep.
    Depth,
}

/// A place in a text: its line, and its byte in that line, both counted from 1.
#[derive(Clone, Copy, Debug, PartialEq, Eq)]
pub struct TextPlace {
    pub line: u64,
    pub column: u64,
}

/// The node and the row to which a line of a key file belongs, as its headers are counted; 0 in front of the
/// first.
#[derive(Clone, Copy, Debug, PartialEq, Eq)]
pub struct KeySpot {
    pub node: u64,
    pub row: u64,
}
