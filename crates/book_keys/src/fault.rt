//! What may be wrong with a key file.
ghost use Rattle.std.specs.Prelude.{◌≡◌};
ghost use Rattle.book_keys.specs.declared.fault.TableFault.TheVariants.{Memory};

use std::alloc::{AllocError, AllocFailed};
use thiserror::Error;

/// A column of a row (RFC 7210, section 2), a field of a node (`Name`, `Address`, `Rows`), or
/// `Other` for a key that is none of them and for a value that should be a table.
#[derive(Clone, Copy, Debug, PartialEq, Eq)]
pub enum Column {
    Other,
    Name,
    Address,
    Rows,
    AdminKeyName,
    LocalKeyName,
    PeerKeyName,
    Peers,
    Interfaces,
    Protocol,
    ProtocolSpecificInfo,
    Kdf,
    AlgId,
    Key,
    Direction,
    SendLifetimeStart,
    SendLifetimeEnd,
    AcceptLifetimeStart,
    AcceptLifetimeEnd,
    LocalPort,
    PeerPort,
}

/// Why a key file isn't read. Nodes and rows are counted from 1; 0 stands for the file, or for the
/// node itself.
#[derive(Clone, Copy, Debug, PartialEq, Eq, Error)]
pub enum TableFault {
    #[error("out of memory")]
    Memory,
    /// The bytes are no UTF-8 or no TOML.
    #[error("no TOML")]
    Syntax,
    /// The node, the row and its first faulty column.
    #[error("node {0} row {1} column {2:?}")]
    Field(u8, u8, Column),
    /// Over 16 nodes in the file (0), or over 64 rows in the node.
    #[error("too many in node {0}")]
    TooMany(u8),
    /// The node and its least two rows that overlap.
    #[error("node {0} rows {1} and {2} overlap")]
    Overlap(u8, u8, u8),
}

impl From<AllocError> for TableFault {
    ghost from_gives = { λ _ e. e ≡ Memory };

    fn from(_error: AllocError) -> TableFault {
        TableFault::Memory
    }
}

impl<T: Drop> From<AllocFailed<T>> for TableFault {
    ghost from_gives = { λ _ e. e ≡ Memory };

    fn from(_error: AllocFailed<T>) -> TableFault {
        TableFault::Memory
    }
}
