//! Rows that an operator adds, and why one isn't added or withdrawn.
ghost use Rattle.book_keys.specs.declared.new_row.AddRefusal.TheVariants.{Memory};
ghost use Rattle.std.specs.Prelude.{◌≡◌};

use crate::direction::Direction;
use crate::lifetime::Lifetime;
use book_base::{Algorithm, Bytes};
use std::alloc::{AllocError, AllocFailed};
use thiserror::Error;

/// A row to be added to a table, by a call or by a line of a link file. It is for any peer and any
/// ports (RFC 7210, section 2, and own).
#[derive(Drop)]
pub struct NewRow {
    /// The KeyID that it takes.
    pub recv_id: u8,
    /// The KeyID that it sends.
    pub send_id: u8,
    pub algorithm: Algorithm,
    /// The master key, 1 to 255 bytes.
    pub master: Bytes,
    /// Whether the MAC covers the TCP options (RFC 5925, section 5.1).
    pub with_options: bool,
    pub direction: Direction,
    pub sending: Lifetime,
    pub accepting: Lifetime,
}

/// Why a row isn't added.
#[derive(Clone, Copy, Debug, PartialEq, Eq, Error)]
pub enum AddRefusal {
    #[error("out of memory")]
    Memory,
    /// The table has 64 rows.
    #[error("too many rows")]
    TooMany,
    /// The least row that overlaps the new one.
    #[error("row {0} overlaps")]
    Overlap(u8),
}

/// The table has no row of this number.
#[derive(Clone, Copy, Debug, PartialEq, Eq, Error)]
#[error("no row of this number")]
pub struct NoRow;

impl From<AllocError> for AddRefusal {
    ghost from_gives = { λ _ e. e ≡ Memory };

    fn from(_error: AllocError) -> AddRefusal {
        AddRefusal::Memory
    }
}

impl<T: Drop> From<AllocFailed<T>> for AddRefusal {
    ghost from_gives = { λ _ e. e ≡ Memory };

    fn from(_error: AllocFailed<T>) -> AddRefusal {
        AddRefusal::Memory
    }
}
