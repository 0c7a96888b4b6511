//! Why an input of lines isn't read.
ghost use Rattle.std.specs.Prelude.{◌≡◌};
ghost use Rattle.book_lines.specs.declared.text_fault.TextFault.TheVariants.{Memory};

use crate::line_kind::LineKind;
use std::alloc::{AllocError, AllocFailed};
use thiserror::Error;

/// Why an input of lines isn't read.
#[derive(Debug, Drop, Error, PartialEq, Eq)]
pub enum TextFault {
    /// Memory ran out.
    #[error("out of memory")]
    Memory,
    /// The input has more than 20,000 lines.
    #[error("too many lines")]
    TooManyLines,
    /// The first faulty line, counted from 1 among all lines, and the kind of its first faulty word.
    #[error("line {0}: {1:?}")]
    Line(u32, LineKind),
}

impl From<AllocError> for TextFault {
    ghost from_gives = { λ _ e. e ≡ Memory };

    fn from(_e: AllocError) -> TextFault {
        TextFault::Memory
    }
}

impl<T: Drop> From<AllocFailed<T>> for TextFault {
    ghost from_gives = { λ _ e. e ≡ Memory };

    fn from(_e: AllocFailed<T>) -> TextFault {
        TextFault::Memory
    }
}
