//! Why a line isn't read.
ghost use Rattle.std.specs.Prelude.{◌≡◌};
ghost use Rattle.text_lines.specs.declared.word_problem.WordProblem.TheVariants as refusal;
ghost use Rattle.text_lines.specs.Readings.{fault_at};

use book_lines::{LineKind, TextFault};
use std::alloc::AllocError;
use thiserror::Error;

/// Why a line isn't read: memory ran out, or the kind of its first faulty word.
#[derive(Clone, Copy, Debug, Error, PartialEq, Eq)]
pub enum WordProblem {
    /// Memory ran out.
    #[error("out of memory")]
    Memory,
    /// The first faulty word is of this kind.
    #[error("faulty word: {0:?}")]
    Kind(LineKind),
}

impl WordProblem {
    /// The fault of an input whose line with this number isn't read for this reason.
    pub fn at(self, number: u32) -> TextFault
        ensures { result ≡ fault_at number self }
    {
        match self {
            WordProblem::Memory => TextFault::Memory,
            WordProblem::Kind(kind) => TextFault::Line(number, kind),
        }
    }
}

impl From<LineKind> for WordProblem {
    ghost from_gives = { λ k e. e ≡ refusal.Kind k };

    fn from(kind: LineKind) -> WordProblem {
        WordProblem::Kind(kind)
    }
}

impl From<AllocError> for WordProblem {
    ghost from_gives = { λ _ e. e ≡ refusal.Memory };

    fn from(_e: AllocError) -> WordProblem {
        WordProblem::Memory
    }
}
