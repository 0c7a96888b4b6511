//! The bytes of one message, as far as they have come.
ghost use Rattle.std.specs.Prelude.{◌≡◌, ◌+◌, ◌-◌, ◌≤◌, min, [], ◌++◌, length, take, IfOk};
ghost use Rattle.book_bgp.specs.Messages.{greatest_length};

use std::alloc::{AllocError, Global};
use std::marker::Model;

/// The greatest length of a message (RFC 4271, section 4.1).
pub(crate) const GREATEST: usize = 4096;

/// The bytes of one message so far, in memory for the longest.
#[derive(Debug, Drop)]
pub(crate) struct Gathered {
    bytes: Vec<u8>,
    len: usize,
}

impl Model for Gathered {
    ghost use Rattle.std.specs.Prelude.{◌≡◌, ◌≤◌, ℕ, List, length, take};

    ghost Value = { List ℕ };

    ghost view = { λ g. take g.len g.bytes.items };

    ghost invariant = { λ g. (g.len ≤ 4096) × (length g.bytes.items ≡ 4096) };
}

impl Gathered {
    /// No byte yet. It takes all its memory here.
    pub(crate) fn new(alloc: Global) -> Result<Gathered, AllocError>
        ensures { IfOk result (λ g. g ≡ []) }
    {
        let bytes = vec![in alloc; 0u8; GREATEST]?;
        Ok(Gathered { bytes, len: 0 })
    }

    pub(crate) fn as_slice(&self) -> &[u8]
        ensures value { result.now ≡ self.now }
        ensures fits { length result.now ≤ greatest_length }
    {
        &self.bytes.as_slice()[..self.len]
    }

    pub(crate) fn clear(&mut self)
        ensures { self.new ≡ [] }
    {
        self.len = 0;
    }

    /// Takes bytes of the piece until there are as many as are wanted, and answers how many it took.
    pub(crate) fn fill(&mut self, piece: &[u8], wanted: usize) -> usize
        requires { wanted ≤ greatest_length }
        ensures used { result ≡ min (length piece.now) (wanted - length self.old) }
        ensures bytes { self.new ≡ self.old ++ take result piece.now }
    {
        let used = piece.len().min(wanted.saturating_sub(self.len));
        let at = self.len;
        copy_at(self.bytes.as_mut_slice(), at, &piece[..used]);
        self.len = at + used;
        used
    }
}

// Writes the piece into the bytes from `at` on.
fn copy_at(bytes: &mut [u8], at: usize, piece: &[u8])
    requires { at + length piece.now ≤ length bytes.old }
    ensures { take (at + length piece.now) bytes.new ≡ take at bytes.old ++ piece.now }
{
    bytes[at..at + piece.len()].copy_from_slice(piece);
}
