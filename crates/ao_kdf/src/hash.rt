//! The hashes under an HMAC.
ghost use Rattle.std.specs.Prelude.{◌≡◌, ◌≤◌, ℕ, List, [], ◌++◌};
ghost use Rattle.std.proofs.Common.{lit≤};
ghost use Rattle.sha1.specs.Sha1 as one;
ghost use Rattle.sha2.specs.Hashers as two;
ghost use Rattle.sha2.specs.Sha256.{sha256};

use sha1::Sha1;
use sha2::{Digest, Sha256};

/// A hash of `N` bytes over blocks of 64 bytes, fed in pieces (RFC 2104, section 2).
pub trait BlockHash<const N: usize>: Drop {
    // The hasher holds this message.
    ghost holds: { Self → List ℕ → Type 0 };

    // The hash of a message.
    ghost hash: { List ℕ → List ℕ };

    /// A hasher of the empty message.
    fn empty() -> Self
        ensures { holds result [] };

    /// Adds a piece to the message.
    fn feed(&mut self, piece: &[u8])
        ensures { (message : List ℕ) → holds self.old message → holds self.new (message ++ piece.now) };

    /// The hash of the message.
    fn hashed(self) -> [u8; N]
        ensures { (message : List ℕ) → holds self message → result ≡ hash message };

    /// The same hasher again.
    fn copied(&self) -> Self
        ensures { result ≡ self.now };

    // A hash fits a block.
    ghost fits: { N ≤ 64 };
}

impl BlockHash<20> for Sha1 {
    ghost holds = { one.Holds };

    ghost hash = { one.sha1 };

    fn empty() -> Sha1 {
        Sha1::new()
    }

    fn feed(&mut self, piece: &[u8]) {
        self.update(piece);
    }

    fn hashed(self) -> [u8; 20] {
        self.finalize()
    }

    fn copied(&self) -> Sha1 {
        match self.clone() {
            Ok(hasher) => hasher,
            Err(_) => unreachable!(),
        }
    }

    ghost fits = { lit≤ tt };
}

impl BlockHash<32> for Sha256 {
    ghost holds = { two.Holds256 };

    ghost hash = { sha256 };

    fn empty() -> Sha256 {
        Digest::new()
    }

    fn feed(&mut self, piece: &[u8]) {
        Digest::update(self, piece);
    }

    fn hashed(self) -> [u8; 32] {
        Digest::finalize(self)
    }

    fn copied(&self) -> Sha256 {
        match self.clone() {
            Ok(hasher) => hasher,
            Err(_) => unreachable!(),
        }
    }

    ghost fits = { lit≤ tt };
}
