//! The bytes of a MAC.
ghost use Rattle.std.specs.Prelude.{◌≡◌, ◌≤◌, ℕ, List, length, take};

use std::marker::Model;

/// The most bytes of a MAC: those of HMAC-SHA-256-128.
const LONGEST: usize = 16;

/// A MAC of up to 16 bytes; seen as the list of its bytes.
#[derive(Drop)]
pub struct MacBytes {
    bytes: [u8; LONGEST],
    length: usize,
}

impl Model for MacBytes {
    ghost Value = { List ℕ };

    ghost view = { λ m. take m.length m.bytes };

    ghost invariant = { λ m. m.length ≤ 16 };
}

impl MacBytes {
    /// The bytes, in the order in which they are sent.
    pub fn as_slice(&self) -> &[u8]
        ensures bytes { result.now ≡ self.now }
        ensures most { length result.now ≤ 16 }
    {
        &self.bytes[..self.length]
    }

    /// The first bytes of a longer code.
    pub(crate) fn front_of<const N: usize>(code: [u8; N], count: usize) -> MacBytes
        requires within { count ≤ N }
        requires most { count ≤ 16 }
        ensures bytes { result ≡ take count code.entry }
        ensures length { length result ≡ count }
    {
        let mut bytes = [0; LONGEST];
        let code = &code[..];
        bytes[..count].copy_from_slice(&code[..count]);
        MacBytes {
            bytes,
            length: count,
        }
    }
}
