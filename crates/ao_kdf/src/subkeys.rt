//! The two subkeys of CMAC.
ghost use Rattle.std.specs.Prelude.{ℕ, List};
ghost use Rattle.ao_kdf.specs.Cipher.{IsKeyed};
ghost use Rattle.ao_kdf.specs.Subkeys.{AreSubkeys};

use crate::block::{Halves, ZEROS};
use crate::cipher::Aes128;

/// What the last block of a message is xored with (RFC 4493, section 2.3).
#[derive(Clone, Copy)]
pub struct Subkeys {
    /// The first subkey, for a whole block.
    pub whole: Halves,
    /// The second subkey, for a padded block.
    pub padded: Halves,
}

impl Subkeys {
    /// The subkeys of the key of this cipher.
    pub fn of(cipher: &Aes128) -> Subkeys
        ensures { (key : List ℕ) → IsKeyed cipher.now key → AreSubkeys result key }
    {
        let zeros = cipher.encrypt_halves(ZEROS.to_halves()).to_columns();
        let whole = zeros.doubled();
        Subkeys {
            whole: whole.to_halves(),
            padded: whole.doubled().to_halves(),
        }
    }
}
