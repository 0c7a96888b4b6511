//! What the definitions of AES and AES-CMAC compute.
ghost use Rattle.std.specs.Prelude.{◌≡◌, ℕ, ◌*◌, ◌<◌, List, length, replicate};
ghost use Rattle.std.specs.List.{fold};
ghost use Rattle.book_macs.specs.Ciphers.{cmac, inverse, times};
ghost use Rattle.book_macs.specs.Padded.{block_count, blocks, chain, padded, with_subkey};

/// AES-CMAC is the chain of AES over the blocks of the padded message whose last block has the
/// subkey; the padded message is whole blocks (RFC 4493, section 2.4).
pub fn cmac_is_the_chain()
    ensures whole { (m : List ℕ) → length (padded m) ≡ 16 * block_count m }
    ensures chain { (key m : List ℕ) → cmac key m ≡ fold (chain key) (replicate 16 0)
        (blocks (block_count m) (with_subkey key m)) }
{}

/// A byte but 0 times its inverse is 1 in the field of AES, and the inverse of 0 is 0 (FIPS 197,
/// sections 4.2 and 5.1.1).
pub fn inverses_multiply_to_one()
    ensures one { (a : ℕ) → 0 < a → a < 256 → times a (inverse a) ≡ 1 }
    ensures zero { inverse 0 ≡ 0 }
{}
