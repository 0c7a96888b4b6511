//! AES-128 under one key.
ghost use Rattle.std.specs.Prelude.{◌≡◌, ℕ, List};
ghost use Rattle.book_macs.specs.Ciphers.{aes};
ghost use Rattle.ao_kdf.specs.Block.{bytes_of, halves_bytes};
ghost use Rattle.ao_kdf.specs.Cipher.{IsKeyed};

use crate::block::{Block, Halves};

/// The number of rounds (FIPS 197, section 5).
const ROUNDS: usize = 10;
/// The round constants (FIPS 197, section 5.2).
const ROUND_CONSTANTS: [u8; ROUNDS] = [0x01, 0x02, 0x04, 0x08, 0x10, 0x20, 0x40, 0x80, 0x1b, 0x36];

/// AES-128 under one key (FIPS 197).
#[derive(Clone, Copy)]
pub struct Aes128 {
    keys: [Block; ROUNDS + 1],
}

impl Aes128 {
    /// The cipher under a key.
    pub fn new(key: &[u8; 16]) -> Aes128
        ensures { IsKeyed result key.now }
    {
        Aes128::under(Block::of(key))
    }

    /// The cipher under a key, as columns.
    pub(crate) fn under(key: Block) -> Aes128
        ensures { IsKeyed result (bytes_of key) }
    {
        let mut keys = [key; ROUNDS + 1];
        for i in 0..ROUNDS {
            keys[i + 1] = keys[i].next_key(ROUND_CONSTANTS[i]);
        }
        Aes128 { keys }
    }

    /// The block under the cipher (FIPS 197, section 5.1).
    pub fn encrypt(&self, block: &[u8; 16]) -> [u8; 16]
        ensures { (key : List ℕ) → IsKeyed self.now key → result ≡ aes key block.now }
    {
        self.encrypt_halves(Block::of(block).to_halves())
            .to_columns()
            .to_bytes()
    }

    /// The block under the cipher, as halves.
    pub(crate) fn encrypt_halves(&self, block: Halves) -> Halves
        ensures { (key : List ℕ) → IsKeyed self.now key → halves_bytes result ≡ aes key (halves_bytes block) }
    {
        self.encrypt_columns(block.to_columns()).to_halves()
    }

    // The block under the cipher, as columns. The rounds are written out, so that no register counts
    // them.
    fn encrypt_columns(&self, block: Block) -> Block
        ensures { (key : List ℕ) → IsKeyed self.now key → bytes_of result ≡ aes key (bytes_of block) }
    {
        self.keys[0]
            .xor(block)
            .round(self.keys[1])
            .round(self.keys[2])
            .round(self.keys[3])
            .round(self.keys[4])
            .round(self.keys[5])
            .round(self.keys[6])
            .round(self.keys[7])
            .round(self.keys[8])
            .round(self.keys[9])
            .last_round(self.keys[10])
    }
}
