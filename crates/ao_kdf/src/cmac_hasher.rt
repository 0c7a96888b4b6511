//! CMAC fed in pieces, and its PRF.
ghost use Rattle.std.specs.Prelude.{◌≡◌, ◌+◌, ◌-◌, ◌<◌, ◌≤◌, ◌++◌, ◌∷◌, List, [], ℕ, length, take, replicate, ◌==◌};
ghost use Rattle.std.specs.Prelude.{if◌then◌else◌};
ghost use Rattle.book_macs.specs.Ciphers.{aes, cmac, prf, xor, last_block};
ghost use Rattle.ao_kdf.specs.Block.{bytes_of, halves_bytes};
ghost use Rattle.ao_kdf.specs.Cipher.{IsKeyed};
ghost use Rattle.ao_kdf.specs.Chain.{goes_on};
ghost use Rattle.ao_kdf.specs.Subkeys.{AreSubkeys};

use crate::block::{Block, Halves, ZEROS};
use crate::cipher::Aes128;
use crate::subkeys::Subkeys;

/// The length of a block in bytes (RFC 4493, section 2.4).
const BLOCK_LEN: usize = 16;
/// The byte that ends a message before its padding (RFC 4493, section 2.4).
const END: u8 = 0x80;

/// AES-CMAC of the bytes fed to it (RFC 4493, section 2.4).
#[derive(Drop)]
pub struct Cmac {
    cipher: Aes128,
    subkeys: Subkeys,
    state: Halves,
    /// The last bytes, up to a whole block: the last block of the message takes another step.
    held: [u8; BLOCK_LEN],
    filled: usize,
    ghost within: { filled ≤ 16 },
}

impl Cmac {
    ghost use Rattle.ao_kdf.specs.CmacHasher.{StandsFor};

    /// A CMAC to which nothing was fed, under a key.
    pub fn new(key: &[u8; 16]) -> Cmac
        ensures { StandsFor result key.now [] }
    {
        Cmac::under(Block::of(key))
    }

    /// The same hasher again: a key that is kept ready as a hasher to which nothing was fed needs
    /// neither its round keys nor its subkeys computed for each message.
    pub fn copied(&self) -> Cmac
        ensures { result ≡ self.now }
    {
        Cmac {
            cipher: self.cipher,
            subkeys: self.subkeys,
            state: self.state,
            held: self.held,
            filled: self.filled,
        }
    }

    /// Feeds the next piece of the message, of any length.
    pub fn update(&mut self, piece: &[u8])
        ensures { (key fed : List ℕ) → StandsFor self.old key fed → StandsFor self.new key (fed ++ piece.now) }
    {
        let filled = self.filled;
        let room = BLOCK_LEN - filled;
        if piece.len() <= room {
            self.held = overlaid(self.held, filled, piece);
            self.filled = filled + piece.len();
            return;
        }
        let (front, rest) = piece.split_at(room);
        let block = overlaid(self.held, filled, front);
        let state = self
            .cipher
            .encrypt_halves(self.state.xor(Block::of(&block).to_halves()));
        let (state, last) = absorbed(&self.cipher, state, rest);
        self.state = state;
        self.held = overlaid(block, 0, last);
        self.filled = last.len();
    }

    /// The CMAC of all that was fed (RFC 4493, section 2.4).
    pub fn finish(self) -> [u8; 16]
        ensures { (key fed : List ℕ) → StandsFor self key fed → result ≡ cmac key fed }
    {
        self.finish_block().to_bytes()
    }

    fn under(key: Block) -> Cmac
        ensures { StandsFor result (bytes_of key) [] }
    {
        let cipher = Aes128::under(key);
        Cmac {
            cipher,
            subkeys: Subkeys::of(&cipher),
            state: ZEROS.to_halves(),
            held: [0; BLOCK_LEN],
            filled: 0,
        }
    }

    fn finish_block(self) -> Block
        ensures { (key fed : List ℕ) → StandsFor self key fed → bytes_of result ≡ cmac key fed }
    {
        let Cmac {
            cipher,
            subkeys,
            state,
            held,
            filled,
        } = self;
        let last = closed(subkeys, held, filled);
        cipher.encrypt_halves(state.xor(last)).to_columns()
    }
}

/// AES-CMAC-PRF-128 of a message under a key of any length: a key that isn't 16 bytes long is
/// hashed to one (RFC 4615, section 3).
pub fn prf(key: &[u8], message: &[u8]) -> [u8; 16]
    ensures { result ≡ prf key.now message.now }
{
    message_code(fitted(key), message).to_bytes()
}

/// The key of the PRF's CMAC: the key itself, or its CMAC under zeros (RFC 4615, section 3).
fn fitted(key: &[u8]) -> Block
    ensures { bytes_of result ≡ (if length key.now == 16 then key.now else cmac (replicate 16 0) key.now) }
{
    if key.len() == BLOCK_LEN {
        Block::of(key)
    } else {
        message_code(ZEROS, key)
    }
}

/// The CMAC of a whole message.
fn message_code(key: Block, message: &[u8]) -> Block
    ensures { bytes_of result ≡ cmac (bytes_of key) message.now }
{
    let mut hasher = Cmac::under(key);
    hasher.update(message);
    hasher.finish_block()
}

/// The chain over whole blocks, as long as bytes follow them, and the bytes that are left.
fn absorbed<'a>(cipher: &Aes128, from: Halves, bytes: &'a [u8]) -> (Halves, &'a [u8])
    ensures short { length result.1.now ≤ 16 }
    ensures same { (key more : List ℕ) → IsKeyed cipher.now key
        → goes_on key (halves_bytes from) (bytes.now ++ more)
        ≡ goes_on key (halves_bytes result.0) (result.1.now ++ more) }
{
    let mut state = from;
    let mut rest = bytes;
    while rest.len() > BLOCK_LEN {
        let (block, after) = rest.split_at(BLOCK_LEN);
        state = cipher.encrypt_halves(state.xor(Block::of(block).to_halves()));
        rest = after;
    }
    (state, rest)
}

/// The block with these bytes laid over it from `at` on.
fn overlaid(mut block: [u8; BLOCK_LEN], at: usize, bytes: &[u8]) -> [u8; BLOCK_LEN]
    requires { at + length bytes.now ≤ 16 }
    ensures { take (at + length bytes.now) result ≡ take at block ++ bytes.now }
{
    block[at..at + bytes.len()].copy_from_slice(bytes);
    block
}

/// The last block of a message, whole or padded, with its subkey (RFC 4493, section 2.4).
fn closed(subkeys: Subkeys, held: [u8; BLOCK_LEN], filled: usize) -> Halves
    requires { filled ≤ 16 }
    ensures { (key : List ℕ) → AreSubkeys subkeys key → halves_bytes result
        ≡ last_block (aes key (replicate 16 0)) (take filled held) }
{
    if filled == BLOCK_LEN {
        Block::of(&held).to_halves().xor(subkeys.whole)
    } else {
        Block::of(&padded(held, filled))
            .to_halves()
            .xor(subkeys.padded)
    }
}

/// The first bytes of a block, the byte 0x80 and zeros.
fn padded(held: [u8; BLOCK_LEN], filled: usize) -> [u8; BLOCK_LEN]
    requires { filled < 16 }
    ensures { result ≡ take filled held ++ 128 ∷ replicate (15 - filled) 0 }
{
    let mut block = [0; BLOCK_LEN];
    block[..filled].copy_from_slice(&held[..filled]);
    block[filled] = END;
    block
}
