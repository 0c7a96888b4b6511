//! A block of 16 bytes as four columns, and the rounds over it.
ghost use Rattle.std.specs.Prelude.{◌≡◌, ◌+◌, ◌≤◌, ◌∷◌, ℕ, List, [], length, take, drop, bit_xor};
ghost use Rattle.book_segments.specs.Bytes.{put4};
ghost use Rattle.book_macs.specs.Ciphers.{xor, mix, mixed, sub_shift, sbox, next_key, doubled};
ghost use Rattle.ao_kdf.specs.Block.{bytes_of, halves_bytes};

use crate::table::{fourth_products, products, second_products, substitute, third_products};

/// The bits of a column.
const WORD: u64 = 0xffff_ffff;
/// The highest bit of a column.
const TOP_BIT: u32 = 0x8000_0000;
/// What doubling adds where a bit goes out at the top (RFC 4493, section 2.3).
const REDUCTION: Block = Block {
    first: 0,
    second: 0,
    third: 0,
    fourth: 0x87,
};

/// A block of zeros.
pub const ZEROS: Block = Block {
    first: 0,
    second: 0,
    third: 0,
    fourth: 0,
};

/// A block of 16 bytes as its four columns, each with the first byte highest (FIPS 197, section
/// 3.4).
#[derive(Clone, Copy)]
pub struct Block {
    pub first: u32,
    pub second: u32,
    pub third: u32,
    pub fourth: u32,
}

/// A block of 16 bytes as two numbers, each with the first byte highest: the form in which a chain
/// hands a block on, since both fit registers.
#[derive(Clone, Copy)]
pub struct Halves {
    pub high: u64,
    pub low: u64,
}

impl Halves {
    /// The columns of the block.
    pub fn to_columns(self) -> Block
        ensures { bytes_of result ≡ halves_bytes self }
    {
        Block {
            first: (self.high >> 32) as u32,
            second: (self.high & WORD) as u32,
            third: (self.low >> 32) as u32,
            fourth: (self.low & WORD) as u32,
        }
    }

    /// The two blocks, byte by byte.
    pub fn xor(self, other: Halves) -> Halves
        ensures { halves_bytes result ≡ xor (halves_bytes self) (halves_bytes other) }
    {
        Halves {
            high: self.high ^ other.high,
            low: self.low ^ other.low,
        }
    }
}

impl Block {
    /// The block of 16 bytes.
    pub fn of(bytes: &[u8]) -> Block
        requires { length bytes.now ≡ 16 }
        ensures { bytes_of result ≡ bytes.now }
    {
        Block {
            first: word_at(bytes, 0),
            second: word_at(bytes, 4),
            third: word_at(bytes, 8),
            fourth: word_at(bytes, 12),
        }
    }

    /// The 16 bytes of the block.
    pub fn to_bytes(self) -> [u8; 16]
        ensures { result ≡ bytes_of self }
    {
        let [a0, a1, a2, a3] = self.first.to_be_bytes();
        let [b0, b1, b2, b3] = self.second.to_be_bytes();
        let [c0, c1, c2, c3] = self.third.to_be_bytes();
        let [d0, d1, d2, d3] = self.fourth.to_be_bytes();
        [
            a0, a1, a2, a3, b0, b1, b2, b3, c0, c1, c2, c3, d0, d1, d2, d3,
        ]
    }

    /// The halves of the block.
    pub fn to_halves(self) -> Halves
        ensures { halves_bytes result ≡ bytes_of self }
    {
        Halves {
            high: (u64::from(self.first) << 32) + u64::from(self.second),
            low: (u64::from(self.third) << 32) + u64::from(self.fourth),
        }
    }

    /// The two blocks, byte by byte.
    pub fn xor(self, other: Block) -> Block
        ensures { bytes_of result ≡ xor (bytes_of self) (bytes_of other) }
    {
        Block {
            first: self.first ^ other.first,
            second: self.second ^ other.second,
            third: self.third ^ other.third,
            fourth: self.fourth ^ other.fourth,
        }
    }

    /// The block after a round with MixColumns, under this round key (FIPS 197, section 5.1).
    pub fn round(self, key: Block) -> Block
        ensures { bytes_of result ≡ xor (bytes_of key) (mix (sub_shift (bytes_of self))) }
    {
        let [a0, a1, a2, a3] = self.first.to_be_bytes();
        let [b0, b1, b2, b3] = self.second.to_be_bytes();
        let [c0, c1, c2, c3] = self.third.to_be_bytes();
        let [d0, d1, d2, d3] = self.fourth.to_be_bytes();
        Block {
            first: mixed_column(a0, b1, c2, d3, key.first),
            second: mixed_column(b0, c1, d2, a3, key.second),
            third: mixed_column(c0, d1, a2, b3, key.third),
            fourth: mixed_column(d0, a1, b2, c3, key.fourth),
        }
    }

    /// The block after the last round, which has no MixColumns (FIPS 197, section 5.1).
    pub fn last_round(self, key: Block) -> Block
        ensures { bytes_of result ≡ xor (bytes_of key) (sub_shift (bytes_of self)) }
    {
        let [a0, a1, a2, a3] = self.first.to_be_bytes();
        let [b0, b1, b2, b3] = self.second.to_be_bytes();
        let [c0, c1, c2, c3] = self.third.to_be_bytes();
        let [d0, d1, d2, d3] = self.fourth.to_be_bytes();
        Block {
            first: key.first ^ substituted(a0, b1, c2, d3),
            second: key.second ^ substituted(b0, c1, d2, a3),
            third: key.third ^ substituted(c0, d1, a2, b3),
            fourth: key.fourth ^ substituted(d0, a1, b2, c3),
        }
    }

    /// The block doubled in the field of 128 bits (RFC 4493, section 2.3).
    pub fn doubled(self) -> Block
        ensures { bytes_of result ≡ doubled (bytes_of self) }
    {
        let shifted = Block {
            first: (self.first << 1) + (self.second >> 31),
            second: (self.second << 1) + (self.third >> 31),
            third: (self.third << 1) + (self.fourth >> 31),
            fourth: self.fourth << 1,
        };
        if self.first < TOP_BIT {
            shifted
        } else {
            shifted.xor(REDUCTION)
        }
    }

    /// The round key after this one, with its round constant (FIPS 197, section 5.2).
    pub fn next_key(self, constant: u8) -> Block
        ensures { bytes_of result ≡ next_key (bytes_of self) constant }
    {
        let [d0, d1, d2, d3] = self.fourth.to_be_bytes();
        let first = self.first
            ^ u32::from_be_bytes([
                substitute(d1) ^ constant,
                substitute(d2),
                substitute(d3),
                substitute(d0),
            ]);
        let second = self.second ^ first;
        let third = self.third ^ second;
        let fourth = self.fourth ^ third;
        Block {
            first,
            second,
            third,
            fourth,
        }
    }
}

/// The number that four bytes spell, from `at` on.
fn word_at(bytes: &[u8], at: usize) -> u32
    requires { at + 4 ≤ length bytes.now }
    ensures { put4 result [] ≡ take 4 (drop at bytes.now) }
{
    u32::from_be_bytes([bytes[at], bytes[at + 1], bytes[at + 2], bytes[at + 3]])
}

/// SubBytes and MixColumns of the bytes of a column, and its round key (FIPS 197, section 5.1).
fn mixed_column(a: u8, b: u8, c: u8, d: u8, key: u32) -> u32
    ensures { put4 result [] ≡ xor (put4 key []) (mix (sbox a ∷ sbox b ∷ sbox c ∷ sbox d ∷ [])) }
{
    products(a) ^ second_products(b) ^ third_products(c) ^ fourth_products(d) ^ key
}

/// SubBytes of the bytes of a column.
fn substituted(a: u8, b: u8, c: u8, d: u8) -> u32
    ensures { put4 result [] ≡ sbox a ∷ sbox b ∷ sbox c ∷ sbox d ∷ [] }
{
    u32::from_be_bytes([substitute(a), substitute(b), substitute(c), substitute(d)])
}
