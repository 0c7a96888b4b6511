//! Hexadecimal.
ghost use Rattle.std.specs.Prelude.{◌≡◌, ◌↔◌, ◌+◌, ◌*◌, ◌/◌, ◌%◌, ◌<◌, ◌≤◌, ℕ, length, slice_index, unwrap_or};
ghost use Rattle.std.specs.Prelude.{IsTrue, IsFalse, IfOk, IsErrOf, Option, Some, None, Ok};
ghost use Rattle.std.specs.List.{list_all};
ghost use Rattle.std.specs.Char.{is_ascii_hexdigit};
ghost use Rattle.hex.specs.Hex.{hex_digit_value, pair_value};
ghost use Rattle.book_base.specs.Hexadecimal.{bytes_of_hex};

use book_base::Bytes;
use std::alloc::Global;
use std::simd::prelude::*;
use thiserror::Error;

/// Why a word gave no bytes.
#[derive(Debug, Drop, Error)]
pub enum HexProblem {
    #[error("out of memory")]
    Memory,
    #[error("not hexadecimal")]
    NotHex,
}

/// The bytes that a word writes in hexadecimal; NotHex exactly where the word isn't an even number
/// of hexadecimal digits of either case. The empty word is no byte.
pub fn read_hex(alloc: Global, word: &[u8]) -> Result<Bytes, HexProblem>
    ensures bytes { IfOk result (λ bytes. bytes_of_hex word.now ≡ Some bytes) }
    ensures not_hex { IsErrOf result HexProblem.NotHex ↔ (bytes_of_hex word.now ≡ None) }
{
    if word.len() % 2 != 0 {
        return Err(HexProblem::NotHex);
    }
    let Ok(mut bytes) = vec![in alloc; 0u8; word.len() / 2] else {
        return Err(without_memory(word));
    };
    if decode(word, bytes.as_mut_slice()) {
        Ok(Bytes::from_vec(bytes))
    } else {
        Err(HexProblem::NotHex)
    }
}

// Whether the word is hexadecimal; its bytes are then in `bytes`. The decoder of `hex` branches at each
// digit, which takes several times as long.
fn decode(word: &[u8], bytes: &mut [u8]) -> bool
    requires { length word.now ≡ 2 * length bytes.old }
    ensures yes { IsTrue result → bytes_of_hex word.now ≡ Some bytes.new }
    ensures no { IsFalse result → bytes_of_hex word.now ≡ None }
{
    if decode_blocks(word, bytes) {
        decode_rest(word, bytes)
    } else {
        false
    }
}

// The bytes of the whole blocks of 16; each block is tested as a whole, which costs little.
fn decode_blocks(word: &[u8], bytes: &mut [u8]) -> bool
    requires { length word.now ≡ 2 * length bytes.old }
    ensures length { length bytes.new ≡ length bytes.old }
    ensures yes { IsTrue result → (i : ℕ) → i < length bytes.old / 16 * 16
        → pair_value (slice_index word.now (2 * i)) (slice_index word.now (2 * i + 1)) (2 * i)
        ≡ Ok (slice_index bytes.new i) }
    ensures no { IsFalse result → bytes_of_hex word.now ≡ None }
{
    'whole: for block in 0..bytes.len() / 16 {
        if !decode_block(word, bytes, 16 * block) {
            return false;
        }
    }
    true
}

// The 16 bytes from `at` on. By vectors, since what is compiled of a loop over pairs gathers its
// digits one by one.
fn decode_block(word: &[u8], bytes: &mut [u8], at: usize) -> bool
    requires twice { length word.now ≡ 2 * length bytes.old }
    requires room { at + 16 ≤ length bytes.old }
    ensures length { length bytes.new ≡ length bytes.old }
    ensures before { (i : ℕ) → i < at → slice_index bytes.new i ≡ slice_index bytes.old i }
    ensures yes { IsTrue result → (i : ℕ) → at ≤ i → i < at + 16
        → pair_value (slice_index word.now (2 * i)) (slice_index word.now (2 * i + 1)) (2 * i)
        ≡ Ok (slice_index bytes.new i) }
    ensures no { IsFalse result → bytes_of_hex word.now ≡ None }
{
    let first = digits(word, 2 * at);
    let second = digits(word, 2 * at + 16);
    let high = first.shuffle(
        second,
        [0, 2, 4, 6, 8, 10, 12, 14, 16, 18, 20, 22, 24, 26, 28, 30],
    );
    let low = first.shuffle(
        second,
        [1, 3, 5, 7, 9, 11, 13, 15, 17, 19, 21, 23, 25, 27, 29, 31],
    );
    (high * u8x16::splat(16) + low).copy_to_slice(&mut bytes[at..]);
    are_digits(first) && are_digits(second)
}

// The values of 16 digits; 16 for another byte.
fn digits(word: &[u8], at: usize) -> u8x16
    requires { at + 16 ≤ length word.now }
    ensures lanes { length result ≡ 16 }
    ensures values { (i : ℕ) → i < 16 → slice_index result i ≡ unwrap_or
        (hex_digit_value (slice_index word.now (at + i))) 16 }
{
    let lanes = u8x16::from_slice(&word[at..]);
    let number = lanes - u8x16::splat(b'0');
    // A capital letter differs from its small one by the bit 32 alone.
    let letter = (lanes | u8x16::splat(32)) - u8x16::splat(b'a');
    let letter_or_none = letter
        .simd_lt(u8x16::splat(6))
        .select(letter + u8x16::splat(10), u8x16::splat(16));
    number
        .simd_lt(u8x16::splat(10))
        .select(number, letter_or_none)
}

// Whether each of 16 is the value of a digit.
fn are_digits(values: u8x16) -> bool
    requires { length values ≡ 16 }
    ensures yes { IsTrue result → (i : ℕ) → i < 16 → slice_index values i < 16 }
    ensures no { IsFalse result → (i : ℕ) × (i < 16) × (16 ≤ slice_index values i) }
{
    values.simd_ge(u8x16::splat(16)).to_bitmask() == 0
}

// The bytes behind the whole blocks, fewer than 16.
fn decode_rest(word: &[u8], bytes: &mut [u8]) -> bool
    requires twice { length word.now ≡ 2 * length bytes.old }
    requires read { (i : ℕ) → i < length bytes.old / 16 * 16
        → pair_value (slice_index word.now (2 * i)) (slice_index word.now (2 * i + 1)) (2 * i)
        ≡ Ok (slice_index bytes.old i) }
    ensures yes { IsTrue result → bytes_of_hex word.now ≡ Some bytes.new }
    ensures no { IsFalse result → bytes_of_hex word.now ≡ None }
{
    let mut greatest = 0u8;
    'pairs: for i in bytes.len() / 16 * 16..bytes.len() {
        let high = digit(word[2 * i]);
        let low = digit(word[2 * i + 1]);
        greatest = greatest.max(high).max(low);
        bytes[i] = high % 16 * 16 + low % 16;
    }
    greatest < 16
}

// The value of a digit; 16 for another byte.
fn digit(byte: u8) -> u8
    ensures { result ≡ unwrap_or (hex_digit_value byte) 16 }
{
    match byte {
        b'0'..=b'9' => byte - b'0',
        b'A'..=b'F' => byte - b'A' + 10,
        b'a'..=b'f' => byte - b'a' + 10,
        _ => 16,
    }
}

// Where memory is missing, another byte among the digits still makes the word not hexadecimal.
fn without_memory(word: &[u8]) -> HexProblem
    requires { length word.now % 2 ≡ 0 }
    ensures { (result ≡ HexProblem.NotHex) ↔ (bytes_of_hex word.now ≡ None) }
{
    if is_hex(word) {
        HexProblem::Memory
    } else {
        HexProblem::NotHex
    }
}

fn is_hex(word: &[u8]) -> bool
    ensures { result ≡ list_all is_ascii_hexdigit word.now }
{
    word.iter().all(|byte| byte.is_ascii_hexdigit())
}
