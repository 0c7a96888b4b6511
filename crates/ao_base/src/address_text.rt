//! Addresses as text.
ghost use Rattle.std.specs.Prelude.{◌≡◌, [], ◌∷◌, ◌++◌, decimal, position, IfOk, OnOk, MatchOption};
ghost use Rattle.book_base.specs.Addresses.{address_of, address_text, between_dots, dotted_of, dotted_text, four};
ghost use Rattle.book_base.specs.Addresses.{has_leading_zero, is_dot, octet_of};

use crate::decimal::read_decimal;
use crate::print::{push_decimal, push_hex};
use book_base::{Address, Bytes};
use std::alloc::{AllocError, Global};

/// The address that a word writes: four decimals 0 to 255 without leading zeros joined by dots, or
/// 32 hexadecimal digits of either case; None exactly where it is neither.
pub fn read_address(word: &[u8]) -> Option<Address>
    ensures { result ≡ address_of word.now }
{
    if word.len() != 32 {
        return read_dotted(word);
    }
    let mut bytes = [0u8; 16];
    match hex::decode_to_slice(word, &mut bytes) {
        Ok(()) => Some(Address::V6(bytes)),
        Err(_) => None,
    }
}

fn read_dotted(word: &[u8]) -> Option<Address>
    ensures { result ≡ dotted_of (between_dots word.now) }
{
    let (a, others) = split_dot(word)?;
    let (b, others) = split_dot(others)?;
    let (c, d) = split_dot(others)?;
    match split_dot(d) {
        Some(_) => None,
        None => read_four(a, b, c, d),
    }
}

fn read_four(a: &[u8], b: &[u8], c: &[u8], d: &[u8]) -> Option<Address>
    ensures { result ≡ four (octet_of a.now) (octet_of b.now) (octet_of c.now) (octet_of d.now) }
{
    let a = read_octet(a)?;
    let b = read_octet(b)?;
    let c = read_octet(c)?;
    let d = read_octet(d)?;
    Some(Address::V4([a, b, c, d]))
}

#[tactic(auto, unfolding(book_base::specs::Addresses::octet_of))]
fn read_octet(word: &[u8]) -> Option<u8>
    ensures { result ≡ octet_of word.now }
{
    if has_leading_zero(word) {
        return None;
    }
    u8::try_from(read_decimal(word)?).ok()
}

fn has_leading_zero(word: &[u8]) -> bool
    ensures { result ≡ has_leading_zero word.now }
{
    matches!(word, [b'0', _, ..])
}

// What stands before and after the first dot.
fn split_dot(word: &[u8]) -> Option<(&[u8], &[u8])>
    ensures { MatchOption result (between_dots word.now ≡ word.now ∷ [])
        (λ parts. between_dots word.now ≡ parts.0.now ∷ between_dots parts.1.now) }
{
    match dot_at(word) {
        Some(place) => Some((&word[..place], &word[place + 1..])),
        None => None,
    }
}

fn dot_at(word: &[u8]) -> Option<usize>
    ensures { result ≡ position is_dot word.now }
{
    word.iter().position(|byte| *byte == b'.')
}

/// The address as text, in the forms that `read_address` reads, hexadecimal in lower case.
pub fn print_address(alloc: Global, address: &Address) -> Result<Bytes, AllocError>
    ensures { IfOk result (λ text. text ≡ address_text address.now) }
{
    let mut text = Vec::new(alloc);
    match address {
        Address::V4(numbers) => push_dotted(&mut text, numbers)?,
        Address::V6(bytes) => push_hex(&mut text, bytes.as_slice())?,
    }
    Ok(Bytes::from_vec(text))
}

fn push_dotted(text: &mut Vec<u8>, numbers: &[u8; 4]) -> Result<(), AllocError>
    ensures { OnOk result (text.new.items ≡ text.old.items ++ dotted_text numbers.now) }
{
    push_decimal(text, u64::from(numbers[0]))?;
    push_after_dot(text, numbers[1])?;
    push_after_dot(text, numbers[2])?;
    push_after_dot(text, numbers[3])?;
    Ok(())
}

fn push_after_dot(text: &mut Vec<u8>, number: u8) -> Result<(), AllocError>
    ensures { OnOk result (text.new.items ≡ text.old.items ++ 46 ∷ decimal number) }
{
    text.push(b'.')?;
    push_decimal(text, u64::from(number))?;
    Ok(())
}
