//! The master key under a single change.
ghost use Rattle.std.specs.Prelude.{◌≡◌, ◌≤◌, ◌++◌, ◌∷◌, [], IfOk, length, map, take};
ghost use Rattle.book_base.specs.Hexadecimal.{hex_of};
ghost use Rattle.book_why.specs.Changes.{padded_to, upper_digit, without_zeros};
ghost use Rattle.scope_why.specs.Parts.{master_under};
ghost use Rattle.scope_why.specs.MacsViews.{choices_view};

use crate::choices::MacChoices;
use ao_base::push_hex;
use book_why::Change;
use std::alloc::{AllocError, Global};

fn text_of(alloc: Global, master: &[u8]) -> Result<Vec<u8>, AllocError>
    ensures { IfOk result (λ text. text.items ≡ hex_of master.now) }
{
    let mut text = Vec::new(alloc);
    match push_hex(&mut text, master) {
        Ok(()) => Ok(text),
        Err(error) => Err(error),
    }
}

fn upper_digit(digit: u8) -> u8
    ensures { result ≡ upper_digit digit }
{
    if digit >= 97 { digit - 32 } else { digit }
}

fn upper_text_of(alloc: Global, master: &[u8]) -> Result<Vec<u8>, AllocError>
    ensures { IfOk result (λ text. text.items ≡ map upper_digit (hex_of master.now)) }
{
    let text = text_of(alloc, master)?;
    text.iter().map(|digit| upper_digit(*digit)).collect(alloc)
}

fn with_newline(mut bytes: Vec<u8>) -> Result<Vec<u8>, AllocError>
    ensures { IfOk result (λ text. text.items ≡ bytes.items ++ 10 ∷ []) }
{
    bytes.push(b'\n')?;
    Ok(bytes)
}

fn padded_to(alloc: Global, most: u8, bytes: &[u8]) -> Result<Vec<u8>, AllocError>
    ensures { IfOk result (λ text. text.items ≡ padded_to most bytes.now) }
{
    let missing = usize::from(most).saturating_sub(bytes.len());
    let zeros = vec![in alloc; 0u8; missing]?;
    let mut text = bytes.to_vec(alloc)?;
    text.extend_from_slice(zeros.as_slice())?;
    Ok(text)
}

// Where the zeros at the end of bytes begin.
fn zeros_from(bytes: &[u8]) -> usize
    ensures within { result ≤ length bytes.now }
    ensures front { take result bytes.now ≡ without_zeros bytes.now }
{
    let mut end = 0;
    for i in 0..bytes.len() {
        if bytes[i] != 0 {
            end = i + 1;
        }
    }
    end
}

fn trimmed(mut bytes: Vec<u8>) -> Vec<u8>
    ensures { result.items ≡ without_zeros bytes.items }
{
    let end = zeros_from(bytes.as_slice());
    bytes.truncate(end);
    bytes
}

// The master key under a change of it.
fn master_under(alloc: Global, change: Change, key: Vec<u8>) -> Result<Vec<u8>, AllocError>
    ensures { IfOk result (λ text. text.items ≡ master_under change key.items) }
{
    match change {
        Change::KeyAsText => text_of(alloc, key.as_slice()),
        Change::KeyAsUpperText => upper_text_of(alloc, key.as_slice()),
        Change::KeyWithNewline => with_newline(key),
        Change::KeyAsTextWithNewline => {
            let text = text_of(alloc, key.as_slice())?;
            with_newline(text)
        }
        Change::KeyPadded(most) => padded_to(alloc, most, key.as_slice()),
        Change::KeyTrimmed => Ok(trimmed(key)),
        _ => Ok(key),
    }
}

// The choices under a change of their master key.
pub(crate) fn keyed_under(
    alloc: Global,
    change: Change,
    mut choices: MacChoices,
) -> Result<MacChoices, AllocError>
    ensures { IfOk result
        (λ m. choices_view m ≡ record (choices_view choices) { master = master_under change choices.master.items }) }
{
    choices.master = master_under(alloc, change, choices.master)?;
    Ok(choices)
}
