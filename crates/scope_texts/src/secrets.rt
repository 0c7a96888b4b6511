//! What is told of a master key, which is never shown: how long it is, and why it is none.
ghost use Rattle.std.specs.Prelude.{◌≡◌, ◌++◌, OnOk};
ghost use Rattle.std.specs.List.{list_all};
ghost use Rattle.book_scope_texts.specs.Hints.{digits_fault, fault_hint, is_digit_or_colon, is_digit_or_gap};
ghost use Rattle.book_scope_texts.specs.Hints.{is_hex_digit, is_prefixed, secret_fault, shown_secret, writing_fault};

use ao_base::push_decimal;
use book_scope_texts::SecretFault;
use std::alloc::AllocError;

fn is_hex_digit(byte: u8) -> bool
    ensures { result ≡ is_hex_digit byte }
{
    (byte >= b'0' && byte <= b'9')
        || ((byte >= b'A' && byte <= b'F') || (byte >= b'a' && byte <= b'f'))
}

fn is_digit_or_colon(byte: u8) -> bool
    ensures { result ≡ is_digit_or_colon byte }
{
    is_hex_digit(byte) || byte == b':'
}

fn is_digit_or_gap(byte: u8) -> bool
    ensures { result ≡ is_digit_or_gap byte }
{
    is_digit_or_colon(byte) || ((byte == b' ' || byte == b'\t' || byte == b'\r') || byte == b'\n')
}

fn are_hex_digits(text: &[u8]) -> bool
    ensures { result ≡ list_all is_hex_digit text.now }
{
    text.iter().all(|byte| is_hex_digit(*byte))
}

fn are_digits_and_colons(text: &[u8]) -> bool
    ensures { result ≡ list_all is_digit_or_colon text.now }
{
    text.iter().all(|byte| is_digit_or_colon(*byte))
}

fn are_digits_and_gaps(text: &[u8]) -> bool
    ensures { result ≡ list_all is_digit_or_gap text.now }
{
    text.iter().all(|byte| is_digit_or_gap(*byte))
}

/// Whether a text is digits behind 0x.
fn is_prefixed(text: &[u8]) -> bool
    ensures { result ≡ is_prefixed text.now }
{
    match text {
        [zero, mark, digits @ ..] => {
            (*zero == b'0' && (*mark == b'x' || *mark == b'X')) && are_digits_and_gaps(digits)
        }
        _ => false,
    }
}

fn digits_fault(text: &[u8]) -> Option<SecretFault>
    ensures { result ≡ digits_fault text.now }
{
    if text.len() % 2 == 1 {
        Some(SecretFault::OddLength)
    } else {
        None
    }
}

/// Why a text that isn't all digits is no master key.
#[tactic(auto, unfolding(book_scope_texts::specs::Hints::writing_fault))]
fn writing_fault(text: &[u8]) -> SecretFault
    ensures { result ≡ writing_fault text.now }
{
    if is_prefixed(text) {
        SecretFault::Prefixed
    } else if are_digits_and_colons(text) {
        SecretFault::WithColons
    } else if are_digits_and_gaps(text) {
        SecretFault::WithBlanks
    } else {
        SecretFault::NotHex
    }
}

/// Why a text is no master key, apart from how long it is.
#[tactic(auto, unfolding(book_scope_texts::specs::Hints::secret_fault))]
fn secret_fault(text: &[u8]) -> Option<SecretFault>
    ensures { result ≡ secret_fault text.now }
{
    if are_hex_digits(text) {
        digits_fault(text)
    } else {
        Some(writing_fault(text))
    }
}

fn fault_hint(fault: Option<SecretFault>) -> &'static [u8]
    ensures { result.now ≡ fault_hint fault }
{
    match fault {
        None => b"",
        Some(SecretFault::Prefixed) => b", hexadecimal behind 0x: leave the 0x out",
        Some(SecretFault::WithColons) => b", hexadecimal with colons: leave the colons out",
        Some(SecretFault::WithBlanks) => b", hexadecimal with blanks: leave the blanks out",
        Some(SecretFault::NotHex) => {
            b", not all hexadecimal (which is printf %s SECRET | xxd -p -c 256)"
        }
        Some(SecretFault::OddLength) => b", an odd number of digits",
    }
}

/// Puts behind `out` what is shown of a key, which is a secret: how long it is, and why it is none. Where
/// memory runs out a part of it may stand there.
#[tactic(auto, unfolding(book_scope_texts::specs::Hints::shown_secret))]
pub fn push_shown_secret(out: &mut Vec<u8>, text: &[u8]) -> Result<(), AllocError>
    ensures { OnOk result (out.new.items ≡ out.old.items ++ shown_secret text.now) }
{
    out.extend_from_slice(b"a text of ")?;
    push_decimal(out, text.len() as u64)?;
    out.extend_from_slice(b" bytes")?;
    out.extend_from_slice(fault_hint(secret_fault(text)))
}
