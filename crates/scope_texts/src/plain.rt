//! Whether the text of a key file is plain: each header and each field at the front of a line of its own.
ghost use Rattle.std.specs.Prelude.{◌≡◌, ◌==◌, drop, not};
ghost use Rattle.std.specs.List.{list_all, list_any};
ghost use Rattle.book_base.specs.Lines.{lines_of};
ghost use Rattle.book_scope_texts.specs.Places.{begins_with, behind_key, has_three, is_bare, has_no_opening, is_item};
ghost use Rattle.book_scope_texts.specs.Places.{is_plain_text, is_plain_key, is_plain_line};

use crate::spots::{is_header, line_key, line_key_length, without_blanks};
use ao_base::{next_line, past_line};

fn is_bare_byte(byte: u8) -> bool
    ensures { result ≡ is_bare byte }
{
    (byte >= b'0' && byte <= b'9')
        || ((byte >= b'A' && byte <= b'Z')
            || ((byte >= b'a' && byte <= b'z') || (byte == b'-' || byte == b'_')))
}

/// Whether a key needs no quotes.
pub(crate) fn is_bare(key: &[u8]) -> bool
    ensures { result ≡ list_all is_bare key.now }
{
    key.iter().all(|byte| is_bare_byte(*byte))
}

fn begins_with(byte: u8, text: &[u8]) -> bool
    ensures { result ≡ begins_with byte text.now }
{
    match text {
        [first, ..] => *first == byte,
        [] => false,
    }
}

fn is_item(key: &[u8]) -> bool
    ensures { result ≡ is_item key.now }
{
    begins_with(b'"', key)
        || (begins_with(b'\'', key) || (begins_with(b',', key) || begins_with(b']', key)))
}

/// Whether three of a byte stand side by side.
fn has_three(byte: u8, text: &[u8]) -> bool
    ensures { result ≡ has_three byte 0 text.now }
{
    let mut seen = 0u8;
    for other in text {
        if *other != byte {
            seen = 0;
        } else if seen >= 2 {
            return true;
        } else {
            seen += 1;
        }
    }
    false
}

fn has_brace(line: &[u8]) -> bool
    ensures { result ≡ list_any (λ b. b == 0x7b) line.now }
{
    line.iter().any(|byte| *byte == b'{')
}

fn has_equals(line: &[u8]) -> bool
    ensures { result ≡ list_any (λ b. b == 0x3d) line.now }
{
    line.iter().any(|byte| *byte == b'=')
}

fn has_no_opening(line: &[u8]) -> bool
    ensures { result ≡ has_no_opening line.now }
{
    !(has_brace(line) || (has_three(b'"', line) || has_three(b'\'', line)))
}

fn behind_key(line: &[u8]) -> &[u8]
    ensures { result.now ≡ behind_key line.now }
{
    let line = without_blanks(line);
    without_blanks(&line[line_key_length(line)..])
}

fn is_plain_key(key: &[u8], line: &[u8]) -> bool
    ensures { result ≡ is_plain_key key.now line.now }
{
    is_header(key)
        || ((is_bare(key) && begins_with(b'=', behind_key(line)))
            || (is_item(key) && !has_equals(line)))
}

#[tactic(auto, unfolding(book_scope_texts::specs::Places::is_plain_line))]
fn is_plain_line(line: &[u8]) -> bool
    ensures { result ≡ is_plain_line line.now }
{
    let key = line_key(line);
    key == b"".as_slice() || (has_no_opening(line) && is_plain_key(key, line))
}

/// Whether each header and each field of a text stands at the front of a line of its own, so that a line can
/// be told as the place of a field.
#[tactic(auto, unfolding(book_scope_texts::specs::Places::is_plain_text))]
pub fn is_plain_text(text: &[u8]) -> bool
    ensures { result ≡ is_plain_text text.now }
{
    let mut from = 0;
    while let Some(cut) = next_line(text, from) {
        if !is_plain_line(&text[cut.first..cut.after]) {
            return false;
        }
        from = past_line(text, cut.after);
    }
    true
}
