//! Texts and values as they are shown.
ghost use Rattle.std.specs.Prelude.{◌≡◌, ◌++◌, OnOk, codes, decimal, int_lt, map, pos, take, unsigned_abs};
ghost use Rattle.toml.specs.Data.{boolean};
ghost use Rattle.toml.specs.View.{view};
ghost use Rattle.book_scope_texts.specs.FieldTexts.{minus_if, shown_byte, shown_value, text_shown, type_shown};

use ao_base::push_decimal;
use std::alloc::AllocError;
use toml::Value;

/// The most bytes of a text that are shown.
const LONGEST_SHOWN: usize = 64;

fn shown_byte(byte: u8) -> u8
    ensures { result ≡ shown_byte byte }
{
    if byte >= 0x20 && byte <= 0x7e {
        byte
    } else {
        b'?'
    }
}

/// Puts each byte behind `out` as it is shown.
fn push_bytes(out: &mut Vec<u8>, text: &[u8]) -> Result<(), AllocError>
    ensures { OnOk result (out.new.items ≡ out.old.items ++ map shown_byte text.now) }
{
    for byte in text {
        out.push(shown_byte(*byte))?;
    }
    Ok(())
}

/// As many bytes of a text as are shown.
#[tactic(auto, using(crate::proofs::ShownLaws::first_bytes))]
fn first_bytes(text: &[u8]) -> &[u8]
    ensures { result.now ≡ take 64 text.now }
{
    &text[..LONGEST_SHOWN.min(text.len())]
}

/// Puts the text behind `out` as it is shown: its first 64 bytes, with a question mark for what isn't
/// printed, and two dots where there are more. Where memory runs out a part of it may stand there.
#[tactic(auto, unfolding(book_scope_texts::specs::FieldTexts::text_shown))]
pub fn push_shown_text(out: &mut Vec<u8>, text: &[u8]) -> Result<(), AllocError>
    ensures { OnOk result (out.new.items ≡ out.old.items ++ text_shown text.now) }
{
    push_bytes(out, first_bytes(text))?;
    if text.len() > LONGEST_SHOWN {
        return out.extend_from_slice(b"..");
    }
    Ok(())
}

fn push_quoted(out: &mut Vec<u8>, text: &[u8]) -> Result<(), AllocError>
    ensures { OnOk result (out.new.items ≡ out.old.items ++ (codes "\"" ++ (text_shown text.now ++ codes "\""))) }
{
    out.extend_from_slice(b"\"")?;
    push_shown_text(out, text)?;
    out.extend_from_slice(b"\"")
}

fn push_integer(out: &mut Vec<u8>, number: i64) -> Result<(), AllocError>
    ensures { OnOk result
        (out.new.items ≡ out.old.items ++ (minus_if (int_lt number (pos 0))
        ++ (decimal (unsigned_abs number) ++ codes ", an integer"))) }
{
    if number < 0 {
        out.extend_from_slice(b"-")?;
    }
    push_decimal(out, number.unsigned_abs())?;
    out.extend_from_slice(b", an integer")
}

#[tactic(auto, unfolding(book_scope_texts::specs::FieldTexts::shown_value))]
fn push_boolean(out: &mut Vec<u8>, is_true: bool) -> Result<(), AllocError>
    ensures { OnOk result (out.new.items ≡ out.old.items ++ shown_value (boolean is_true)) }
{
    if is_true {
        out.extend_from_slice(b"true, a boolean")
    } else {
        out.extend_from_slice(b"false, a boolean")
    }
}

/// The type of a value, of which nothing more is shown.
#[tactic(auto, unfolding(book_scope_texts::specs::FieldTexts::type_shown))]
pub(crate) fn type_shown(value: &Value) -> &'static [u8]
    ensures { result.now ≡ type_shown (view value.now) }
{
    match value {
        Value::String(_) => b"a text",
        Value::Integer(_) => b"an integer",
        Value::Float(_) => b"a float",
        Value::Boolean(_) => b"a boolean",
        Value::Datetime(_) => b"a date or time",
        Value::Array(_) => b"an array",
        Value::Table(_) => b"a table",
    }
}

/// Puts the value behind `out` as it is shown: a text between quotes, an integer with its type, and of any
/// other its type. Where memory runs out a part of it may stand there.
#[tactic(auto, unfolding(book_scope_texts::specs::FieldTexts::shown_value))]
pub fn push_shown_value(out: &mut Vec<u8>, value: &Value) -> Result<(), AllocError>
    ensures { OnOk result (out.new.items ≡ out.old.items ++ shown_value (view value.now)) }
{
    match value {
        Value::String(text) => push_quoted(out, text.as_bytes()),
        Value::Integer(number) => push_integer(out, *number),
        Value::Float(_) => out.extend_from_slice(b"a float"),
        Value::Boolean(flag) => push_boolean(out, *flag),
        Value::Datetime(_) => out.extend_from_slice(b"a date or time"),
        Value::Array(_) => out.extend_from_slice(b"an array"),
        Value::Table(_) => out.extend_from_slice(b"a table"),
    }
}
