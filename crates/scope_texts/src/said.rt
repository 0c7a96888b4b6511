//! What is said of a field, and a finding of it.
ghost use Rattle.std.specs.Prelude.{◌≡◌, ◌++◌, [], OnOk, IfOk, Some, None, option_map};
ghost use Rattle.toml.specs.View.{view};
ghost use Rattle.book_scope_texts.specs.FieldTexts.{field_said, finding_at, hidden_said, whose_text};

use crate::shown::{push_shown_value, type_shown};
use ao_base::push_decimal;
use book_base::Bytes;
use book_scope_texts::{KeyFinding, KeyPlace};
use std::alloc::{AllocError, Global};
use toml::Value;

#[tactic(auto, unfolding(book_scope_texts::specs::FieldTexts::field_said))]
fn push_missing(out: &mut Vec<u8>, wanted: &[u8]) -> Result<(), AllocError>
    ensures { OnOk result (out.new.items ≡ out.old.items ++ field_said None [] wanted.now) }
{
    out.extend_from_slice(b"missing; wanted: ")?;
    out.extend_from_slice(wanted)
}

#[tactic(auto, unfolding(book_scope_texts::specs::FieldTexts::field_said))]
fn push_given(
    out: &mut Vec<u8>,
    value: &Value,
    hint: &[u8],
    wanted: &[u8],
) -> Result<(), AllocError>
    ensures { OnOk result (out.new.items ≡ out.old.items ++ field_said (Some (view value.now)) hint.now wanted.now) }
{
    push_shown_value(out, value)?;
    out.extend_from_slice(hint)?;
    out.extend_from_slice(b"; wanted: ")?;
    out.extend_from_slice(wanted)
}

/// Puts behind `out` what is said of a field: the value that stands there, if one does, a hint, and what is
/// wanted. Where memory runs out a part of it may stand there.
#[tactic(auto, unfolding(book_scope_texts::specs::FieldTexts::field_said))]
pub fn push_field_said(
    out: &mut Vec<u8>,
    value: Option<&Value>,
    hint: &[u8],
    wanted: &[u8],
) -> Result<(), AllocError>
    ensures { OnOk result (out.new.items ≡ out.old.items ++ field_said (option_map (λ v. view v.now) value.entry)
        hint.now wanted.now) }
{
    match value {
        Some(value) => push_given(out, value, hint, wanted),
        None => push_missing(out, wanted),
    }
}

#[tactic(auto, unfolding(book_scope_texts::specs::FieldTexts::hidden_said))]
fn push_type_said(out: &mut Vec<u8>, value: &Value, wanted: &[u8]) -> Result<(), AllocError>
    ensures { OnOk result (out.new.items ≡ out.old.items ++ hidden_said (Some (view value.now)) wanted.now) }
{
    out.extend_from_slice(type_shown(value))?;
    out.extend_from_slice(b"; wanted: ")?;
    out.extend_from_slice(wanted)
}

/// Puts behind `out` what is said of a field whose value may be a secret: its type alone, and what is
/// wanted. Where memory runs out a part of it may stand there.
#[tactic(auto, unfolding(book_scope_texts::specs::FieldTexts::hidden_said, book_scope_texts::specs::FieldTexts::field_said))]
pub fn push_hidden_said(
    out: &mut Vec<u8>,
    value: Option<&Value>,
    wanted: &[u8],
) -> Result<(), AllocError>
    ensures { OnOk result (out.new.items ≡ out.old.items ++ hidden_said (option_map (λ v. view v.now) value.entry)
        wanted.now) }
{
    match value {
        Some(value) => push_type_said(out, value, wanted),
        None => push_missing(out, wanted),
    }
}

/// Puts whose a field is behind `out`: that of a row, of a node, or of the file.
fn push_whose(out: &mut Vec<u8>, place: &KeyPlace) -> Result<(), AllocError>
    ensures { OnOk result (out.new.items ≡ out.old.items ++ whose_text place.now.node place.now.row place.now.name) }
{
    if place.node == 0 {
        return Ok(());
    }
    if place.row != 0 {
        out.extend_from_slice(b" of row ")?;
        push_decimal(out, u64::from(place.row))?;
    }
    out.extend_from_slice(b" of ")?;
    out.extend_from_slice(place.name.as_slice())
}

/// What is found at a place: the field, and what is said of it. An error only for want of memory.
#[tactic(auto, unfolding(book_scope_texts::specs::FieldTexts::finding_at))]
pub fn finding_at(
    alloc: Global,
    place: &KeyPlace,
    field: &[u8],
    said: &[u8],
) -> Result<KeyFinding, AllocError>
    ensures { IfOk result (λ finding. finding ≡ finding_at place.now field.now said.now) }
{
    let mut text = Vec::new(alloc);
    push_whose(&mut text, place)?;
    text.extend_from_slice(b": ")?;
    text.extend_from_slice(said)?;
    Ok(KeyFinding {
        node: place.node,
        row: place.row,
        field: Bytes::from_vec(Vec::from_slice(alloc, field)?),
        said: Bytes::from_vec(text),
    })
}
