//! The findings of fields.
ghost use Rattle.std.specs.Prelude.{◌≡◌, ◌++◌, ◌∷◌, [], OnOk, option_map};
ghost use Rattle.toml.specs.View.{table_view, view};
ghost use Rattle.book_scope_texts.specs.FieldTexts.{field_said, finding_at, hidden_said};
ghost use Rattle.book_scope_texts.specs.RowFindings.{count_said, field_at, field_unless};
ghost use Rattle.scope_texts.specs.Fields.{field_of};

use crate::said::{push_field_said, push_hidden_said};
use ao_base::push_decimal;
use book_scope_texts::{KeyFinding, KeyPlace};
use key_table::member_at;
use std::alloc::AllocError;
use toml::{Table, Value};

/// A field of a table: the table's place, its key, and its value, if it has one.
#[derive(Clone, Copy)]
pub struct Field<'a> {
    pub(crate) place: &'a KeyPlace,
    pub(crate) key: &'a str,
    pub(crate) value: Option<&'a Value>,
}

/// The field at a key of a table.
pub fn field_at<'a>(place: &'a KeyPlace, key: &'a str, table: &'a Table) -> Field<'a>
    ensures { field_of result ≡ field_at place.now key.now (table_view table.now) }
{
    Field {
        place,
        key,
        value: member_at(table, key),
    }
}

/// Puts what is found at a place behind the findings. An error only for want of memory.
pub fn push_finding(
    findings: &mut Vec<KeyFinding>,
    place: &KeyPlace,
    field: &[u8],
    said: &[u8],
) -> Result<(), AllocError>
    ensures { OnOk result (findings.new.items ≡ findings.old.items ++ finding_at place.now field.now said.now ∷ []) }
{
    let finding = crate::said::finding_at(*findings.allocator(), place, field, said)?;
    findings.push(finding)?;
    Ok(())
}

/// Puts that a value isn't what is wanted at a key behind the findings. An error only for want of memory.
pub fn push_misfit(
    findings: &mut Vec<KeyFinding>,
    place: &KeyPlace,
    key: &str,
    value: Option<&Value>,
    wanted: &[u8],
) -> Result<(), AllocError>
    ensures { OnOk result (findings.new.items ≡ findings.old.items
        ++ finding_at place.now key.now (field_said (option_map (λ v. view v.now) value.entry) [] wanted.now) ∷ []) }
{
    let mut said = Vec::new(*findings.allocator());
    push_field_said(&mut said, value, b"", wanted)?;
    push_finding(findings, place, key.as_bytes(), said.as_slice())
}

/// Puts that a value isn't what is wanted at a key behind the findings, and of the value, which may be a
/// secret, its type alone. An error only for want of memory.
pub fn push_hidden(
    findings: &mut Vec<KeyFinding>,
    place: &KeyPlace,
    key: &str,
    value: Option<&Value>,
    wanted: &[u8],
) -> Result<(), AllocError>
    ensures { OnOk result (findings.new.items ≡ findings.old.items
        ++ finding_at place.now key.now (hidden_said (option_map (λ v. view v.now) value.entry) wanted.now) ∷ []) }
{
    let mut said = Vec::new(*findings.allocator());
    push_hidden_said(&mut said, value, wanted)?;
    push_finding(findings, place, key.as_bytes(), said.as_slice())
}

/// Puts a field that isn't good behind the findings: its value, a hint, and what is wanted. An error only for
/// want of memory.
#[tactic(auto, unfolding(book_scope_texts::specs::RowFindings::field_unless))]
pub fn push_unless(
    findings: &mut Vec<KeyFinding>,
    is_good: bool,
    field: Field<'_>,
    hint: &[u8],
    wanted: &[u8],
) -> Result<(), AllocError>
    ensures { OnOk result (findings.new.items ≡ findings.old.items
        ++ field_unless is_good (field_of field.entry) hint.now wanted.now) }
{
    if is_good {
        return Ok(());
    }
    let mut said = Vec::new(*findings.allocator());
    push_field_said(&mut said, field.value, hint, wanted)?;
    push_finding(findings, field.place, field.key.as_bytes(), said.as_slice())
}

/// The same of the field at a key of a table, without a hint.
pub(crate) fn push_column(
    findings: &mut Vec<KeyFinding>,
    is_good: bool,
    place: &KeyPlace,
    table: &Table,
    key: &str,
    wanted: &[u8],
) -> Result<(), AllocError>
    ensures { OnOk result (findings.new.items ≡ findings.old.items
        ++ field_unless is_good (field_at place.now key.now (table_view table.now)) [] wanted.now) }
{
    push_unless(findings, is_good, field_at(place, key, table), b"", wanted)
}

#[tactic(auto, unfolding(book_scope_texts::specs::RowFindings::count_said))]
fn push_count_said(out: &mut Vec<u8>, count: usize, wanted: &[u8]) -> Result<(), AllocError>
    ensures { OnOk result (out.new.items ≡ out.old.items ++ count_said count wanted.now) }
{
    out.extend_from_slice(b"an array of ")?;
    push_decimal(out, count as u64)?;
    out.extend_from_slice(b"; wanted: ")?;
    out.extend_from_slice(wanted)
}

/// Puts that an array has too few or too many items behind the findings. An error only for want of memory.
pub fn push_count(
    findings: &mut Vec<KeyFinding>,
    place: &KeyPlace,
    key: &str,
    count: usize,
    wanted: &[u8],
) -> Result<(), AllocError>
    ensures { OnOk result (findings.new.items ≡ findings.old.items
        ++ finding_at place.now key.now (count_said count wanted.now) ∷ []) }
{
    let mut said = Vec::new(*findings.allocator());
    push_count_said(&mut said, count, wanted)?;
    push_finding(findings, place, key.as_bytes(), said.as_slice())
}
