//! What a row is called: its node, its number, and what the operator calls it.
ghost use Rattle.std.specs.Prelude.{◌≡◌, ◌++◌, IfOk, OnOk, option_map};
ghost use Rattle.toml.specs.View.{table_view};
ghost use Rattle.book_scope_plan.specs.FindingTexts.{admin_text, row_name};
ghost use Rattle.book_scope_plan.specs.CalendarTexts.{row_numbered};

use crate::names::admin_name;
use ao_base::push_decimal;
use key_table::{Row, Table};
use scope_texts::push_shown_text;
use std::alloc::{AllocError, Global};

/// Puts what the operator calls a row behind `out`, where it is named. Where memory runs out a part of it may
/// stand there.
#[tactic(auto, unfolding(book_scope_plan::specs::FindingTexts::admin_text))]
pub fn push_admin(out: &mut Vec<u8>, name: Option<&str>) -> Result<(), AllocError>
    ensures { OnOk result (out.new.items ≡ out.old.items ++ admin_text (option_map (λ s. s.now) name.entry)) }
{
    match name {
        Some(text) => {
            out.extend_from_slice(b" (")?;
            push_shown_text(out, text.as_bytes())?;
            out.extend_from_slice(b")")
        }
        None => Ok(()),
    }
}

/// Puts the name of a node behind `out`, the number of a row, and what the document calls it. An error only for
/// want of memory.
#[tactic(auto, unfolding(book_scope_plan::specs::FindingTexts::row_name))]
pub fn push_row_name(
    out: &mut Vec<u8>,
    document: &toml::Table,
    name: &[u8],
    number: u8,
) -> Result<(), AllocError>
    ensures { OnOk result (out.new.items ≡ out.old.items ++ row_name (table_view document.now) name.now number) }
{
    out.extend_from_slice(name)?;
    out.extend_from_slice(b" row ")?;
    push_decimal(out, u64::from(number))?;
    push_admin(out, admin_name(document, name, number))
}

/// The same as a text of its own.
pub fn row_name(
    alloc: Global,
    document: &toml::Table,
    name: &[u8],
    number: u8,
) -> Result<Vec<u8>, AllocError>
    ensures { IfOk result (λ text. text.items ≡ row_name (table_view document.now) name.now number) }
{
    let mut text = Vec::new(alloc);
    push_row_name(&mut text, document, name, number)?;
    Ok(text)
}

/// The row of this number, from 1.
pub fn row_numbered(table: &Table, number: u8) -> Option<&Row>
    ensures { option_map (λ r. r.now) result ≡ row_numbered table.now.rows number }
{
    let rows = table.entries();
    rows.get(usize::from(number).saturating_sub(1))
}
