//! What a row is called in a picture.
ghost use Rattle.std.specs.Prelude.{◌≡◌, ◌++◌, IfOk, OnOk, option_map};
ghost use Rattle.toml.specs.View.{table_view};
ghost use Rattle.page_draw_plan_svg.specs.RowNames.{named_row, written_after, written_byte, written_name};

use ao_base::push_decimal;
use plan_texts::admin_name;
use std::alloc::{AllocError, Global};
use toml::Table;

/// A byte as it is written after two others.
fn written_byte(one: u8, two: u8, byte: u8) -> u8
    ensures { result ≡ written_byte one two byte }
{
    if byte < 32 || byte == 127 {
        b'?'
    } else if one == 239 && (two == 191 && 189 < byte) {
        189
    } else {
        byte
    }
}

/// The bytes of a name as they are written.
fn push_written(out: &mut Vec<u8>, text: &[u8]) -> Result<(), AllocError>
    ensures { OnOk result (out.new.items ≡ out.old.items ++ written_after 0 0 text.now) }
{
    let mut one = 0;
    let mut two = 0;
    for byte in text {
        out.push(written_byte(one, two, *byte))?;
        one = two;
        two = *byte;
    }
    Ok(())
}

/// What the operator calls a row, where it is named.
#[tactic(auto, unfolding(page_draw_plan_svg::specs::RowNames::written_name))]
fn push_name(out: &mut Vec<u8>, name: Option<&str>) -> Result<(), AllocError>
    ensures { OnOk result (out.new.items ≡ out.old.items ++ written_name (option_map (λ s. s.now) name.entry)) }
{
    match name {
        Some(text) => {
            out.extend_from_slice(b" (")?;
            push_written(out, text.as_bytes())?;
            out.extend_from_slice(b")")
        }
        None => Ok(()),
    }
}

/// The name of a node, the number of a row, and what the document calls it.
#[tactic(auto, unfolding(page_draw_plan_svg::specs::RowNames::named_row))]
pub(crate) fn push_named_row(
    out: &mut Vec<u8>,
    document: &Table,
    name: &[u8],
    number: u8,
) -> Result<(), AllocError>
    ensures { OnOk result (out.new.items ≡ out.old.items ++ named_row (table_view document.now) name.now number) }
{
    out.extend_from_slice(name)?;
    out.extend_from_slice(b" row ")?;
    push_decimal(out, u64::from(number))?;
    push_name(out, admin_name(document, name, number))
}

/// The same as a text of its own.
pub(crate) fn named_row(
    alloc: Global,
    document: &Table,
    name: &[u8],
    number: u8,
) -> Result<Vec<u8>, AllocError>
    ensures { IfOk result (λ text. text.items ≡ named_row (table_view document.now) name.now number) }
{
    let mut text = Vec::new(alloc);
    push_named_row(&mut text, document, name, number)?;
    Ok(text)
}
