//! The lines of the values by which a segment is judged.
ghost use Rattle.std.specs.Prelude.{◌≡◌, ◌++◌, ◌∷◌, [], OnOk, Some, codes, option_map};
ghost use Rattle.toml.specs.View.{table_view};
ghost use Rattle.book_lines.specs.Texts.{spaced};
ghost use Rattle.book_why.specs.Inquiries.{isns_line, number_line, number_or_hyphen, row_taking_line};
ghost use Rattle.book_why.specs.Inquiries.{values_lines};
ghost use Rattle.scope_why.specs.Finding.{IsWithin};
ghost use Rattle.scope_why.specs.Views.{inquiry_of, sight_of};

use crate::inquiry::Inquiry;
use crate::rows::push_row_line;
use crate::sight::{expected_at, isns_at, number_at, row_at};
use book_why::IsnPair;
use std::alloc::AllocError;
use text_lines::{push_field, push_newline, push_number, push_text};

fn push_isns(out: &mut Vec<u8>, isns: IsnPair) -> Result<(), AllocError>
    ensures { OnOk result (out.new.items ≡ out.old.items ++ isns_line (Some isns)) }
{
    out.extend_from_slice(b"isns")?;
    push_field(out, b"source", u64::from(isns.source_isn))?;
    push_field(out, b"destination", u64::from(isns.destination_isn))?;
    push_newline(out)
}

fn push_isns_line(out: &mut Vec<u8>, isns: Option<IsnPair>) -> Result<(), AllocError>
    ensures { OnOk result (out.new.items ≡ out.old.items ++ isns_line isns) }
{
    match isns {
        None => Ok(()),
        Some(isns) => push_isns(out, isns),
    }
}

// Puts a space and a number behind `out`, or a hyphen where there is none.
fn push_value(out: &mut Vec<u8>, number: Option<u64>) -> Result<(), AllocError>
    ensures { OnOk result (out.new.items ≡ out.old.items ++ 32 ∷ number_or_hyphen number) }
{
    match number {
        None => push_text(out, b"-"),
        Some(number) => push_number(out, number),
    }
}

fn push_number_line(out: &mut Vec<u8>, inquiry: &Inquiry<'_>) -> Result<(), AllocError>
    requires { IsWithin inquiry.now }
    ensures { OnOk result (out.new.items ≡ out.old.items ++ number_line (sight_of inquiry.now)) }
{
    out.extend_from_slice(b"number")?;
    push_value(out, number_at(inquiry))?;
    push_text(out, b"expected")?;
    push_value(out, expected_at(inquiry))?;
    push_field(out, b"length", inquiry.datagram.segment_length())?;
    push_newline(out)
}

/// Puts the line of the row that takes a segment behind `out`, if one does. Where memory runs out a part of it
/// may stand there.
pub(crate) fn push_row_taking(out: &mut Vec<u8>, inquiry: &Inquiry<'_>) -> Result<(), AllocError>
    ensures { OnOk result (out.new.items ≡ out.old.items ++ row_taking_line (inquiry_of inquiry.now)) }
{
    match row_at(inquiry) {
        None => Ok(()),
        Some(found) => push_row_line(
            out,
            inquiry.document,
            inquiry.table,
            found.number,
            found.row,
        ),
    }
}

/// Puts the lines of the initial sequence numbers, of the number and of the row behind `out`. Where memory runs
/// out a part of them may stand there.
pub(crate) fn push_values(out: &mut Vec<u8>, inquiry: &Inquiry<'_>) -> Result<(), AllocError>
    requires { IsWithin inquiry.now }
    ensures { OnOk result (out.new.items ≡ out.old.items ++ values_lines (inquiry_of inquiry.now)) }
{
    push_isns_line(out, isns_at(inquiry))?;
    push_number_line(out, inquiry)?;
    push_row_taking(out, inquiry)
}
