//! What is told of the MAC of a segment: its length, how it is made, and what would make it right.
ghost use Rattle.std.specs.Prelude.{◌≡◌, ◌++◌, OnOk, length};
ghost use Rattle.book_segments.specs.Options.{One, find_ao};
ghost use Rattle.book_why.specs.Inquiries.{changes_lines, if_found, length_line, lengths_line, passing_values};
ghost use Rattle.book_why.specs.Inquiries.{row_taking_line, values_lines, wrong_mac_lines};
ghost use Rattle.book_why.specs.MacTexts.{mac_lines};
ghost use Rattle.book_why.specs.Sights.{ao_at, row_at, suspect_at};
ghost use Rattle.tcp_segment.specs.Views.{view_ao};
ghost use Rattle.scope_why.specs.MacsViews.{suspect_view};
ghost use Rattle.scope_why.specs.Finding.{IsWithin, numbered_of};
ghost use Rattle.scope_why.specs.Views.{inquiry_of, sight_of};

use crate::inquiry::Inquiry;
use crate::lines::{push_mac_lines, push_passing_lines};
use crate::sight::{NumberedRow, ao_at, row_at, suspect_at};
use crate::suspect::{BothTables, Suspect};
use crate::values::{push_row_taking, push_values};
use ao_base::push_decimal;
use std::alloc::{AllocError, Global};
use tcp_segment::AoOption;
use text_lines::push_newline;

fn push_length(
    out: &mut Vec<u8>,
    ao: AoOption<'_>,
    found: &NumberedRow<'_>,
) -> Result<(), AllocError>
    ensures { OnOk result (out.new.items ≡ out.old.items ++ length_line (view_ao ao.entry) (numbered_of found.now)) }
{
    out.extend_from_slice(b"mac of ")?;
    push_decimal(out, ao.mac.len() as u64)?;
    out.extend_from_slice(b" bytes, the row's has ")?;
    push_decimal(out, u64::from(found.row.algorithm().mac_length()))?;
    push_newline(out)
}

fn push_lengths(
    out: &mut Vec<u8>,
    inquiry: &Inquiry<'_>,
    ao: AoOption<'_>,
) -> Result<(), AllocError>
    ensures { OnOk result (out.new.items ≡ out.old.items ++ lengths_line (inquiry_of inquiry.now) (view_ao ao.entry)) }
{
    match row_at(inquiry) {
        None => Ok(()),
        Some(found) => push_length(out, ao, &found),
    }
}

fn push_lengths_if(out: &mut Vec<u8>, inquiry: &Inquiry<'_>) -> Result<(), AllocError>
    ensures { OnOk result (out.new.items ≡ out.old.items ++ if_found (lengths_line (inquiry_of inquiry.now))
        (ao_at (sight_of inquiry.now))) }
{
    match ao_at(inquiry) {
        None => Ok(()),
        Some(ao) => push_lengths(out, inquiry, ao),
    }
}

// The single changes under which the MAC of a segment is right.
fn push_changes(
    alloc: Global,
    out: &mut Vec<u8>,
    inquiry: &Inquiry<'_>,
    suspect: &Suspect<'_>,
) -> Result<(), AllocError>
    requires { find_ao suspect.now.datagram.now.area ≡ One (view_ao suspect.now.ao) }
    ensures { OnOk result (out.new.items ≡ out.old.items ++ changes_lines (inquiry_of inquiry.now)
        (suspect_view suspect.now)) }
{
    let both = BothTables {
        receiver: inquiry.table,
        sender: inquiry.sender,
    };
    push_passing_lines(alloc, out, &both, inquiry.others, suspect)
}

fn push_changes_if(
    alloc: Global,
    out: &mut Vec<u8>,
    inquiry: &Inquiry<'_>,
) -> Result<(), AllocError>
    requires { IsWithin inquiry.now }
    ensures { OnOk result (out.new.items ≡ out.old.items ++ if_found (changes_lines (inquiry_of inquiry.now))
        (suspect_at (sight_of inquiry.now))) }
{
    match suspect_at(inquiry) {
        None => Ok(()),
        Some(suspect) => push_changes(alloc, out, inquiry, &suspect),
    }
}

/// The MAC of a segment hasn't the length of the row's algorithm.
pub(crate) fn push_wrong_length(
    alloc: Global,
    out: &mut Vec<u8>,
    inquiry: &Inquiry<'_>,
) -> Result<(), AllocError>
    requires { IsWithin inquiry.now }
    ensures { OnOk result (out.new.items ≡ out.old.items ++ (row_taking_line (inquiry_of inquiry.now)
        ++ (if_found (lengths_line (inquiry_of inquiry.now)) (ao_at (sight_of inquiry.now))
        ++ if_found (changes_lines (inquiry_of inquiry.now)) (suspect_at (sight_of inquiry.now))))) }
{
    push_row_taking(out, inquiry)?;
    push_lengths_if(out, inquiry)?;
    push_changes_if(alloc, out, inquiry)
}

fn push_wrong_mac(
    alloc: Global,
    out: &mut Vec<u8>,
    inquiry: &Inquiry<'_>,
    suspect: &Suspect<'_>,
) -> Result<(), AllocError>
    requires { find_ao suspect.now.datagram.now.area ≡ One (view_ao suspect.now.ao) }
    ensures { OnOk result (out.new.items ≡ out.old.items ++ wrong_mac_lines (inquiry_of inquiry.now)
        (suspect_view suspect.now)) }
{
    push_mac_lines(alloc, out, inquiry.with_key, suspect)?;
    push_changes(alloc, out, inquiry, suspect)
}

fn push_wrong_mac_if(
    alloc: Global,
    out: &mut Vec<u8>,
    inquiry: &Inquiry<'_>,
) -> Result<(), AllocError>
    requires { IsWithin inquiry.now }
    ensures { OnOk result (out.new.items ≡ out.old.items ++ if_found (wrong_mac_lines (inquiry_of inquiry.now))
        (suspect_at (sight_of inquiry.now))) }
{
    match suspect_at(inquiry) {
        None => Ok(()),
        Some(suspect) => push_wrong_mac(alloc, out, inquiry, &suspect),
    }
}

/// The MAC of a segment is wrong.
pub(crate) fn push_bad_mac(
    alloc: Global,
    out: &mut Vec<u8>,
    inquiry: &Inquiry<'_>,
) -> Result<(), AllocError>
    requires { IsWithin inquiry.now }
    ensures { OnOk result
        (out.new.items ≡ out.old.items ++ (values_lines (inquiry_of inquiry.now)
        ++ if_found (wrong_mac_lines (inquiry_of inquiry.now)) (suspect_at (sight_of inquiry.now)))) }
{
    push_values(out, inquiry)?;
    push_wrong_mac_if(alloc, out, inquiry)
}

fn push_right_mac_if(
    alloc: Global,
    out: &mut Vec<u8>,
    inquiry: &Inquiry<'_>,
) -> Result<(), AllocError>
    requires { IsWithin inquiry.now }
    ensures { OnOk result (out.new.items ≡ out.old.items ++ if_found (mac_lines inquiry.now.with_key)
        (suspect_at (sight_of inquiry.now))) }
{
    match suspect_at(inquiry) {
        None => Ok(()),
        Some(suspect) => push_mac_lines(alloc, out, inquiry.with_key, &suspect),
    }
}

/// What a segment passes with.
pub(crate) fn push_passing_values(
    alloc: Global,
    out: &mut Vec<u8>,
    inquiry: &Inquiry<'_>,
) -> Result<(), AllocError>
    requires { IsWithin inquiry.now }
    ensures { OnOk result (out.new.items ≡ out.old.items ++ passing_values (inquiry_of inquiry.now)) }
{
    push_values(out, inquiry)?;
    push_right_mac_if(alloc, out, inquiry)
}
