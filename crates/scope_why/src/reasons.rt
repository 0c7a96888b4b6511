//! What decided what is said of a segment.
ghost use Rattle.std.specs.Prelude.{◌≡◌, ◌++◌, ◌∷◌, OnOk, codes, decimal};
ghost use Rattle.book_why.specs.Inquiries.{if_found, lacking_lines, limit_line, no_handshake_line, node_line};
ghost use Rattle.book_why.specs.Inquiries.{options_line, passing_values, range_line, row_taking_line};
ghost use Rattle.book_why.specs.Inquiries.{values_lines};
ghost use Rattle.book_why.specs.Sights.{ao_at, number_at};
ghost use Rattle.tcp_segment.specs.Views.{view_ao};
ghost use Rattle.scope_why.specs.Finding.{IsWithin, lines_of_said, lines_of_verdict};
ghost use Rattle.scope_why.specs.Views.{inquiry_of, sight_of};

use crate::inquiry::Inquiry;
use crate::macs::{push_bad_mac, push_passing_values, push_wrong_length};
use crate::rows::push_rows_and_lacks;
use crate::sight::{ao_at, number_at};
use crate::values::{push_row_taking, push_values};
use ao_base::push_decimal;
use book_endpoint::{Passed, Refusal};
use capture_check::{CheckLine, pair_at};
use cmd_show::push_options;
use key_table::Table;
use std::alloc::{AllocError, Global};
use tcp_segment::{AoOption, Datagram};
use text_lines::{push_field, push_newline, push_text};

/// The number at which a segment ends at the latest.
const NUMBER_LIMIT: u64 = 9_223_372_036_854_775_808;

/// The most connections that are held.
const MOST_CONNECTIONS: u64 = 65_536;

fn push_options_line(out: &mut Vec<u8>, datagram: &Datagram<'_>) -> Result<(), AllocError>
    ensures { OnOk result (out.new.items ≡ out.old.items ++ options_line datagram.now) }
{
    out.extend_from_slice(b"options")?;
    push_options(out, datagram.options().iter())?;
    push_newline(out)
}

fn push_node_line(out: &mut Vec<u8>, table: &Table) -> Result<(), AllocError>
    ensures { OnOk result (out.new.items ≡ out.old.items ++ node_line table.now) }
{
    out.extend_from_slice(b"node")?;
    push_text(out, table.name())?;
    push_field(out, b"rows", u64::from(table.rows()))?;
    push_newline(out)
}

fn push_lacking(
    out: &mut Vec<u8>,
    inquiry: &Inquiry<'_>,
    key_id: u8,
    ao: AoOption<'_>,
) -> Result<(), AllocError>
    requires { key_id ≡ ao.key_id }
    ensures { OnOk result (out.new.items ≡ out.old.items ++ lacking_lines (inquiry_of inquiry.now) (view_ao ao.entry)) }
{
    push_rows_and_lacks(
        out,
        inquiry.document,
        inquiry.table,
        &pair_at(inquiry.datagram),
        key_id,
        inquiry.time,
    )
}

fn push_lacking_if(out: &mut Vec<u8>, inquiry: &Inquiry<'_>) -> Result<(), AllocError>
    ensures { OnOk result (out.new.items ≡ out.old.items ++ if_found (lacking_lines (inquiry_of inquiry.now))
        (ao_at (sight_of inquiry.now))) }
{
    match ao_at(inquiry) {
        None => Ok(()),
        Some(ao) => push_lacking(out, inquiry, ao.key_id, ao),
    }
}

// No row takes a segment.
fn push_untaken(out: &mut Vec<u8>, inquiry: &Inquiry<'_>) -> Result<(), AllocError>
    ensures { OnOk result
        (out.new.items ≡ out.old.items ++ (node_line inquiry.now.table.now
        ++ if_found (lacking_lines (inquiry_of inquiry.now)) (ao_at (sight_of inquiry.now)))) }
{
    push_node_line(out, inquiry.table)?;
    push_lacking_if(out, inquiry)
}

// The initial sequence numbers aren't known.
fn push_no_context(out: &mut Vec<u8>, inquiry: &Inquiry<'_>) -> Result<(), AllocError>
    ensures { OnOk result
        (out.new.items ≡ out.old.items ++ (row_taking_line (inquiry_of inquiry.now) ++ no_handshake_line)) }
{
    push_row_taking(out, inquiry)?;
    out.extend_from_slice(b"no handshake of these sockets passed before it\n")
}

fn push_limit(out: &mut Vec<u8>) -> Result<(), AllocError>
    ensures { OnOk result (out.new.items ≡ out.old.items ++ limit_line) }
{
    out.extend_from_slice(b"numbers end")?;
    push_field(out, b"at", NUMBER_LIMIT)?;
    push_newline(out)
}

// Why a segment is out of range.
fn push_range(out: &mut Vec<u8>, number: Option<u64>) -> Result<(), AllocError>
    ensures { OnOk result (out.new.items ≡ out.old.items ++ range_line number) }
{
    match number {
        None => out.extend_from_slice(
            b"the number is below 0: aoscope sessions --laps N tries later laps\n",
        ),
        Some(_) => push_limit(out),
    }
}

// The number of a segment is out of range.
fn push_out_of_range(out: &mut Vec<u8>, inquiry: &Inquiry<'_>) -> Result<(), AllocError>
    requires { IsWithin inquiry.now }
    ensures { OnOk result
        (out.new.items ≡ out.old.items ++ (values_lines (inquiry_of inquiry.now)
        ++ range_line (number_at (sight_of inquiry.now)))) }
{
    push_values(out, inquiry)?;
    push_range(out, number_at(inquiry))
}

fn push_verdict(
    alloc: Global,
    out: &mut Vec<u8>,
    inquiry: &Inquiry<'_>,
    verdict: &Result<Passed, Refusal>,
) -> Result<(), AllocError>
    requires { IsWithin inquiry.now }
    ensures { OnOk result (out.new.items ≡ out.old.items ++ lines_of_verdict (inquiry_of inquiry.now) verdict.now) }
{
    match verdict {
        Ok(_) => push_passing_values(alloc, out, inquiry),
        Err(Refusal::NoAo) => push_options_line(out, inquiry.datagram),
        Err(Refusal::TwoAo) => push_options_line(out, inquiry.datagram),
        Err(Refusal::WithMd5) => push_options_line(out, inquiry.datagram),
        Err(Refusal::NoTuple) => push_untaken(out, inquiry),
        Err(Refusal::Expired) => push_untaken(out, inquiry),
        Err(Refusal::MacLength) => push_wrong_length(alloc, out, inquiry),
        Err(Refusal::NoContext) => push_no_context(out, inquiry),
        Err(Refusal::Range) => push_out_of_range(out, inquiry),
        Err(Refusal::BadMac) => push_bad_mac(alloc, out, inquiry),
    }
}

// A segment passes, and no room is left for its connection.
fn push_full(alloc: Global, out: &mut Vec<u8>, inquiry: &Inquiry<'_>) -> Result<(), AllocError>
    requires { IsWithin inquiry.now }
    ensures { OnOk result
        (out.new.items ≡ out.old.items ++ (codes "connections held "
        ++ (decimal 65536 ++ (10 ∷ passing_values (inquiry_of inquiry.now))))) }
{
    out.extend_from_slice(b"connections held ")?;
    push_decimal(out, MOST_CONNECTIONS)?;
    push_newline(out)?;
    push_passing_values(alloc, out, inquiry)
}

/// Puts what decided what is said of a segment behind `out`. Where memory runs out a part of it may stand there.
pub(crate) fn push_why(
    alloc: Global,
    out: &mut Vec<u8>,
    inquiry: &Inquiry<'_>,
    line: &CheckLine,
) -> Result<(), AllocError>
    requires { IsWithin inquiry.now }
    ensures { OnOk result (out.new.items ≡ out.old.items ++ lines_of_said (inquiry_of inquiry.now) line.now) }
{
    match line {
        CheckLine::Bad(_) => Ok(()),
        CheckLine::UnknownNode => {
            out.extend_from_slice(b"source and destination are one socket\n")
        }
        CheckLine::Verdict(verdict, _) => push_verdict(alloc, out, inquiry, verdict),
        CheckLine::Full(_) => push_full(alloc, out, inquiry),
    }
}
