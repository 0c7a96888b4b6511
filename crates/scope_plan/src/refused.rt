//! What is said of a row that no row of the other end accepts.
ghost use Rattle.std.specs.Prelude.{◌≡◌, ◌++◌, ◌||◌, ◌==◌, nat_lt, not, OnOk};
ghost use Rattle.book_scope_plan.specs.DifferenceTexts.{are_told, ended_line, has_recv_id, nearest_lines};
ghost use Rattle.book_scope_plan.specs.DifferenceTexts.{nearest_text, no_id_line};
ghost use Rattle.book_scope_plan.specs.FindingTexts.{fewest, text_if};
ghost use Rattle.scope_plan.specs.Facings.{facing_of};

use crate::columns::push_sent;
use crate::differences::{fewest, push_nearest};
use crate::facing::Facing;
use key_table::Row;
use scope_texts::push_instant;
use std::alloc::AllocError;

/// Whether some of the rows has this RecvID.
fn has_recv_id(id: u8, rows: &[Row]) -> bool
    ensures { result ≡ has_recv_id id rows.now }
{
    rows.iter().any(|other| other.recv_id() == id)
}

/// That no row of the other end has the KeyID with which a row sends.
fn push_no_id(out: &mut Vec<u8>, name: &[u8], row: &Row) -> Result<(), AllocError>
    ensures { OnOk result (out.new.items ≡ out.old.items ++ no_id_line name.now row.now.send_id) }
{
    out.extend_from_slice(b"    ")?;
    out.extend_from_slice(name)?;
    out.extend_from_slice(b" has no row for KeyID ")?;
    push_sent(out, row)?;
    out.extend_from_slice(b"\n")?;
    Ok(())
}

fn push_no_id_if(out: &mut Vec<u8>, holds: bool, name: &[u8], row: &Row) -> Result<(), AllocError>
    ensures { OnOk result (out.new.items ≡ out.old.items ++ text_if holds (no_id_line name.now row.now.send_id)) }
{
    if holds {
        push_no_id(out, name, row)
    } else {
        Ok(())
    }
}

fn push_nearest_if(
    out: &mut Vec<u8>,
    holds: bool,
    facing: &Facing,
    row: &Row,
    count: u8,
) -> Result<(), AllocError>
    ensures { OnOk result (out.new.items ≡ out.old.items ++ text_if holds
        (nearest_lines (facing_of facing.now) row.now count 1 facing.now.other.now.rows)) }
{
    if holds {
        push_nearest(out, facing, row, count)
    } else {
        Ok(())
    }
}

/// In which columns the nearest rows of the other end differ.
fn push_nearest_text(out: &mut Vec<u8>, facing: &Facing, row: &Row) -> Result<(), AllocError>
    ensures { OnOk result (out.new.items ≡ out.old.items ++ nearest_text (facing_of facing.now) row.now
        (has_recv_id row.now.send_id facing.now.other.now.rows)
        (fewest facing.now.pair row.now 7 facing.now.other.now.rows)) }
{
    let rows = facing.other.entries();
    let has_id = has_recv_id(row.send_id(), rows);
    let count = fewest(&facing.pair, row, rows);
    push_no_id_if(out, !has_id, facing.other.name(), row)?;
    push_nearest_if(out, has_id || count == 1, facing, row, count)
}

/// That a row's send lifetime ended before the plan begins.
fn push_ended(out: &mut Vec<u8>, time: u64) -> Result<(), AllocError>
    ensures { OnOk result (out.new.items ≡ out.old.items ++ ended_line time) }
{
    out.extend_from_slice(b"    its send lifetime ended before FROM, at ")?;
    push_instant(out, time)?;
    out.extend_from_slice(b"\n")?;
    Ok(())
}

fn push_ended_if(out: &mut Vec<u8>, last: u64, from: u64) -> Result<(), AllocError>
    ensures { OnOk result (out.new.items ≡ out.old.items ++ text_if (nat_lt last from) (ended_line last)) }
{
    if last < from {
        push_ended(out, last)
    } else {
        Ok(())
    }
}

/// Why no row of the other end accepts what a row sends: its lifetime, and in which columns the nearest rows
/// differ.
pub(crate) fn push_reasons(out: &mut Vec<u8>, facing: &Facing, row: &Row) -> Result<(), AllocError>
    ensures { OnOk result (out.new.items ≡ out.old.items
        ++ (text_if (nat_lt row.now.sending.last facing.now.plan.from) (ended_line row.now.sending.last)
        ++ nearest_text (facing_of facing.now) row.now (has_recv_id row.now.send_id facing.now.other.now.rows)
        (fewest facing.now.pair row.now 7 facing.now.other.now.rows))) }
{
    push_ended_if(out, row.sending().last, facing.plan.from)?;
    push_nearest_text(out, facing, row)
}
