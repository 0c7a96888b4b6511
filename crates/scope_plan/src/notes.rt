//! What is noted of the rows of a plan, though nothing may be wrong with it.
ghost use Rattle.std.specs.Prelude.{◌≡◌, ◌++◌, OnOk, codes, length, nat_lt};
ghost use Rattle.toml.specs.View.{table_view};
ghost use Rattle.book_keys.specs.Rows.{matches};
ghost use Rattle.book_scope_plan.specs.DifferenceTexts.{ends_in_feed};
ghost use Rattle.book_scope_plan.specs.FindingTexts.{row_name, text_if};
ghost use Rattle.book_scope_plan.specs.Notes.{begins_accepting_after, begins_later, begins_sending_after};
ghost use Rattle.book_scope_plan.specs.Notes.{has_old_key, is_left_open, never_ends, note_if, note_line, notes_text};
ghost use Rattle.book_scope_plan.specs.Notes.{row_notes, rows_notes, side_notes};
ghost use Rattle.scope_plan.specs.Facings.{facing_of};

use crate::columns::ends_in_feed;
use crate::facing::Facing;
use crate::shift::push_shift;
use book_base::{End, Pair};
use key_table::{LATEST, Row};
use plan_texts::row_name;
use std::alloc::AllocError;

/// Whether both rows send, and the second begins to later.
fn begins_sending_after(row: &Row, other: &Row) -> bool
    ensures { result ≡ begins_sending_after row.now other.now }
{
    (row.direction().sends() && other.direction().sends())
        && row.sending().first < other.sending().first
}

/// Whether both rows accept, and the second begins to later.
fn begins_accepting_after(row: &Row, other: &Row) -> bool
    ensures { result ≡ begins_accepting_after row.now other.now }
{
    (row.direction().receives() && other.direction().receives())
        && row.accepting().first < other.accepting().first
}

fn begins_after(row: &Row, other: &Row) -> bool
    ensures { result ≡ begins_later row.now other.now }
{
    begins_sending_after(row, other) || begins_accepting_after(row, other)
}

/// Whether the row never ends to do something that a later one does too.
fn is_left_open(row: &Row, other: &Row) -> bool
    ensures { result ≡ is_left_open row.now other.now }
{
    (begins_sending_after(row, other) && LATEST <= row.sending().last)
        || (begins_accepting_after(row, other) && LATEST <= row.accepting().last)
}

fn never_ends(pair: &Pair, rows: &[Row], row: &Row) -> bool
    ensures { result ≡ never_ends pair.now rows.now row.now }
{
    rows.iter()
        .any(|other| other.matches(pair) && is_left_open(row, other))
}

/// Whether an earlier row has the Key of this one.
fn has_old_key(pair: &Pair, rows: &[Row], row: &Row) -> bool
    ensures { result ≡ has_old_key pair.now rows.now row.now }
{
    rows.iter().any(|other| other.matches(pair)
        && (begins_after(other, row) && other.has_master_of(row)))
}

/// Whether a Key has so few bytes that it is noted.
fn is_short(master: &[u8]) -> bool
    ensures { result ≡ nat_lt (length master.now) 8 }
{
    master.len() < 8
}

/// A note on a row, where it is due.
#[tactic(auto, unfolding(book_scope_plan::specs::Notes::note_line))]
fn push_note_if(out: &mut Vec<u8>, holds: bool, name: &[u8], words: &[u8]) -> Result<(), AllocError>
    ensures { OnOk result (out.new.items ≡ out.old.items ++ note_if holds name.now words.now) }
{
    if !holds {
        return Ok(());
    }
    out.extend_from_slice(b"  note: ")?;
    out.extend_from_slice(name)?;
    out.extend_from_slice(words)
}

fn push_open(
    out: &mut Vec<u8>,
    name: &[u8],
    pair: &Pair,
    rows: &[Row],
    row: &Row,
) -> Result<(), AllocError>
    ensures { OnOk result (out.new.items ≡ out.old.items ++ note_if (never_ends pair.now rows.now row.now) name.now
        (codes " never ends, though a later row is there\n")) }
{
    let is_due = never_ends(pair, rows, row);
    push_note_if(
        out,
        is_due,
        name,
        b" never ends, though a later row is there\n",
    )
}

fn push_old(
    out: &mut Vec<u8>,
    name: &[u8],
    pair: &Pair,
    rows: &[Row],
    row: &Row,
) -> Result<(), AllocError>
    ensures { OnOk result (out.new.items ≡ out.old.items ++ note_if (has_old_key pair.now rows.now row.now) name.now
        (codes " has the Key of an earlier row\n")) }
{
    let is_due = has_old_key(pair, rows, row);
    push_note_if(out, is_due, name, b" has the Key of an earlier row\n")
}

fn push_short_key(out: &mut Vec<u8>, name: &[u8], row: &Row) -> Result<(), AllocError>
    ensures { OnOk result (out.new.items ≡ out.old.items ++ note_if (nat_lt (length row.now.master) 8) name.now
        (codes " has a Key under 8 bytes\n")) }
{
    let is_due = is_short(row.master());
    push_note_if(out, is_due, name, b" has a Key under 8 bytes\n")
}

fn push_feed(out: &mut Vec<u8>, name: &[u8], row: &Row) -> Result<(), AllocError>
    ensures { OnOk result (out.new.items ≡ out.old.items ++ note_if (ends_in_feed row.now.master) name.now
        (codes " has a Key that ends in 0a, a line feed\n")) }
{
    let is_due = ends_in_feed(row.master());
    push_note_if(
        out,
        is_due,
        name,
        b" has a Key that ends in 0a, a line feed\n",
    )
}

/// The notes on the lifetime and the Key of a row.
fn push_row_notes(
    out: &mut Vec<u8>,
    name: &[u8],
    pair: &Pair,
    rows: &[Row],
    row: &Row,
) -> Result<(), AllocError>
    ensures { OnOk result (out.new.items ≡ out.old.items ++ row_notes name.now pair.now rows.now row.now) }
{
    push_open(out, name, pair, rows, row)?;
    push_old(out, name, pair, rows, row)?;
    push_short_key(out, name, row)?;
    push_feed(out, name, row)?;
    Ok(())
}

/// The notes on a row of this number, where it is for the connection.
fn push_row(
    out: &mut Vec<u8>,
    facing: &Facing,
    number: u8,
    rows: &[Row],
    row: &Row,
) -> Result<(), AllocError>
    ensures { OnOk result (out.new.items ≡ out.old.items ++ text_if (matches row.now facing.now.pair)
        (row_notes (row_name (table_view facing.now.document.now) facing.now.node.now.name number) facing.now.pair
        rows.now row.now)) }
{
    if row.matches(&facing.pair) {
        let alloc = *out.allocator();
        let name = row_name(alloc, facing.document, facing.node.name(), number)?;
        push_row_notes(out, name.as_slice(), &facing.pair, rows, row)
    } else {
        Ok(())
    }
}

/// The notes on the rows of a node that are for the connection.
fn push_rows(out: &mut Vec<u8>, facing: &Facing) -> Result<(), AllocError>
    ensures { OnOk result (out.new.items ≡ out.old.items ++ rows_notes (facing_of facing.now) 1
        facing.now.node.now.rows) }
{
    // It tells that a table has at most 64 rows, so that each number fits.
    let _count = facing.node.rows();
    let rows = facing.node.entries();
    for (i, row) in rows.iter().enumerate() {
        push_row(out, facing, (i + 1) as u8, rows, row)?;
    }
    Ok(())
}

fn push_side(out: &mut Vec<u8>, facing: &Facing) -> Result<(), AllocError>
    ensures { OnOk result (out.new.items ≡ out.old.items ++ side_notes (facing_of facing.now)) }
{
    push_rows(out, facing)?;
    push_shift(out, facing)
}

/// What is noted of both ends of a connection, which is given as end A sees it.
#[tactic(auto, unfolding(book_scope_plan::specs::Notes::notes_text))]
pub(crate) fn push_notes(out: &mut Vec<u8>, facing: &Facing) -> Result<(), AllocError>
    ensures { OnOk result (out.new.items ≡ out.old.items ++ notes_text (facing_of facing.now)) }
{
    push_side(out, facing)?;
    push_side(out, &facing.at(End::B))
}
