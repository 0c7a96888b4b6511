//! The turns of a calendar as they are told.
ghost use Rattle.std.specs.Prelude.{◌≡◌, ◌++◌, option_map, IfOk, OnOk};
ghost use Rattle.book_scope_plan.specs.CalendarTexts.{id_for, is_spent, row_numbered, row_turn_text, side_of};
ghost use Rattle.book_scope_plan.specs.CalendarTexts.{spent_text, told_turns, told_with, turn_words};

use ao_base::push_decimal;
use book_base::Bytes;
use book_scope_plan::Told;
use draw_plan::Connected;
use key_plan::{Role, Turn};
use key_table::Row;
use plan_texts::row_numbered;
use std::alloc::{AllocError, Global};

/// What is said of a turn in front of the row's number; None where it follows from others.
fn turn_words(role: Role, begins: bool) -> Option<&'static [u8]>
    ensures { option_map (λ w. w.now) result ≡ turn_words role begins }
{
    match (role, begins) {
        (Role::Acceptable, true) => Some(b" accepts row "),
        (Role::Acceptable, false) => Some(b" no longer accepts row "),
        (Role::AskedFor, true) => Some(b" asks for row "),
        (Role::Sendable, true) => Some(b" may send with row "),
        (Role::Sendable, false) => Some(b" no longer sends with row "),
        _ => None,
    }
}

/// The id under which a row has a role.
fn id_for(role: Role, row: &Row) -> u8
    ensures { result ≡ id_for role row.now }
{
    match role {
        Role::Acceptable => row.recv_id(),
        Role::AskedFor => row.recv_id(),
        Role::Sendable => row.send_id(),
        Role::SentWith => row.send_id(),
    }
}

/// Whether at the time the row has ended to send, and to accept.
fn is_spent(time: u64, row: &Row) -> bool
    ensures { result ≡ is_spent time row.now }
{
    (!row.direction().sends() || row.sending().last < time)
        && (!row.direction().receives() || row.accepting().last < time)
}

fn spent_text(is_spent: bool) -> &'static [u8]
    ensures { result.now ≡ spent_text is_spent }
{
    if is_spent {
        b": it may be removed"
    } else {
        b""
    }
}

/// What is said of a row's turn behind the name of the node.
fn push_row_turn(out: &mut Vec<u8>, words: &[u8], turn: &Turn, row: &Row) -> Result<(), AllocError>
    ensures { OnOk result (out.new.items ≡ out.old.items ++ row_turn_text words.now turn.now row.now) }
{
    out.extend_from_slice(words)?;
    push_decimal(out, u64::from(turn.row))?;
    out.extend_from_slice(b" (KeyID ")?;
    push_decimal(out, u64::from(id_for(turn.role, row)))?;
    out.extend_from_slice(b")")?;
    out.extend_from_slice(spent_text(is_spent(turn.time, row)))?;
    out.push(b'\n')?;
    Ok(())
}

/// Adds the turn as it is told, where it is.
fn add_told(
    alloc: Global,
    told: &mut Vec<Told>,
    ends: &Connected,
    turn: &Turn,
) -> Result<(), AllocError>
    ensures { OnOk result (told.new.items ≡ told.old.items ++ told_with (turn_words turn.now.role turn.now.begins)
        (row_numbered (side_of turn.now.end ends.now.tables.a.now ends.now.tables.b.now).rows turn.now.row) turn.now) }
{
    let words = match turn_words(turn.role, turn.begins) {
        Some(words) => words,
        None => return Ok(()),
    };
    let row = match row_numbered(ends.table(turn.end), turn.row) {
        Some(row) => row,
        None => return Ok(()),
    };
    let mut text = Vec::new(alloc);
    push_row_turn(&mut text, words, turn, row)?;
    told.push(Told {
        time: turn.time,
        end: turn.end,
        text: Bytes::from_vec(text),
    })?;
    Ok(())
}

/// The turns of the tables of two ends as they are told.
pub(crate) fn told_turns(
    alloc: Global,
    ends: &Connected,
    turns: &[Turn],
) -> Result<Vec<Told>, AllocError>
    ensures { IfOk result (λ v. v.items ≡ told_turns ends.now.tables.a.now ends.now.tables.b.now turns.now) }
{
    let mut told = Vec::new(alloc);
    for turn in turns {
        add_told(alloc, &mut told, ends, turn)?;
    }
    Ok(told)
}
