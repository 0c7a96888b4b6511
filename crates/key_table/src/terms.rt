//! For what and when a row is used: Direction and the two lifetimes.
ghost use Rattle.std.specs.Prelude.{◌≡◌, codes, option_and_then, Some};
ghost use Rattle.toml.specs.Data.{get_member};
ghost use Rattle.toml.specs.View.{view, table_view};
ghost use Rattle.book_keys.specs.Columns.{text_of, direction_of, time_or, lifetime_of, terms_of};

use crate::columns::{is_text, member_at, text_at};
use crate::time::read_time;
use book_keys::{Column, Direction, LATEST, Lifetime, TableFault, Terms};
use toml::{Table, Value};

#[tactic(auto, unfolding(book_keys::specs::Columns::direction_of))]
fn read_direction(text: &str) -> Option<Direction>
    ensures { result ≡ direction_of text.now }
{
    if is_text(text, "in") {
        Some(Direction::Receive)
    } else if is_text(text, "out") {
        Some(Direction::Send)
    } else if is_text(text, "both") {
        Some(Direction::Both)
    } else if is_text(text, "disabled") {
        Some(Direction::Disabled)
    } else {
        None
    }
}

/// The direction that Direction names; `None` where it names none.
pub fn direction_at(table: &Table) -> Option<Direction>
    ensures { result ≡ option_and_then direction_of (text_of (codes "Direction") (table_view table.now)) }
{
    read_direction(text_at(table, "Direction")?)
}

fn time_of(value: &Value) -> Option<u64>
    ensures { result ≡ time_or 0 (Some (view value.now)) }
{
    read_time(value.as_str()?)
}

/// The time that the text at a key writes, in seconds since 1970, or what stands for an absent one; `None`
/// exactly where a value stands there that writes none.
pub fn time_at(table: &Table, key: &str, absent: u64) -> Option<u64>
    ensures { result ≡ time_or absent (get_member key.now (table_view table.now)) }
{
    match member_at(table, key) {
        Some(value) => time_of(value),
        None => Some(absent),
    }
}

#[tactic(auto, unfolding(book_keys::specs::Columns::lifetime_of))]
fn lifetime_at(
    node: u8,
    row: u8,
    start: &str,
    end: &str,
    start_column: Column,
    end_column: Column,
    table: &Table,
) -> Result<Lifetime, TableFault>
    ensures { result ≡ lifetime_of node row (record { name = start.now; column = start_column })
        (record { name = end.now; column = end_column }) (table_view table.now) }
{
    let first = time_at(table, start, 0).ok_or(TableFault::Field(node, row, start_column))?;
    let last = time_at(table, end, LATEST).ok_or(TableFault::Field(node, row, end_column))?;
    if last < first {
        return Err(TableFault::Field(node, row, end_column));
    }
    Ok(Lifetime { first, last })
}

#[tactic(auto, unfolding(book_keys::specs::Columns::terms_of))]
pub(crate) fn terms_at(node: u8, row: u8, table: &Table) -> Result<Terms, TableFault>
    ensures { result ≡ terms_of node row (table_view table.now) }
{
    let direction = direction_at(table).ok_or(TableFault::Field(node, row, Column::Direction))?;
    let sending = lifetime_at(
        node,
        row,
        "SendLifetimeStart",
        "SendLifetimeEnd",
        Column::SendLifetimeStart,
        Column::SendLifetimeEnd,
        table,
    )?;
    let accepting = lifetime_at(
        node,
        row,
        "AcceptLifetimeStart",
        "AcceptLifetimeEnd",
        Column::AcceptLifetimeStart,
        Column::AcceptLifetimeEnd,
        table,
    )?;
    Ok(Terms {
        direction,
        sending,
        accepting,
    })
}
