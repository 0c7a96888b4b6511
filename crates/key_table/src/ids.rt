//! The names of a row: AdminKeyName and the two ids.
ghost use Rattle.std.specs.Prelude.{◌≡◌, codes, option_and_then};
ghost use Rattle.toml.specs.View.{table_view};
ghost use Rattle.book_keys.specs.Columns.{text_of, is_admin, id_of_text, ids_of};

use crate::columns::{must, text_at};
use ao_base::read_decimal;
use book_keys::{Column, GREATEST_KEY_ID, Ids, LONGEST_ADMIN_NAME, TableFault};
use toml::Table;

/// Whether AdminKeyName is a text of 1 to 255 bytes.
pub fn is_admin_at(table: &Table) -> bool
    ensures { result ≡ is_admin (text_of (codes "AdminKeyName") (table_view table.now)) }
{
    text_at(table, "AdminKeyName").is_some_and(|text| !text.is_empty()
        && text.len() <= LONGEST_ADMIN_NAME)
}

fn read_id(text: &str) -> Option<u8>
    ensures { result ≡ id_of_text text.now }
{
    let number = read_decimal(text.as_bytes())?;
    if number <= GREATEST_KEY_ID {
        Some(number as u8)
    } else {
        None
    }
}

/// The KeyID that the text at a key writes; `None` where it writes none, or no text stands there.
pub fn id_at(table: &Table, key: &str) -> Option<u8>
    ensures { result ≡ option_and_then id_of_text (text_of key.now (table_view table.now)) }
{
    read_id(text_at(table, key)?)
}

#[tactic(auto, unfolding(book_keys::specs::Columns::ids_of))]
pub(crate) fn ids_at(node: u8, row: u8, table: &Table) -> Result<Ids, TableFault>
    ensures { result ≡ ids_of node row (table_view table.now) }
{
    must(
        is_admin_at(table),
        TableFault::Field(node, row, Column::AdminKeyName),
    )?;
    let recv_id = id_at(table, "LocalKeyName").ok_or(TableFault::Field(
        node,
        row,
        Column::LocalKeyName,
    ))?;
    let send_id = id_at(table, "PeerKeyName").ok_or(TableFault::Field(
        node,
        row,
        Column::PeerKeyName,
    ))?;
    Ok(Ids { recv_id, send_id })
}
