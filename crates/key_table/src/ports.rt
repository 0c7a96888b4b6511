//! The ports of a row.
ghost use Rattle.std.specs.Prelude.{◌≡◌, codes, option_and_then, Some};
ghost use Rattle.toml.specs.Data.{get_member};
ghost use Rattle.toml.specs.View.{view, table_view};
ghost use Rattle.book_base.specs.Decimals.{decimal_of};
ghost use Rattle.book_keys.specs.Columns.{up_to, port_of, ports_of};

use crate::columns::member_at;
use ao_base::read_decimal;
use book_keys::{Column, Ports, TableFault};
use toml::{Table, Value};

fn read_port(text: &str) -> Option<u16>
    ensures { result ≡ up_to 65535 (option_and_then decimal_of (Some text.now)) }
{
    u16::try_from(read_decimal(text.as_bytes())?).ok()
}

fn port_of(value: &Value) -> Option<Option<u16>>
    ensures { result ≡ port_of (Some (view value.now)) }
{
    read_port(value.as_str()?).map(Some)
}

/// The port that the value at a key writes, `Some(None)` for any where none stands there; `None` where it writes
/// none.
pub fn port_at(table: &Table, key: &str) -> Option<Option<u16>>
    ensures { result ≡ port_of (get_member key.now (table_view table.now)) }
{
    match member_at(table, key) {
        Some(value) => port_of(value),
        None => Some(None),
    }
}

#[tactic(auto, unfolding(book_keys::specs::Columns::ports_of))]
pub(crate) fn ports_at(node: u8, row: u8, table: &Table) -> Result<Ports, TableFault>
    ensures { result ≡ ports_of node row (table_view table.now) }
{
    let local_port = port_at(table, "LocalPort").ok_or(TableFault::Field(
        node,
        row,
        Column::LocalPort,
    ))?;
    let peer_port = port_at(table, "PeerPort").ok_or(TableFault::Field(
        node,
        row,
        Column::PeerPort,
    ))?;
    Ok(Ports {
        local_port,
        peer_port,
    })
}
