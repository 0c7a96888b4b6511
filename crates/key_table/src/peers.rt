//! The peers of a row.
ghost use Rattle.std.specs.Prelude.{◌≡◌, ◌≤◌, ℕ, length, option_map, Some, None};
ghost use Rattle.toml.specs.View.{view, items_view};
ghost use Rattle.book_keys.specs.Columns.{peer_of_text, peer_of, peer_at, peers_of};
ghost use Rattle.book_keys.specs.Reading.{ReadingGives, each};

use crate::columns::{is_text, must};
use ao_base::read_address;
use book_base::Address;
use book_keys::{Column, PEER_LIMIT, TableFault};
use std::alloc::Global;
use toml::Value;

fn read_peer(text: &str) -> Option<Option<Address>>
    ensures { result ≡ peer_of_text text.now }
{
    if is_text(text, "any") {
        return Some(None);
    }
    read_address(text.as_bytes()).map(Some)
}

/// The peer that a value writes, `Some(None)` for any; `None` where it writes none.
pub fn peer_of(value: &Value) -> Option<Option<Address>>
    ensures { result ≡ peer_of (view value.now) }
{
    read_peer(value.as_str()?)
}

fn peer_at(node: u8, row: u8, value: &Value) -> Result<Option<Address>, TableFault>
    ensures { (place : ℕ) → result ≡ peer_at node row place (view value.now) }
{
    peer_of(value).ok_or(TableFault::Field(node, row, Column::Peers))
}

fn each_peer(
    alloc: Global,
    node: u8,
    row: u8,
    values: &[Value],
) -> Result<Vec<Option<Address>>, TableFault>
    ensures { ReadingGives (λ v. v.items) result (each (peer_at node row) 1 (items_view values.now)) }
{
    let mut peers = Vec::new(alloc);
    for value in values {
        let peer = peer_at(node, row, value)?;
        peers.push(peer)?;
    }
    Ok(peers)
}

#[tactic(auto, unfolding(book_keys::specs::Columns::peers_of), using(crate::proofs::ItemLaws::count_view))]
pub(crate) fn peers_at(
    alloc: Global,
    node: u8,
    row: u8,
    value: Option<&Value>,
) -> Result<Vec<Option<Address>>, TableFault>
    ensures { ReadingGives (λ v. v.items) result (peers_of node row (option_map (λ v. view v.now) value.entry)) }
{
    let fault = TableFault::Field(node, row, Column::Peers);
    let values = value.ok_or(fault)?.as_array().ok_or(fault)?;
    must(!values.is_empty() && values.len() <= PEER_LIMIT, fault)?;
    each_peer(alloc, node, row, values.as_slice())
}
