//! How many different peers of a row that is for any peer were seen.
ghost use Rattle.std.specs.Prelude.{◌≡◌, IfOk, None, OnOk, Some, if◌then◌else◌};
ghost use Rattle.std.specs.List.{list_any};
ghost use Rattle.book_segments.specs.Sockets.{same_address};
ghost use Rattle.book_sessions.specs.Peers.{addresses_of, is_any, peer_address, peers_seen, peers_told, with_address};
ghost use Rattle.book_sessions.specs.Retiring.{shows_peer};

use crate::evidence::Evidence;
use crate::peers::shows_peer;
use crate::rows_of::sent_by;
use ao_base::is_same_address;
use book_base::Address;
use book_sessions::KeyUse;
use key_table::{Row, Table};
use std::alloc::{AllocError, Global};

fn peer_of(table: &Table, row: &Row, one: &KeyUse) -> Address
    ensures { result ≡ peer_address table.now row.now one.now }
{
    if sent_by(table, row, one) {
        one.destination.address
    } else {
        one.source.address
    }
}

fn is_among(found: &[Address], address: &Address) -> bool
    ensures { result ≡ list_any (same_address address.now) found.now }
{
    found.iter().any(|one| is_same_address(address, one))
}

// Puts an address behind those that were found, where it isn't one of them.
fn add_address(found: &mut Vec<Address>, address: Address) -> Result<(), AllocError>
    ensures { OnOk result (found.new.items ≡ with_address address found.old.items) }
{
    if is_among(found.as_slice(), &address) {
        return Ok(());
    }
    found.push(address)?;
    Ok(())
}

// Puts the address of the peer of these behind those that were found, where they are chosen and it isn't one of them.
fn add_chosen(
    found: &mut Vec<Address>,
    chosen: bool,
    table: &Table,
    row: &Row,
    one: &KeyUse,
) -> Result<(), AllocError>
    ensures { OnOk result
        (found.new.items
        ≡ (if chosen then with_address (peer_address table.now row.now one.now) found.old.items else found.old.items)) }
{
    if chosen {
        add_address(found, peer_of(table, row, one))
    } else {
        Ok(())
    }
}

// The different addresses of the row's peers that were seen in connections that go on, and that no other followed. It
// takes a comparison for each of these uses and each address found.
fn peer_addresses(
    alloc: Global,
    evidence: &Evidence,
    table: &Table,
    row: &Row,
) -> Result<Vec<Address>, AllocError>
    ensures { IfOk result (λ v. v.items ≡ addresses_of (shows_peer evidence.now.uses table.now row.now None)
        (peer_address table.now row.now) evidence.now.live) }
{
    let mut found = Vec::new(alloc);
    let live = evidence.live();
    let mut left = live.len();
    while left > 0 {
        left -= 1;
        let one = &live[left];
        let chosen = shows_peer(evidence, table, row, &None, one);
        add_chosen(&mut found, chosen, table, row, one)?;
    }
    Ok(found)
}

fn is_any(peer: &Option<Address>) -> bool
    ensures { result ≡ is_any peer.now }
{
    peer.is_none()
}

fn is_for_any(row: &Row) -> bool
    ensures { result ≡ list_any is_any row.now.peers }
{
    row.peers().iter().any(|peer| is_any(peer))
}

/// How many different peers of a row that is for any peer were seen in connections that go on, and that no other
/// followed; none of a row that names its peers. An error for want of memory alone.
pub fn peers_told(
    alloc: Global,
    evidence: &Evidence,
    table: &Table,
    row: &Row,
) -> Result<Option<u64>, AllocError>
    ensures { IfOk result (λ told. told ≡ peers_told evidence.now table.now row.now) }
{
    if !is_for_any(row) {
        return Ok(None);
    }
    let found = peer_addresses(alloc, evidence, table, row)?;
    Ok(Some(found.len() as u64))
}
