//! Whether each peer that a row names was seen.
ghost use Rattle.std.specs.Prelude.{◌≡◌, ◌&&◌, nat_lt, not};
ghost use Rattle.std.specs.List.{list_any};
ghost use Rattle.book_keys.specs.Rows.{names};
ghost use Rattle.book_sessions.specs.Retiring.{is_followed, is_of_peer, sees_peers, sent_by, sent_to, shows_peer};
ghost use Rattle.capture_listener.specs.Known.{HasSession};

use crate::evidence::Evidence;
use crate::following::is_followed;
use crate::rows_of::{sent_by, sent_to};
use ao_base::is_same_address;
use book_base::Address;
use book_sessions::KeyUse;
use key_table::{Row, Table};

fn is_named(peer: &Option<Address>, address: &Address) -> bool
    ensures { result ≡ names peer.now address.now }
{
    match peer {
        None => true,
        Some(one) => is_same_address(one, address),
    }
}

fn is_sent_to_peer(table: &Table, row: &Row, peer: &Option<Address>, one: &KeyUse) -> bool
    ensures { result ≡ (sent_by table.now row.now one.now && names peer.now one.now.destination.address) }
{
    sent_by(table, row, one) && is_named(peer, &one.destination.address)
}

fn is_sent_by_peer(table: &Table, row: &Row, peer: &Option<Address>, one: &KeyUse) -> bool
    ensures { result ≡ (sent_to table.now row.now one.now && names peer.now one.now.source.address) }
{
    sent_to(table, row, one) && is_named(peer, &one.source.address)
}

/// Whether these are between the node and this peer.
pub fn is_of_peer(table: &Table, row: &Row, peer: &Option<Address>, one: &KeyUse) -> bool
    ensures { result ≡ is_of_peer table.now row.now peer.now one.now }
{
    is_sent_to_peer(table, row, peer, one) || is_sent_by_peer(table, row, peer, one)
}

// Whether these moved on, and no other connection followed between their sockets.
fn is_going_on(evidence: &Evidence, one: &KeyUse) -> bool
    requires { HasSession evidence.now.uses one.now }
    ensures { result ≡ (nat_lt 0 one.now.moved && not (is_followed evidence.now.uses one.now)) }
{
    one.moved > 0 && !is_followed(evidence, one)
}

/// Whether these are between the node and this peer, and going on.
pub(crate) fn shows_peer(
    evidence: &Evidence,
    table: &Table,
    row: &Row,
    peer: &Option<Address>,
    one: &KeyUse,
) -> bool
    requires { HasSession evidence.now.uses one.now }
    ensures { result ≡ shows_peer evidence.now.uses table.now row.now peer.now one.now }
{
    is_going_on(evidence, one) && is_of_peer(table, row, peer, one)
}

/// Whether this peer was seen in a connection that goes on, and that no other followed.
pub fn sees_peer(evidence: &Evidence, table: &Table, row: &Row, peer: &Option<Address>) -> bool
    ensures { result ≡ list_any (shows_peer evidence.now.uses table.now row.now peer.now) evidence.now.live }
{
    for one in evidence.live() {
        if shows_peer(evidence, table, row, peer, one) {
            return true;
        }
    }
    false
}

/// Whether each peer that the row names was.
pub(crate) fn sees_peers(evidence: &Evidence, table: &Table, row: &Row) -> bool
    ensures { result ≡ sees_peers evidence.now.uses evidence.now.live table.now row.now }
{
    for peer in row.peers() {
        if !sees_peer(evidence, table, row, peer) {
            return false;
        }
    }
    true
}
