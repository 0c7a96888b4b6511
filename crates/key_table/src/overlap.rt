//! Rows of a table that overlap.
ghost use Rattle.std.specs.Prelude.{◌≡◌, ◌≤◌, ◌+◌, drop, length, option_map, IfSome, Some};
ghost use Rattle.std.specs.List.{list_any, position_from};
ghost use Rattle.book_segments.specs.Sockets.{same_address};
ghost use Rattle.book_keys.specs.Overlaps.{peer_meets, peers_meet, ports_meet, lifetimes_meet, pairs_meet};
ghost use Rattle.book_keys.specs.Overlaps.{accepts_meet, sends_meet, overlaps, first_overlap};
ghost use Rattle.book_keys.specs.Rows.{node_limit, row_limit};
ghost use Rattle.book_keys.specs.Nodes.{overlap_in};
ghost use Rattle.key_table.specs.Pairs.{two_of};

use crate::row::Row;
use crate::table::Table;
use ao_base::is_same_address;
use book_base::Address;
use book_keys::{Lifetime, TableFault};

fn is_peer_meeting(one: &Option<Address>, other: &Option<Address>) -> bool
    ensures { result ≡ peer_meets one.now other.now }
{
    match (one, other) {
        (Some(a), Some(b)) => is_same_address(a, b),
        _ => true,
    }
}

fn is_meeting_any(one: &Option<Address>, others: &[Option<Address>]) -> bool
    ensures { result ≡ list_any (peer_meets one.now) others.now }
{
    others.iter().any(|other| is_peer_meeting(one, other))
}

fn is_peers_meeting(one: &[Option<Address>], other: &[Option<Address>]) -> bool
    ensures { result ≡ peers_meet one.now other.now }
{
    one.iter().any(|peer| is_meeting_any(peer, other))
}

fn is_ports_meeting(one: Option<u16>, other: Option<u16>) -> bool
    ensures { result ≡ ports_meet one other }
{
    match (one, other) {
        (Some(a), Some(b)) => a == b,
        _ => true,
    }
}

fn is_lifetimes_meeting(one: Lifetime, other: Lifetime) -> bool
    ensures { result ≡ lifetimes_meet one other }
{
    one.first.max(other.first) <= one.last.min(other.last)
}

fn is_pairs_meeting(one: &Row, other: &Row) -> bool
    ensures { result ≡ pairs_meet one.now other.now }
{
    is_ports_meeting(one.local_port, other.local_port)
        && is_ports_meeting(one.peer_port, other.peer_port)
        && is_peers_meeting(one.peers.as_slice(), other.peers.as_slice())
}

fn is_accepts_meeting(one: &Row, other: &Row) -> bool
    ensures { result ≡ accepts_meet one.now other.now }
{
    one.direction.receives()
        && other.direction.receives()
        && one.recv_id == other.recv_id
        && is_lifetimes_meeting(one.accepting, other.accepting)
}

fn is_sends_meeting(one: &Row, other: &Row) -> bool
    ensures { result ≡ sends_meet one.now other.now }
{
    one.direction.sends()
        && other.direction.sends()
        && one.send_id == other.send_id
        && is_lifetimes_meeting(one.sending, other.sending)
}

/// Whether for some pair at some time both rows may accept, or both may send, under one id.
#[tactic(auto, unfolding(book_keys::specs::Overlaps::overlaps))]
pub(crate) fn overlaps(one: &Row, other: &Row) -> bool
    ensures { result ≡ overlaps one.now other.now }
{
    (is_accepts_meeting(one, other) || is_sends_meeting(one, other)) && is_pairs_meeting(one, other)
}

/// The number of the first row from index `from` on that overlaps the row.
fn partner(row: &Row, rows: &[Row], from: usize) -> Option<u8>
    requires from { from ≤ length rows.now }
    requires limit { length rows.now ≤ row_limit }
    ensures { result ≡ position_from (overlaps row.now) (from + 1) (drop from rows.now) }
{
    for k in from..rows.len() {
        if overlaps(row, &rows[k]) {
            return Some((k + 1) as u8);
        }
    }
    None
}

/// The numbers of the least two rows that overlap.
#[tactic(auto, unfolding(book_keys::specs::Overlaps::first_overlap))]
fn first_overlap(rows: &[Row]) -> Option<(u8, u8)>
    requires { length rows.now ≤ row_limit }
    ensures { option_map two_of result ≡ first_overlap 1 rows.now }
{
    for (i, row) in rows.iter().enumerate() {
        if let Some(second) = partner(row, rows, i + 1) {
            return Some(((i + 1) as u8, second));
        }
    }
    None
}

/// The first overlap of the tables, those of the nodes from 1 on.
#[tactic(auto, unfolding(book_keys::specs::Nodes::overlap_in))]
pub(crate) fn overlap_in(tables: &[Table]) -> Option<TableFault>
    requires { length tables.now ≤ node_limit }
    ensures { result ≡ overlap_in 1 tables.now }
{
    for (i, table) in tables.iter().enumerate() {
        if let Some((first, second)) = first_overlap(table.rows.as_slice()) {
            return Some(TableFault::Overlap((i + 1) as u8, first, second));
        }
    }
    None
}
