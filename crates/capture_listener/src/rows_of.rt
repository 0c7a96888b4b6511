//! Which segments a row of a key file is for, and which want it.
ghost use Rattle.std.specs.Prelude.{◌≡◌, ◌&&◌, nat_le, not};
ghost use Rattle.std.specs.List.{list_any};
ghost use Rattle.book_sessions.specs.Retiring.{asks_for_row, between, came_under, carries_row, is_at_row, is_for};
ghost use Rattle.book_sessions.specs.Retiring.{is_id, is_outlived, is_sent_anew, is_taken_anew, may_be_sent};
ghost use Rattle.book_sessions.specs.Retiring.{may_be_taken, sent_by, sent_to, wants_row};

use ao_base::is_same_address;
use book_base::{Pair, Socket};
use book_sessions::KeyUse;
use key_table::{Lifetime, Row, Table};

fn is_id(found: Option<u8>, id: u8) -> bool
    ensures { result ≡ is_id found id }
{
    found == Some(id)
}

// What goes between the node's socket and the other one.
pub(crate) fn between(own: Socket, other: Socket) -> Pair
    ensures { result ≡ between own other }
{
    Pair {
        local: own,
        remote: other,
    }
}

// Whether the row is for what goes between the two sockets, the first of which is the node's.
fn is_for(table: &Table, row: &Row, pair: &Pair) -> bool
    ensures { result ≡ is_for table.now row.now pair.now }
{
    is_same_address(&pair.local.address, &table.address()) && row.matches(pair)
}

/// Whether the node sent these, and the row is for them.
pub(crate) fn sent_by(table: &Table, row: &Row, one: &KeyUse) -> bool
    ensures { result ≡ sent_by table.now row.now one.now }
{
    is_for(table, row, &between(one.source, one.destination))
}

/// Whether these were sent to the node, and the row is for them.
pub(crate) fn sent_to(table: &Table, row: &Row, one: &KeyUse) -> bool
    ensures { result ≡ sent_to table.now row.now one.now }
{
    is_for(table, row, &between(one.destination, one.source))
}

/// Whether the row is for these, in either direction.
pub fn is_at_row(table: &Table, row: &Row, one: &KeyUse) -> bool
    ensures { result ≡ is_at_row table.now row.now one.now }
{
    sent_by(table, row, one) || sent_to(table, row, one)
}

// Whether the lifetime ended before the first of these was seen.
fn is_outlived(lifetime: Lifetime, one: &KeyUse) -> bool
    ensures { result ≡ is_outlived lifetime one.now }
{
    lifetime.last < one.first
}

fn is_sent_on(table: &Table, pair: &Pair, found: Option<u8>, one: &KeyUse, row: &Row) -> bool
    ensures { result
        ≡ (is_for table.now row.now pair.now && (is_id found row.now.send_id
        && nat_le one.now.last row.now.sending.last)) }
{
    is_for(table, row, pair) && (is_id(found, row.send_id()) && one.last <= row.sending().last)
}

fn is_taken_on(table: &Table, pair: &Pair, found: Option<u8>, one: &KeyUse, row: &Row) -> bool
    ensures { result
        ≡ (is_for table.now row.now pair.now && (is_id found row.now.recv_id
        && nat_le one.now.last row.now.accepting.last)) }
{
    is_for(table, row, pair) && (is_id(found, row.recv_id()) && one.last <= row.accepting().last)
}

// Whether of the rows for this pair one sends with this id, and isn't over at the last of these.
fn may_be_sent(table: &Table, pair: &Pair, found: Option<u8>, one: &KeyUse) -> bool
    ensures { result ≡ may_be_sent table.now pair.now found one.now }
{
    table
        .entries()
        .iter()
        .any(|row| is_sent_on(table, pair, found, one, row))
}

// Whether of the rows for this pair one takes this id, and isn't over at the last of these.
fn may_be_taken(table: &Table, pair: &Pair, found: Option<u8>, one: &KeyUse) -> bool
    ensures { result ≡ may_be_taken table.now pair.now found one.now }
{
    table
        .entries()
        .iter()
        .any(|row| is_taken_on(table, pair, found, one, row))
}

// Whether the row is over for these, and another one may be meant by the id that it sends with.
fn is_sent_anew(table: &Table, row: &Row, pair: &Pair, found: Option<u8>, one: &KeyUse) -> bool
    ensures { result ≡ is_sent_anew table.now row.now pair.now found one.now }
{
    is_outlived(row.sending(), one) && may_be_sent(table, pair, found, one)
}

// Whether the row is over for these, and another one may be meant by the id that it takes.
fn is_taken_anew(table: &Table, row: &Row, pair: &Pair, found: Option<u8>, one: &KeyUse) -> bool
    ensures { result ≡ is_taken_anew table.now row.now pair.now found one.now }
{
    is_outlived(row.accepting(), one) && may_be_taken(table, pair, found, one)
}

// Whether these passed under the row of this number; of those that didn't pass, whether it may be the row.
fn came_under(table: &Table, number: u64, row: &Row, one: &KeyUse, found: Option<u8>) -> bool
    ensures { result ≡ came_under table.now number row.now one.now found }
{
    match found {
        None => !is_taken_anew(
            table,
            row,
            &between(one.destination, one.source),
            one.key_id,
            one,
        ),
        Some(found) => u64::from(found) == number,
    }
}

fn is_sent_with(table: &Table, row: &Row, one: &KeyUse) -> bool
    ensures { result ≡ (sent_by table.now row.now one.now && (is_id one.now.key_id row.now.send_id
        && not (is_sent_anew table.now row.now (between one.now.source one.now.destination) one.now.key_id one.now))) }
{
    let pair = between(one.source, one.destination);
    sent_by(table, row, one)
        && (is_id(one.key_id, row.send_id()) && !is_sent_anew(table, row, &pair, one.key_id, one))
}

fn is_taken_under(table: &Table, number: u64, row: &Row, one: &KeyUse) -> bool
    ensures { result
        ≡ (sent_to table.now row.now one.now && (is_id one.now.key_id row.now.recv_id
        && came_under table.now number row.now one.now one.now.row)) }
{
    sent_to(table, row, one)
        && (is_id(one.key_id, row.recv_id()) && came_under(table, number, row, one, one.row))
}

/// Whether these carry the KeyID of row number `number`: its node sent them with it, or took them under it.
pub fn carries_row(table: &Table, number: u64, row: &Row, one: &KeyUse) -> bool
    ensures { result ≡ carries_row table.now number row.now one.now }
{
    is_sent_with(table, row, one) || is_taken_under(table, number, row, one)
}

fn asks_to_be_sent(table: &Table, row: &Row, one: &KeyUse) -> bool
    ensures { result ≡ (sent_by table.now row.now one.now && (is_id one.now.asked row.now.recv_id
        && not (is_taken_anew table.now row.now (between one.now.source one.now.destination) one.now.asked one.now))) }
{
    let pair = between(one.source, one.destination);
    sent_by(table, row, one)
        && (is_id(one.asked, row.recv_id()) && !is_taken_anew(table, row, &pair, one.asked, one))
}

fn is_asked_to_send(table: &Table, row: &Row, one: &KeyUse) -> bool
    ensures { result ≡ (sent_to table.now row.now one.now && (is_id one.now.asked row.now.send_id
        && not (is_sent_anew table.now row.now (between one.now.destination one.now.source) one.now.asked one.now))) }
{
    let pair = between(one.destination, one.source);
    sent_to(table, row, one)
        && (is_id(one.asked, row.send_id()) && !is_sent_anew(table, row, &pair, one.asked, one))
}

/// Whether these ask for the row: its node asks to be sent with it, or is asked to send with it.
pub fn asks_for_row(table: &Table, row: &Row, one: &KeyUse) -> bool
    ensures { result ≡ asks_for_row table.now row.now one.now }
{
    asks_to_be_sent(table, row, one) || is_asked_to_send(table, row, one)
}

/// Whether these carry the row's KeyID, or ask for the row.
pub(crate) fn wants_row(table: &Table, number: u64, row: &Row, one: &KeyUse) -> bool
    ensures { result ≡ wants_row table.now number row.now one.now }
{
    carries_row(table, number, row, one) || asks_for_row(table, row, one)
}
