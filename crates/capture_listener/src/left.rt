//! What is left to send with, where a row goes.
ghost use Rattle.std.specs.Prelude.{◌≡◌, ◌≤◌, ◌&&◌, ◌||◌, length, not, option_map};
ghost use Rattle.std.specs.List.{list_all};
ghost use Rattle.book_keys.specs.Plans.{same_key};
ghost use Rattle.book_keys.specs.Rows.{row_limit, sends_for};
ghost use Rattle.book_sessions.specs.Retiring.{all_left, between, contain_rest, is_partner, is_same_row};
ghost use Rattle.book_sessions.specs.Retiring.{leaves_both, leaves_peer, leaves_rows, leaves_use, sent_by, sent_to};
ghost use Rattle.capture_listener.specs.Gone.{goes_with};

use crate::evidence::Evidence;
use crate::rows_of::{between, sent_by, sent_to};
use book_base::Pair;
use book_keys::ROW_LIMIT;
use book_sessions::KeyUse;
use key_table::{Lifetime, Row, Table, Tables, first_gap, mirrored};

/// Which rows go with a row.
#[derive(Clone, Copy)]
pub(crate) enum Going {
    /// At its node those with its ids and its send lifetime.
    Twins,
    /// At its peer those that send what it takes.
    Partners,
}

// Whether these lifetimes contain each time of another from a time on.
fn contain_rest(lifetimes: &[Lifetime], from: u64, lifetime: Lifetime) -> bool
    ensures { result ≡ contain_rest lifetimes.now from lifetime }
{
    let low = lifetime.first.max(from);
    first_gap(lifetimes, low, lifetime.last).is_none()
}

// Whether the rows have the same ids and the same send lifetime.
fn is_same_row(one: &Row, other: &Row) -> bool
    ensures { result ≡ is_same_row one.now other.now }
{
    (other.send_id() == one.send_id() && other.recv_id() == one.recv_id())
        && (other.sending().first == one.sending().first
            && other.sending().last == one.sending().last)
}

fn has_key_of(one: &Row, other: &Row) -> bool
    ensures { result ≡ same_key one.now other.now }
{
    one.has_master_of(other) && (one.has_algorithm_of(other) && one.has_flag_of(other))
}

// Whether the peer's row sends what this one takes.
fn is_partner(one: &Row, other: &Row) -> bool
    ensures { result ≡ is_partner one.now other.now }
{
    other.send_id() == one.recv_id() && has_key_of(one, other)
}

fn goes_with(going: Going, one: &Row, other: &Row) -> bool
    ensures { result ≡ goes_with going one.now other.now }
{
    match going {
        Going::Twins => is_same_row(one, other),
        Going::Partners => is_partner(one, other),
    }
}

fn is_left(going: Going, one: &Row, pair: &Pair, other: &Row) -> bool
    ensures { result ≡ (sends_for pair.now other.now && not (goes_with going one.now other.now)) }
{
    other.is_sending_for(pair) && !goes_with(going, one, other)
}

fn is_lost(going: Going, one: &Row, pair: &Pair, other: &Row) -> bool
    ensures { result ≡ (sends_for pair.now other.now && goes_with going one.now other.now) }
{
    other.is_sending_for(pair) && goes_with(going, one, other)
}

fn is_replaced(
    lifetimes: &[Lifetime],
    going: Going,
    one: &Row,
    pair: &Pair,
    from: u64,
    other: &Row,
) -> bool
    ensures { result ≡ (not (sends_for pair.now other.now && goes_with going one.now other.now)
        || contain_rest lifetimes.now from other.now.sending) }
{
    !is_lost(going, one, pair, other) || contain_rest(lifetimes, from, other.sending())
}

// Whether these lifetimes contain each time from a time on at which one of the rows that go may send.
fn are_replaced(
    lifetimes: &[Lifetime],
    going: Going,
    one: &Row,
    rows: &[Row],
    pair: &Pair,
    from: u64,
) -> bool
    ensures { result ≡ list_all (λ r. not (sends_for pair.now r && goes_with going one.now r)
        || contain_rest lifetimes.now from r.sending) rows.now }
{
    for other in rows {
        if !is_replaced(lifetimes, going, one, pair, from, other) {
            return false;
        }
    }
    true
}

// Of these rows, whether those that stay send whenever one that goes may send from a time on.
fn leaves_rows(going: Going, one: &Row, rows: &[Row], pair: &Pair, from: u64) -> bool
    requires { length rows.now ≤ row_limit }
    ensures { result ≡ leaves_rows (goes_with going one.now) rows.now pair.now from }
{
    let mut lifetimes = [Lifetime { first: 0, last: 0 }; ROW_LIMIT];
    let mut count = 0;
    for row in rows {
        if is_left(going, one, pair, row) {
            lifetimes[count] = row.sending();
            count += 1;
        }
    }
    are_replaced(&lifetimes[..count], going, one, rows, pair, from)
}

fn leaves_table(going: Going, row: &Row, table: &Table, pair: &Pair, from: u64) -> bool
    ensures { result ≡ leaves_rows (goes_with going row.now) table.now.rows pair.now from }
{
    // It tells that a table has no more rows.
    let _count = table.rows();
    leaves_rows(going, row, table.entries(), pair, from)
}

// Whether the peer's table sends without the partners of the row.
fn leaves_peer(row: &Row, peer: Option<&Table>, pair: &Pair, from: u64) -> bool
    ensures { result ≡ leaves_peer row.now (option_map (λ t. t.now) peer.entry) pair.now from }
{
    match peer {
        None => true,
        Some(table) => leaves_table(Going::Partners, row, table, pair, from),
    }
}

// Whether without the row its node sends over these two sockets, and its peer without the row's partners,
// whenever they may send now, from a time on.
fn leaves_both(tables: &Tables, table: &Table, row: &Row, pair: &Pair, from: u64) -> bool
    ensures { result ≡ leaves_both tables.now table.now row.now pair.now from }
{
    leaves_table(Going::Twins, row, table, pair, from)
        && leaves_peer(
            row,
            tables.table(&pair.remote.address),
            &mirrored(pair),
            from,
        )
}

fn leaves_sender(tables: &Tables, table: &Table, row: &Row, from: u64, one: &KeyUse) -> bool
    ensures { result ≡ (not (sent_by table.now row.now one.now)
        || leaves_both tables.now table.now row.now (between one.now.source one.now.destination) from) }
{
    !sent_by(table, row, one)
        || leaves_both(
            tables,
            table,
            row,
            &between(one.source, one.destination),
            from,
        )
}

fn leaves_receiver(tables: &Tables, table: &Table, row: &Row, from: u64, one: &KeyUse) -> bool
    ensures { result ≡ (not (sent_to table.now row.now one.now)
        || leaves_both tables.now table.now row.now (between one.now.destination one.now.source) from) }
{
    !sent_to(table, row, one)
        || leaves_both(
            tables,
            table,
            row,
            &between(one.destination, one.source),
            from,
        )
}

/// Whether without the row both ends of these have another row to send with, wherever they may send now, from the
/// latest time that was seen on.
pub fn leaves_use(
    evidence: &Evidence,
    tables: &Tables,
    table: &Table,
    row: &Row,
    one: &KeyUse,
) -> bool
    ensures { result ≡ leaves_use tables.now table.now row.now evidence.now.latest one.now }
{
    let from = evidence.latest();
    leaves_sender(tables, table, row, from, one) && leaves_receiver(tables, table, row, from, one)
}

/// Whether nothing is left without a row to send with where the row goes.
pub(crate) fn all_left(evidence: &Evidence, tables: &Tables, table: &Table, row: &Row) -> bool
    ensures { result ≡ all_left evidence.now tables.now table.now row.now }
{
    for one in evidence.live() {
        if !leaves_use(evidence, tables, table, row, one) {
            return false;
        }
    }
    true
}
