//! In which columns rows of the other end differ from one that accepts what a row sends.
ghost use Rattle.std.specs.Prelude.{◌≡◌, ◌==◌, ◌&&◌, ◌++◌, ◌≤◌, not, OnOk, option_map};
ghost use Rattle.toml.specs.View.{table_view};
ghost use Rattle.book_plans.specs.Differences.{differences};
ghost use Rattle.book_scope_plan.specs.DifferenceTexts.{algorithms_text, are_exchanged, connection_lines};
ghost use Rattle.book_scope_plan.specs.DifferenceTexts.{difference_head, difference_lines, wrong_direction_text};
ghost use Rattle.book_scope_plan.specs.DifferenceTexts.{has_peer, has_same_ids, ids_text, key_column_lines};
ghost use Rattle.book_scope_plan.specs.DifferenceTexts.{key_text, line_if, nearest_lines, options_words, peers_text};
ghost use Rattle.book_scope_plan.specs.DifferenceTexts.{port_line, port_text, use_column_lines};
ghost use Rattle.book_scope_plan.specs.FindingTexts.{difference_count, fewest, one_if, row_name, text_if};
ghost use Rattle.scope_plan.specs.Facings.{facing_of};

use crate::columns::{push_algorithms, push_direction, push_ids, push_key, push_peers, push_port};
use crate::facing::Facing;
use book_base::{Address, Pair};
use key_plan::{Differences, differences};
use key_table::{Direction, Row, has_peer};
use plan_texts::row_name;
use std::alloc::AllocError;

fn one_if(holds: bool) -> u8
    ensures value { result ≡ one_if holds }
    ensures bound { result ≤ 1 }
{
    if holds { 1 } else { 0 }
}

fn difference_count(d: &Differences) -> u8
    ensures { result ≡ difference_count d.now }
{
    one_if(d.connection)
        + (one_if(d.direction)
            + (one_if(d.key_id) + (one_if(d.master) + (one_if(d.algorithm) + one_if(d.options)))))
}

/// In how many columns a row of the other end differs.
fn count_of(pair: &Pair, row: &Row, other: &Row) -> u8
    ensures { result ≡ difference_count (differences pair.now row.now other.now) }
{
    difference_count(&differences(pair, row, other))
}

/// The fewest columns in which one of the other end's rows differs.
pub(crate) fn fewest(pair: &Pair, row: &Row, others: &[Row]) -> u8
    ensures { result ≡ fewest pair.now row.now 7 others.now }
{
    let mut least = 7;
    for other in others {
        least = least.min(count_of(pair, row, other));
    }
    least
}

/// A row of the other end differs in a column.
fn push_head(out: &mut Vec<u8>, name: &[u8]) -> Result<(), AllocError>
    ensures { OnOk result (out.new.items ≡ out.old.items ++ difference_head name.now) }
{
    out.extend_from_slice(b"    ")?;
    out.extend_from_slice(name)?;
    out.extend_from_slice(b" differs in ")?;
    Ok(())
}

fn push_ids_if(
    out: &mut Vec<u8>,
    holds: bool,
    name: &[u8],
    row: &Row,
    other: &Row,
    exchanged: bool,
) -> Result<(), AllocError>
    ensures { OnOk result (out.new.items ≡ out.old.items ++ line_if holds name.now
        (ids_text row.now other.now exchanged)) }
{
    if !holds {
        return Ok(());
    }
    push_head(out, name)?;
    push_ids(out, row, other, exchanged)
}

fn push_key_if(
    out: &mut Vec<u8>,
    holds: bool,
    name: &[u8],
    one: &[u8],
    other: &[u8],
) -> Result<(), AllocError>
    ensures { OnOk result (out.new.items ≡ out.old.items ++ line_if holds name.now (key_text one.now other.now)) }
{
    if !holds {
        return Ok(());
    }
    push_head(out, name)?;
    push_key(out, one, other)
}

fn push_algorithms_if(
    out: &mut Vec<u8>,
    holds: bool,
    name: &[u8],
    row: &Row,
    other: &Row,
) -> Result<(), AllocError>
    ensures { OnOk result (out.new.items ≡ out.old.items ++ line_if holds name.now
        (algorithms_text row.now other.now)) }
{
    if !holds {
        return Ok(());
    }
    push_head(out, name)?;
    push_algorithms(out, row, other)
}

/// That one of two rows leaves the TCP options out of the MAC, where one does.
#[tactic(auto, unfolding(book_scope_plan::specs::DifferenceTexts::options_words))]
fn push_options_if(out: &mut Vec<u8>, holds: bool, name: &[u8]) -> Result<(), AllocError>
    ensures { OnOk result (out.new.items ≡ out.old.items ++ line_if holds name.now options_words) }
{
    if !holds {
        return Ok(());
    }
    push_head(out, name)?;
    out.extend_from_slice(b"ProtocolSpecificInfo: one alone covers the TCP options\n")
}

fn push_direction_if(
    out: &mut Vec<u8>,
    holds: bool,
    name: &[u8],
    direction: Direction,
) -> Result<(), AllocError>
    ensures { OnOk result (out.new.items ≡ out.old.items ++ line_if holds name.now (wrong_direction_text direction)) }
{
    if !holds {
        return Ok(());
    }
    push_head(out, name)?;
    push_direction(out, direction)
}

fn push_peers_if(
    out: &mut Vec<u8>,
    holds: bool,
    name: &[u8],
    address: &Address,
) -> Result<(), AllocError>
    ensures { OnOk result (out.new.items ≡ out.old.items ++ line_if holds name.now (peers_text address.now)) }
{
    if !holds {
        return Ok(());
    }
    push_head(out, name)?;
    push_peers(out, address)
}

fn push_port_if(
    out: &mut Vec<u8>,
    name: &[u8],
    column: &[u8],
    port: Option<u16>,
    connected: u16,
) -> Result<(), AllocError>
    ensures { OnOk result (out.new.items ≡ out.old.items ++ port_line name.now column.now port connected) }
{
    match port {
        Some(one) => {
            if one == connected {
                return Ok(());
            }
            push_head(out, name)?;
            push_port(out, column, one, connected)
        }
        None => Ok(()),
    }
}

fn has_address(other: &Row, address: &Address) -> bool
    ensures { result ≡ has_peer other.now address.now }
{
    has_peer(other.peers(), address)
}

/// The lines of the columns by which a row isn't for the connection.
#[tactic(auto, unfolding(book_scope_plan::specs::DifferenceTexts::connection_lines))]
fn push_connection_lines(
    out: &mut Vec<u8>,
    name: &[u8],
    pair: &Pair,
    other: &Row,
) -> Result<(), AllocError>
    ensures { OnOk result (out.new.items ≡ out.old.items ++ connection_lines name.now pair.now other.now) }
{
    let address = &pair.local.address;
    push_peers_if(out, !has_address(other, address), name, address)?;
    let (local, peer) = (other.local_port(), other.peer_port());
    push_port_if(out, name, b"LocalPort", local, pair.remote.port)?;
    push_port_if(out, name, b"PeerPort", peer, pair.local.port)
}

fn has_same_ids(row: &Row, other: &Row) -> bool
    ensures { result ≡ has_same_ids row.now other.now }
{
    other.recv_id() == row.recv_id() && other.send_id() == row.send_id()
}

/// Whether the KeyIDs alone differ, and would not if they were exchanged at one end.
fn are_exchanged(d: &Differences, row: &Row, other: &Row) -> bool
    ensures { result ≡ are_exchanged d.now row.now other.now }
{
    difference_count(d) == 1 && has_same_ids(row, other)
}

/// The lines of the columns that make up the key.
#[tactic(auto, unfolding(book_scope_plan::specs::DifferenceTexts::key_column_lines))]
fn push_key_lines(
    out: &mut Vec<u8>,
    name: &[u8],
    row: &Row,
    other: &Row,
    d: &Differences,
) -> Result<(), AllocError>
    ensures { OnOk result (out.new.items ≡ out.old.items ++ key_column_lines name.now row.now other.now d.now) }
{
    push_ids_if(
        out,
        d.key_id,
        name,
        row,
        other,
        are_exchanged(d, row, other),
    )?;
    push_key_if(out, d.master, name, row.master(), other.master())?;
    push_algorithms_if(out, d.algorithm, name, row, other)
}

/// The lines of the columns that say what for.
#[tactic(auto, unfolding(book_scope_plan::specs::DifferenceTexts::use_column_lines))]
fn push_use_lines(
    out: &mut Vec<u8>,
    name: &[u8],
    pair: &Pair,
    other: &Row,
    d: &Differences,
) -> Result<(), AllocError>
    ensures { OnOk result (out.new.items ≡ out.old.items ++ use_column_lines name.now pair.now other.now d.now) }
{
    push_options_if(out, d.options, name)?;
    push_direction_if(out, d.direction, name, other.direction())?;
    push_connection_lines(out, name, pair, other)
}

/// The lines of the columns in which a row of the other end differs.
#[tactic(auto, unfolding(book_scope_plan::specs::DifferenceTexts::difference_lines))]
fn push_differences(
    out: &mut Vec<u8>,
    name: &[u8],
    pair: &Pair,
    row: &Row,
    other: &Row,
    d: &Differences,
) -> Result<(), AllocError>
    ensures { OnOk result (out.new.items ≡ out.old.items ++ difference_lines name.now pair.now row.now other.now
        d.now) }
{
    push_key_lines(out, name, row, other, d)?;
    push_use_lines(out, name, pair, other, d)
}

/// The lines of a row of this number, where it differs in so many columns.
fn push_near(
    out: &mut Vec<u8>,
    facing: &Facing,
    row: &Row,
    count: u8,
    number: u8,
    other: &Row,
) -> Result<(), AllocError>
    ensures { OnOk result (out.new.items ≡ out.old.items ++ text_if
        (difference_count (differences facing.now.pair row.now other.now) == count)
        (difference_lines (row_name (table_view facing.now.document.now) facing.now.other.now.name number)
        facing.now.pair row.now other.now (differences facing.now.pair row.now other.now))) }
{
    let d = differences(&facing.pair, row, other);
    if difference_count(&d) == count {
        let alloc = *out.allocator();
        let name = row_name(alloc, facing.document, facing.other.name(), number)?;
        push_differences(out, name.as_slice(), &facing.pair, row, other, &d)
    } else {
        Ok(())
    }
}

/// The lines of the rows of the other end that differ in so many columns.
pub(crate) fn push_nearest(
    out: &mut Vec<u8>,
    facing: &Facing,
    row: &Row,
    count: u8,
) -> Result<(), AllocError>
    ensures { OnOk result (out.new.items ≡ out.old.items ++ nearest_lines (facing_of facing.now) row.now count 1
        facing.now.other.now.rows) }
{
    // It tells that a table has at most 64 rows, so that each number fits.
    let _count = facing.other.rows();
    let rows = facing.other.entries();
    for (i, other) in rows.iter().enumerate() {
        push_near(out, facing, row, count, (i + 1) as u8, other)?;
    }
    Ok(())
}
