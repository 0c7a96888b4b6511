//! What is said of a column in which a row of the other end differs.
ghost use Rattle.std.specs.Prelude.{◌≡◌, ◌++◌, OnOk, decimal, length};
ghost use Rattle.book_base.specs.Algorithms.{name_of};
ghost use Rattle.book_segments.specs.Bytes.{same_bytes};
ghost use Rattle.book_scope_plan.specs.DifferenceTexts.{algorithms_text, direction_name, wrong_direction_text};
ghost use Rattle.book_scope_plan.specs.DifferenceTexts.{ends_in_feed, ids_end, ids_text, is_with_feed, key_text};
ghost use Rattle.book_scope_plan.specs.DifferenceTexts.{unequal_words, peers_text, port_text};

use ao_base::push_decimal;
use book_base::Address;
use key_table::{Direction, Row};
use scope_texts::push_address;
use std::alloc::AllocError;

pub(crate) fn push_sent(out: &mut Vec<u8>, row: &Row) -> Result<(), AllocError>
    ensures { OnOk result (out.new.items ≡ out.old.items ++ decimal row.now.send_id) }
{
    push_decimal(out, u64::from(row.send_id()))
}

fn push_received(out: &mut Vec<u8>, row: &Row) -> Result<(), AllocError>
    ensures { OnOk result (out.new.items ≡ out.old.items ++ decimal row.now.recv_id) }
{
    push_decimal(out, u64::from(row.recv_id()))
}

fn ids_end(exchanged: bool) -> &'static [u8]
    ensures { result.now ≡ ids_end exchanged }
{
    if exchanged {
        b": LocalKeyName and PeerKeyName are exchanged\n"
    } else {
        b"\n"
    }
}

fn push_ids_end(out: &mut Vec<u8>, exchanged: bool) -> Result<(), AllocError>
    ensures { OnOk result (out.new.items ≡ out.old.items ++ ids_end exchanged) }
{
    out.extend_from_slice(ids_end(exchanged))
}

/// The two KeyIDs, and whether they stand at the wrong ends.
pub(crate) fn push_ids(
    out: &mut Vec<u8>,
    row: &Row,
    other: &Row,
    exchanged: bool,
) -> Result<(), AllocError>
    ensures { OnOk result (out.new.items ≡ out.old.items ++ ids_text row.now other.now exchanged) }
{
    out.extend_from_slice(b"KeyID: sent ")?;
    push_sent(out, row)?;
    out.extend_from_slice(b", received ")?;
    push_received(out, other)?;
    push_ids_end(out, exchanged)?;
    Ok(())
}

/// Whether the last of the bytes is a line feed.
pub(crate) fn ends_in_feed(bytes: &[u8]) -> bool
    ensures { result ≡ ends_in_feed bytes.now }
{
    match bytes.last() {
        Some(byte) => *byte == b'\n',
        None => false,
    }
}

pub(crate) fn is_same(one: &[u8], other: &[u8]) -> bool
    ensures { result ≡ same_bytes one.now other.now }
{
    one == other
}

/// Whether the longer bytes are the shorter ones with a line feed behind them.
fn is_with_feed(longer: &[u8], shorter: &[u8]) -> bool
    ensures { result ≡ is_with_feed longer.now shorter.now }
{
    longer.len() == shorter.len() + 1
        && (ends_in_feed(longer) && is_same(&longer[..shorter.len()], shorter))
}

/// How two keys that aren't equal differ.
fn key_words(one: &[u8], other: &[u8]) -> &'static [u8]
    ensures { result.now ≡ unequal_words one.now other.now }
{
    if is_with_feed(other, one) {
        b" bytes, equal but for 0a at the end of the second\n"
    } else if is_with_feed(one, other) {
        b" bytes, equal but for 0a at the end of the first\n"
    } else {
        b" bytes, not equal\n"
    }
}

fn push_length(out: &mut Vec<u8>, bytes: &[u8]) -> Result<(), AllocError>
    ensures { OnOk result (out.new.items ≡ out.old.items ++ decimal (length bytes.now)) }
{
    push_decimal(out, bytes.len() as u64)
}

/// How many bytes the two keys have, and how they differ.
#[tactic(auto, unfolding(book_scope_plan::specs::DifferenceTexts::key_text))]
pub(crate) fn push_key(out: &mut Vec<u8>, one: &[u8], other: &[u8]) -> Result<(), AllocError>
    ensures { OnOk result (out.new.items ≡ out.old.items ++ key_text one.now other.now) }
{
    out.extend_from_slice(b"Key: ")?;
    push_length(out, one)?;
    out.extend_from_slice(b" and ")?;
    push_length(out, other)?;
    out.extend_from_slice(key_words(one, other))
}

fn push_algorithm(out: &mut Vec<u8>, row: &Row) -> Result<(), AllocError>
    ensures { OnOk result (out.new.items ≡ out.old.items ++ name_of row.now.algorithm) }
{
    out.extend_from_slice(row.algorithm().name())
}

/// The two algorithms.
pub(crate) fn push_algorithms(out: &mut Vec<u8>, row: &Row, other: &Row) -> Result<(), AllocError>
    ensures { OnOk result (out.new.items ≡ out.old.items ++ algorithms_text row.now other.now) }
{
    out.extend_from_slice(b"AlgID: ")?;
    push_algorithm(out, row)?;
    out.extend_from_slice(b" and ")?;
    push_algorithm(out, other)?;
    out.extend_from_slice(b"\n")?;
    Ok(())
}

/// A Direction as a key file writes it.
fn direction_name(direction: Direction) -> &'static [u8]
    ensures { result.now ≡ direction_name direction }
{
    match direction {
        Direction::Receive => b"in",
        Direction::Send => b"out",
        Direction::Both => b"both",
        Direction::Disabled => b"disabled",
    }
}

pub(crate) fn push_direction_name(out: &mut Vec<u8>, direction: Direction) -> Result<(), AllocError>
    ensures { OnOk result (out.new.items ≡ out.old.items ++ direction_name direction) }
{
    out.extend_from_slice(direction_name(direction))
}

/// That a row with this Direction isn't for what comes in.
pub(crate) fn push_direction(out: &mut Vec<u8>, direction: Direction) -> Result<(), AllocError>
    ensures { OnOk result (out.new.items ≡ out.old.items ++ wrong_direction_text direction) }
{
    out.extend_from_slice(b"Direction: ")?;
    push_direction_name(out, direction)?;
    out.extend_from_slice(b" isn't for what comes in\n")?;
    Ok(())
}

/// That the peers of a row don't have the address.
pub(crate) fn push_peers(out: &mut Vec<u8>, address: &Address) -> Result<(), AllocError>
    ensures { OnOk result (out.new.items ≡ out.old.items ++ peers_text address.now) }
{
    out.extend_from_slice(b"Peers: they don't have ")?;
    push_address(out, address)?;
    out.extend_from_slice(b"\n")?;
    Ok(())
}

fn push_port_number(out: &mut Vec<u8>, port: u16) -> Result<(), AllocError>
    ensures { OnOk result (out.new.items ≡ out.old.items ++ decimal port) }
{
    push_decimal(out, u64::from(port))
}

/// The port of a row, by the name of its column, and that of the connection.
pub(crate) fn push_port(
    out: &mut Vec<u8>,
    column: &[u8],
    one: u16,
    connected: u16,
) -> Result<(), AllocError>
    ensures { OnOk result (out.new.items ≡ out.old.items ++ port_text column.now one connected) }
{
    out.extend_from_slice(column)?;
    out.extend_from_slice(b": ")?;
    push_port_number(out, one)?;
    out.extend_from_slice(b", the connection has ")?;
    push_port_number(out, connected)?;
    out.extend_from_slice(b"\n")?;
    Ok(())
}
