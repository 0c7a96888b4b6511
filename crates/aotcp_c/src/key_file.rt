//! A row of a key file is told.
ghost use Rattle.std.specs.Prelude.{◌≡◌, ◌≢◌, ◌≤◌, true, IfSome, is_some, length};
ghost use Rattle.std.specs.List.{find, list_any};
ghost use Rattle.book_keys.specs.MasterKeys.{longest_master_key};
ghost use Rattle.book_keys.specs.Rows.{has_address};
ghost use Rattle.aotcp_c.specs.Codes.{bad_keys, ok};
ghost use Rattle.aotcp_c.specs.KeyFiles.{Finds, row_code};
ghost use Rattle.aotcp_c.specs.RowShapes.{IsFiled, IsFound, IsToldRow, algorithm_number, direction_number, is_any};
ghost use Rattle.aotcp_c.specs.RowShapes.{is_for_all, told_row};
ghost use Rattle.aotcp_c.specs.Shapes.{address_of};

use crate::codes::{FAMILY, FAULT, NO_NODE, NO_ROW, OK, ROOM};
use crate::faults::fault_of;
use crate::pairs::address_of;
use crate::shapes::{CAddress, CFault, CRow};
use book_base::{Address, Algorithm};
use book_keys::{Direction, LONGEST_MASTER_KEY};
use key_table::{Row, Tables, read_tables};
use std::alloc::Global;

/// The number of an algorithm.
fn algorithm_number(algorithm: Algorithm) -> u8
    ensures { result ≡ algorithm_number algorithm }
{
    match algorithm {
        Algorithm::HmacSha1 => 0,
        Algorithm::AesCmac => 1,
        Algorithm::HmacSha256 => 2,
    }
}

/// The number of a direction.
fn direction_number(direction: Direction) -> u8
    ensures { result ≡ direction_number direction }
{
    match direction {
        Direction::Receive => 0,
        Direction::Send => 1,
        Direction::Both => 2,
        Direction::Disabled => 3,
    }
}

/// Any address.
fn is_any(peer: &Option<Address>) -> bool
    ensures { result ≡ is_any peer.now }
{
    peer.is_none()
}

/// Whether any address is among them.
fn has_any(peers: &[Option<Address>]) -> bool
    ensures { result ≡ list_any is_any peers.now }
{
    peers.iter().any(|peer| is_any(peer))
}

/// Whether the row is for any peer and any ports.
fn is_for_all(row: &Row) -> bool
    ensures { result ≡ is_for_all row.now }
{
    has_any(row.peers()) && row.local_port().is_none() && row.peer_port().is_none()
}

/// A row of a table, but for its key.
fn told_row(row: &Row) -> CRow
    ensures { result ≡ told_row row.now }
{
    let sending = row.sending();
    let accepting = row.accepting();
    CRow {
        send_first: sending.first,
        send_last: sending.last,
        accept_first: accepting.first,
        accept_last: accepting.last,
        recv_id: row.recv_id(),
        send_id: row.send_id(),
        algorithm: algorithm_number(row.algorithm()),
        direction: direction_number(row.direction()),
        with_options: row.with_options(),
        for_all: is_for_all(row),
    }
}

/// A row and its key are told.
fn tell(row: &Row, told: &mut CRow, key: &mut [u8], count: &mut usize)
    requires { longest_master_key ≤ length key.old }
    ensures { IsToldRow row.now told.new count.new key.new }
{
    let master = row.master();
    key[..master.len()].copy_from_slice(master);
    *told = told_row(row);
    *count = master.len();
}

/// The row of the number of the node of the address is told.
fn find(
    tables: &Tables,
    node: &Address,
    number: u8,
    told: &mut CRow,
    key: &mut [u8],
    count: &mut usize,
) -> i32
    requires { longest_master_key ≤ length key.old }
    ensures code { result ≡ row_code (find (has_address node.now) tables.now) number }
    ensures told { result ≡ ok → IsFound tables.now node.now number told.new count.new key.new }
    ensures row { result ≢ ok → told.new ≡ told.old }
    ensures key { result ≢ ok → key.new ≡ key.old }
    ensures count { result ≢ ok → count.new ≡ count.old }
{
    match tables.table(node) {
        None => NO_NODE,
        Some(table) => {
            if number < 1 {
                return NO_ROW;
            }
            if number > table.rows() {
                return NO_ROW;
            }
            tell(table.row(number), told, key, count);
            OK
        }
    }
}

/// Row `number`, from 1, of the node of the address in a key file, and its master key in front of `key`,
/// which has 255 bytes at least.
#[unsafe(no_mangle)]
pub extern "C" fn aotcp_row(
    alloc: Global,
    text: &[u8],
    node: &CAddress,
    number: u8,
    told: &mut CRow,
    key: &mut [u8],
    count: &mut usize,
    fault: &mut CFault,
) -> i32
    ensures there { result ≡ ok → is_some (address_of node.now) ≡ true }
    ensures told { result ≡ ok → IfSome (address_of node.now)
        (λ a. IsFiled text.now a number told.new count.new key.new) }
    ensures code { Finds (length key.old) (address_of node.now) number text.now fault.new result }
    ensures fault { result ≢ bad_keys → fault.new ≡ fault.old }
    ensures row { result ≢ ok → told.new ≡ told.old }
    ensures key { result ≢ ok → key.new ≡ key.old }
    ensures count { result ≢ ok → count.new ≡ count.old }
{
    if key.len() < LONGEST_MASTER_KEY {
        return ROOM;
    }
    match address_of(node) {
        None => FAMILY,
        Some(address) => match read_tables(alloc, text) {
            Err(why) => {
                *fault = fault_of(why);
                FAULT
            }
            Ok(tables) => find(&tables, &address, number, told, key, count),
        },
    }
}
