//! Which arrivals a log takes for forgeries.
ghost use Rattle.std.specs.Prelude.{◌≡◌, ◌+◌, ◌<◌, ◌≤◌, length, IfOk, OnOk};
ghost use Rattle.link_report.specs.Logs.{made_count};

use ao_check::Passing;
use book_base::{Address, Algorithm, Bytes, End, Socket};
use book_endpoint::Passed;
use book_macs::Context;
use key_table::{AddRefusal, Direction, Lifetime, NewRow, Row, Table};
use link_report::Log;
use std::alloc::{AllocError, Global};
use std::test::Fail;
use tcp_segment::{AoFound, read_datagram};

const SOCKET: Socket = Socket {
    address: Address::V6([0; 16]),
    port: 0,
};

const CONTEXT: Context = Context {
    source: SOCKET,
    destination: SOCKET,
    source_isn: 100,
    dest_isn: 200,
};

/// A segment over IPv6 with the sequence number 7, this acknowledgement and a MAC that begins so.
fn datagram(acknowledgement: u8, mac: u8) -> [u8; 76] {
    let mut bytes = [0; 76];
    bytes[0] = 0x60;
    bytes[5] = 36;
    bytes[6] = 6;
    bytes[47] = 7;
    bytes[51] = acknowledgement;
    bytes[52] = 0x90;
    bytes[53] = 0x10;
    bytes[60] = 29;
    bytes[61] = 16;
    bytes[64] = mac;
    bytes
}

/// Adds a row with this id and key.
fn add(alloc: Global, table: &mut Table, id: u8, master: &[u8; 3]) -> Result<u8, AddRefusal> {
    let lifetime = Lifetime { first: 0, last: 10 };
    let row = NewRow {
        recv_id: id,
        send_id: id,
        algorithm: Algorithm::HmacSha1,
        master: Bytes::from_vec(Vec::from_slice(alloc, master)?),
        with_options: true,
        direction: Direction::Both,
        sending: lifetime,
        accepting: lifetime,
    };
    table.add(alloc, row)
}

/// A table with two rows of two keys.
fn two_rows(alloc: Global) -> Result<Table, AddRefusal> {
    let mut table = Table::empty(alloc, SOCKET.address);
    add(alloc, &mut table, 1, b"one")?;
    add(alloc, &mut table, 2, b"two")?;
    Ok(table)
}

/// Keeps a segment of end a with the number 7.
fn push(alloc: Global, log: &mut Log, row: &Row, acknowledgement: u8) -> Result<u32, AllocError>
    requires { made_count log.old < 9 }
    ensures { OnOk result (made_count log.new ≡ made_count log.old + 1) }
{
    let bytes = Vec::from_slice(alloc, &datagram(acknowledgement, 3))?;
    log.reserve(alloc)?;
    Ok(log.push(End::A, 7, row, CONTEXT, Bytes::from_vec(bytes)))
}

/// A log with two such segments.
fn two_segments(alloc: Global, row: &Row) -> Result<Log, AllocError> {
    let mut log = Log::new(alloc);
    push(alloc, &mut log, row, 1)?;
    push(alloc, &mut log, row, 2)?;
    Ok(log)
}

/// The row of this number.
fn row_of(table: &Table, row: u8) -> Option<&Row> {
    if row < 1 || row > table.rows() {
        return None;
    }
    Some(table.row(row))
}

/// Whether a datagram that passed at an end under a row, with this number and the context that the
/// segments have too, is a forgery; none where the bytes are no datagram with one TCP-AO option. A name
/// is a hint alone.
fn is_forged(
    log: &Log,
    at: End,
    name: Option<u32>,
    bytes: &[u8],
    row: &Row,
    number: u64,
) -> Option<bool> {
    let datagram = match read_datagram(bytes) {
        Ok(datagram) => datagram,
        Err(_) => return None,
    };
    let options = datagram.options();
    match options.find_ao() {
        AoFound::One(option) => {
            let passed = Passed {
                row: 1,
                number,
                context: CONTEXT,
            };
            let passing = Passing { passed, option };
            Some(log.is_forged(at, name, &datagram, row, &passing))
        }
        _ => None,
    }
}

#[test]
fn only_what_the_other_end_made_is_no_forgery(rt: HostRuntime) -> Result<(), Fail> {
    let table = two_rows(rt.alloc())?;
    let first = row_of(&table, 1).ok_or("no row")?;
    let log = two_segments(rt.alloc(), first)?;
    let number = (1 << 32) + 7;
    let cases = [
        // The first of two with one number, and one with another MAC, which doesn't count.
        (End::B, None, 1, 3, 1, 7, false),
        (End::B, None, 2, 4, 1, 7, false),
        // Another field, the end that made it, another key, another lap.
        (End::B, None, 3, 3, 1, 7, true),
        (End::A, None, 1, 3, 1, 7, true),
        (End::B, None, 1, 3, 2, 7, true),
        (End::B, None, 1, 3, 1, number, true),
        // Whatever segment a name is of, or of none.
        (End::B, Some(2), 2, 4, 1, 7, false),
        (End::B, Some(1), 2, 4, 1, 7, false),
        (End::B, Some(9), 2, 4, 1, 7, false),
    ];
    for (at, name, acknowledgement, mac, row, number, forged) in cases {
        let row = row_of(&table, row).ok_or("no row")?;
        let bytes = datagram(acknowledgement, mac);
        assert!(rt; is_forged(&log, at, name, &bytes, row, number) == Some(forged));
    }
    Ok(())
}
