//! Two stacks at the ends of a way, and what each does at a moment.
ghost use Rattle.std.specs.Prelude.{◌≡◌, ◌≤◌, length};
ghost use Rattle.stack_timers.specs.Watches.{latest};
ghost use Rattle.book_base.specs.Addresses.{IsOneFamily};

use crate::way::{LATEST, Way};
use ao_stack::{Heard, Stack};
use book_base::{Address, Algorithm, Bytes, Pair, Socket};
use book_endpoint::Phase;
use key_table::{AddRefusal, Direction, Lifetime, NewRow, Table};
use std::alloc::{AllocError, Global};
use std::test::Fail;

const CLIENT: Address = Address::V4([10, 0, 0, 1]);

const SERVER: Address = Address::V4([10, 0, 0, 2]);

/// The connection as the client sees it.
pub(crate) fn client_pair() -> Pair
    ensures { IsOneFamily result.local.address result.remote.address }
{
    Pair {
        local: Socket {
            address: CLIENT,
            port: 1000,
        },
        remote: Socket {
            address: SERVER,
            port: 179,
        },
    }
}

/// The connection as the server sees it.
pub(crate) fn server_pair() -> Pair
    ensures { IsOneFamily result.local.address result.remote.address }
{
    Pair {
        local: Socket {
            address: SERVER,
            port: 179,
        },
        remote: Socket {
            address: CLIENT,
            port: 1000,
        },
    }
}

/// A table with one row.
fn table(alloc: Global, address: Address) -> Result<Table, AddRefusal> {
    let mut table = Table::empty(alloc, address);
    let lifetime = Lifetime {
        first: 0,
        last: 9_999_999_999,
    };
    let row = NewRow {
        recv_id: 1,
        send_id: 1,
        algorithm: Algorithm::HmacSha1,
        master: Bytes::from_vec(Vec::from_slice(alloc, b"one")?),
        with_options: true,
        direction: Direction::Both,
        sending: lifetime,
        accepting: lifetime,
    };
    table.add(alloc, row)?;
    Ok(table)
}

/// A stack for four connections.
fn stack(alloc: Global, address: Address) -> Result<Stack, Fail> {
    let table = table(alloc, address)?;
    Ok(Stack::new(alloc, table, 4)?)
}

/// The client's stack.
pub(crate) fn client(alloc: Global) -> Result<Stack, Fail> {
    let mut client = stack(alloc, CLIENT)?;
    match client.open(alloc, client_pair(), 4_294_967_290) {
        Ok(()) => Ok(client),
        Err(_) => Err(Fail::from("no connection is opened")),
    }
}

/// The server's stack.
pub(crate) fn server(alloc: Global) -> Result<Stack, Fail> {
    stack(alloc, SERVER)
}

/// The next datagram that is due.
pub(crate) fn output(stack: &mut Stack, now: u64, room: &mut [u8]) -> Option<usize>
    requires time { now ≤ latest }
    requires room { 1500 ≤ length room.old }
    ensures { length room.new ≡ length room.old }
{
    stack.output(now, room)
}

/// All that is due goes on its way.
pub(crate) fn drain(
    alloc: Global,
    stack: &mut Stack,
    now: u64,
    to_server: bool,
    way: &mut Way,
) -> Result<(), Fail>
    requires { now ≤ latest }
{
    let mut room = [0; 1500];
    for _ in 0..100 {
        match output(stack, now, &mut room) {
            None => return Ok(()),
            Some(length) => match room.get(..length) {
                None => return Err(Fail::from("a datagram of more than 1,500 bytes")),
                Some(bytes) => way.send(alloc, now, to_server, bytes)?,
            },
        }
    }
    Err(Fail::from("there is no end of datagrams"))
}

/// A datagram comes.
fn input<'a>(stack: &mut Stack, now: u64, bytes: &'a [u8]) -> Heard<'a>
    requires { now ≤ latest }
{
    stack.input(now, bytes)
}

/// A connection of the server begins, where a SYN knocks.
fn accept(alloc: Global, stack: &mut Stack) -> bool {
    let _old = stack.remove(&server_pair());
    matches!(stack.listen(alloc, server_pair(), 77), Ok(()))
}

/// A datagram comes to the server: where it knocks, a connection begins.
pub(crate) fn serve(alloc: Global, stack: &mut Stack, now: u64, bytes: &[u8]) -> Result<(), Fail>
    requires { now ≤ latest }
{
    match input(stack, now, bytes) {
        Heard::Told(_) => Ok(()),
        Heard::Moved(_) => Ok(()),
        Heard::Refused(_) => Err(Fail::from("a SYN is refused")),
        Heard::Knocks(_) => {
            if !accept(alloc, stack) {
                return Err(Fail::from("no connection listens"));
            }
            let _told = input(stack, now, bytes);
            Ok(())
        }
    }
}

/// All that has come is heard.
pub(crate) fn deliver(
    alloc: Global,
    client: &mut Stack,
    server: &mut Stack,
    now: u64,
    way: &mut Way,
) -> Result<(), Fail>
    requires { now ≤ latest }
{
    for _ in 0..1000 {
        match way.take_due(now) {
            None => return Ok(()),
            Some(one) => {
                if one.to_server {
                    serve(alloc, server, now, one.bytes.as_slice())?;
                } else {
                    let _told = input(client, now, one.bytes.as_slice());
                }
            }
        }
    }
    Err(Fail::from("there is no end of datagrams"))
}

/// The next moment at which something happens, a second later at the latest.
pub(crate) fn next_moment(client: &Stack, server: &Stack, way: &Way, now: u64) -> u64
    ensures { result ≤ latest }
{
    let mut next = way.next(now.saturating_add(1000));
    match client.next_deadline() {
        None => {}
        Some(deadline) => next = next.min(deadline),
    }
    match server.next_deadline() {
        None => {}
        Some(deadline) => next = next.min(deadline),
    }
    next.max(now).min(LATEST)
}

/// Whether the connection of the pair is closed.
pub(crate) fn is_closed(stack: &Stack, pair: &Pair) -> bool {
    match stack.front(pair) {
        None => false,
        Some(front) => matches!(front.phase, Phase::Closed),
    }
}
