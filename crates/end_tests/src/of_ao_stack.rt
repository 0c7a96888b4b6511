//! Two stacks talk over a way that loses, repeats and reorders; a SYN is lost; a SYN knocks.
ghost use Rattle.std.specs.Prelude.{◌≤◌};
ghost use Rattle.stack_timers.specs.Watches.{latest};

use crate::peers::{
    client, client_pair, deliver, drain, is_closed, next_moment, output, serve, server, server_pair,
};
use crate::way::{Way, later};
use ao_stack::{Heard, Stack};
use book_endpoint::Refusal;
use std::alloc::{AllocError, Global};
use std::test::Fail;
use tcp_endpoint::GiveAnswer;

/// When the connection begins.
const BEGIN: u64 = 1_800_000_000_000;

/// How many bytes the client sends.
const TOTAL: u64 = 12_000;

/// How far the client's bytes have come.
#[derive(Drop)]
struct Stream {
    given: u64,
    taken: u64,
    ended: bool,
}

/// The client's byte at this place.
fn byte_at(place: u64) -> u8 {
    (place % 251) as u8
}

/// So many of the client's bytes from a place on, up to their end.
fn piece(alloc: Global, from: u64, count: u64) -> Result<Vec<u8>, AllocError> {
    let mut bytes = Vec::new(alloc);
    for i in 0..count {
        let place = from.saturating_add(i);
        if place < TOTAL {
            bytes.push(byte_at(place))?;
        }
    }
    Ok(bytes)
}

/// Whether the client's stack takes a piece.
fn is_given(stack: &mut Stack, bytes: &[u8]) -> bool {
    matches!(stack.give(&client_pair(), bytes), Some(GiveAnswer::Ok))
}

/// The client gives its next bytes, or closes behind the last one.
fn give(
    alloc: Global,
    stack: &mut Stack,
    way: &mut Way,
    stream: &mut Stream,
) -> Result<(), AllocError> {
    if stream.given >= TOTAL {
        let _held = stack.close(&client_pair());
        return Ok(());
    }
    let bytes = piece(alloc, stream.given, 1 + 30 * way.roll())?;
    if is_given(stack, bytes.as_slice()) {
        stream.given = stream.given.saturating_add(bytes.len() as u64);
    }
    Ok(())
}

/// The bytes that the server's stack has ready, at most so many, and whether they were the last.
fn ready(stack: &mut Stack, room: &mut [u8]) -> (usize, bool) {
    match stack.take(&server_pair(), room) {
        None => (0, false),
        Some(taken) => (taken.count, taken.at_end),
    }
}

/// The server takes bytes, which are the client's, and closes behind the last one.
fn take(stack: &mut Stack, stream: &mut Stream) -> Result<(), Fail> {
    let mut room = [0; 700];
    let (count, at_end) = ready(stack, &mut room);
    for byte in room.as_slice().iter().copied().take(count) {
        if byte != byte_at(stream.taken) {
            return Err(Fail::from("another byte than was given"));
        }
        stream.taken = stream.taken.saturating_add(1);
    }
    if at_end {
        stream.ended = true;
        let _held = stack.close(&server_pair());
    }
    Ok(())
}

/// What happens at a moment.
fn moment(
    alloc: Global,
    client: &mut Stack,
    server: &mut Stack,
    now: u64,
    way: &mut Way,
    stream: &mut Stream,
) -> Result<(), Fail>
    requires { now ≤ latest }
{
    deliver(alloc, client, server, now, way)?;
    give(alloc, client, way, stream)?;
    take(server, stream)?;
    drain(alloc, client, now, true, way)?;
    drain(alloc, server, now, false, way)
}

/// Whether all bytes came, and both ends are closed.
fn is_over(client: &Stack, server: &Stack, stream: &Stream) -> bool {
    stream.taken == TOTAL
        && stream.ended
        && is_closed(client, &client_pair())
        && is_closed(server, &server_pair())
}

/// The client opens, sends all its bytes and closes; the server takes them and closes. How many
/// milliseconds that takes.
fn talk(alloc: Global, seed: u64) -> Result<u64, Fail> {
    let mut client = client(alloc)?;
    let mut server = server(alloc)?;
    let mut way = Way::new(alloc, seed);
    let mut stream = Stream {
        given: 0,
        taken: 0,
        ended: false,
    };
    let mut now = BEGIN;
    for _ in 0..20_000 {
        let at = later(now, 0);
        moment(alloc, &mut client, &mut server, at, &mut way, &mut stream)?;
        if is_over(&client, &server, &stream) {
            return Ok(now.saturating_sub(BEGIN));
        }
        now = next_moment(&client, &server, &way, now);
    }
    Err(Fail::from("it is not over"))
}

#[test]
fn all_bytes_come_and_time_wait_ends(rt: HostRuntime) -> Result<(), Fail> {
    for seed in 1..3 {
        assert!(rt; talk(rt.alloc(), seed)? >= 240_000);
    }
    Ok(())
}

/// Whether a datagram is due.
fn is_due(stack: &mut Stack, now: u64, room: &mut [u8; 1500]) -> bool
    requires { now ≤ latest }
{
    output(stack, now, room).is_some()
}

#[test]
fn a_lost_syn_is_sent_again(rt: HostRuntime) -> Result<(), Fail> {
    let mut client = client(rt.alloc())?;
    let mut room = [0; 1500];
    assert!(rt; is_due(&mut client, later(BEGIN, 0), &mut room));
    let first = room;
    assert!(rt; !is_due(&mut client, later(BEGIN, 999), &mut room));
    assert!(rt; client.next_deadline() == Some(BEGIN + 1000));
    assert!(rt; is_due(&mut client, later(BEGIN, 1000), &mut room));
    assert!(rt; room.as_slice() == first.as_slice());
    assert!(rt; !is_due(&mut client, later(BEGIN, 1000), &mut room));
    assert!(rt; client.next_deadline() == Some(BEGIN + 3000));
    Ok(())
}

/// The server's answer to a datagram from which a connection begins.
fn answer_to(
    alloc: Global,
    server: &mut Stack,
    now: u64,
    room: &mut [u8; 1500],
    length: usize,
) -> Result<usize, Fail>
    requires { now ≤ latest }
{
    match room.get(..length) {
        None => return Err(Fail::from("no datagram")),
        Some(bytes) => serve(alloc, server, now, bytes)?,
    }
    match output(server, now, room) {
        None => Err(Fail::from("no answer")),
        Some(length) => Ok(length),
    }
}

/// What stands in front of the buffer comes to the client.
fn hear(client: &mut Stack, now: u64, room: &[u8; 1500], length: usize)
    requires { now ≤ latest }
{
    match room.get(..length) {
        None => {}
        Some(bytes) => {
            let _heard = client.input(now, bytes);
        }
    }
}

#[test]
fn a_lost_syn_makes_three_seconds(rt: HostRuntime) -> Result<(), Fail> {
    let mut client = client(rt.alloc())?;
    let mut server = server(rt.alloc())?;
    let mut room = [0; 1500];
    for lost in [0, 1000, 3000, 7000] {
        assert!(rt; is_due(&mut client, later(BEGIN, lost), &mut room));
    }
    let now = later(BEGIN, 15_000);
    let syn = output(&mut client, now, &mut room).ok_or("no SYN")?;
    let answer = answer_to(rt.alloc(), &mut server, now, &mut room, syn)?;
    hear(&mut client, now, &room, answer);
    assert!(rt; is_given(&mut client, b"data"));
    assert!(rt; is_due(&mut client, now, &mut room));
    assert!(rt; !is_due(&mut client, now, &mut room));
    assert!(rt; client.next_deadline() == Some(BEGIN + 18_000));
    Ok(())
}

/// The segment with a window of one byte less, and its checksum right again.
fn with_less_window(room: &[u8; 1500]) -> [u8; 1500] {
    let mut altered = *room;
    altered[35] = altered[35].wrapping_sub(1);
    let sum = u16::from_be_bytes([altered[36], altered[37]]);
    let [high, low] = if sum == 0xffff {
        [0, 1]
    } else {
        sum.wrapping_add(1).to_be_bytes()
    };
    altered[36] = high;
    altered[37] = low;
    altered
}

/// Whether what stands in front of the buffer is refused for its MAC.
fn is_refused(stack: &mut Stack, room: &[u8; 1500], length: usize) -> bool {
    match room.get(..length) {
        None => false,
        Some(bytes) => matches!(
            stack.input(later(BEGIN, 0), bytes),
            Heard::Refused(Refusal::BadMac)
        ),
    }
}

/// Whether what stands in front of the buffer knocks for the server's pair.
fn is_knock(stack: &mut Stack, room: &[u8; 1500], length: usize) -> bool {
    match room.get(..length) {
        None => false,
        Some(bytes) => {
            matches!(stack.input(later(BEGIN, 0), bytes), Heard::Knocks(pair) if pair == server_pair())
        }
    }
}

#[test]
fn a_syn_knocks_until_a_connection_listens(rt: HostRuntime) -> Result<(), Fail> {
    let mut client = client(rt.alloc())?;
    let mut server = server(rt.alloc())?;
    let mut room = [0; 1500];
    let length = output(&mut client, later(BEGIN, 0), &mut room).ok_or("no SYN")?;
    let altered = with_less_window(&room);
    assert!(rt; is_refused(&mut server, &altered, length));
    assert!(rt; is_knock(&mut server, &room, length));
    assert!(rt; server.front(&server_pair()).is_none());
    assert!(rt; is_knock(&mut server, &room, length));
    assert!(rt; matches!(server.listen(rt.alloc(), server_pair(), 77), Ok(())));
    assert!(rt; !is_knock(&mut server, &room, length));
    Ok(())
}
