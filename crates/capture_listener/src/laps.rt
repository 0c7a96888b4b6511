//! A segment that is judged over laps of the sequence space.
ghost use Rattle.std.specs.Prelude.{◌≡◌, ◌≤◌, ◌^◌, false, List, IfOk, OnErr, Some};
ghost use Rattle.book_segments.specs.Segments.{has, SYN};
ghost use Rattle.book_cmd_check.specs.Captures.{Connection, connection_between};
ghost use Rattle.book_sessions.specs.Laps.{first_from, hear_over, heard_ahead, heard_by};
ghost use Rattle.capture_check.specs.Checkers.{Hears, IsSound, StandsFor};
ghost use Rattle.capture_listener.specs.Searches.{Finds};

use crate::lines::is_searched;
use ao_base::Steps;
use capture_check::{CheckLine, Connections};
use key_table::Tables;
use std::alloc::{AllocError, Global};
use std::sync::ledger::Ledger;
use tcp_segment::{Datagram, Flag};

/// The numbers of a lap of the sequence space (RFC 9293, section 3.4).
const LAP: u64 = 1 << 32;

/// The greatest number that may be expected of a sender.
const LIMIT: u64 = 1 << 63;

/// The line of a segment by the fewest laps more than expected, up to so many, by which it passes. None
/// where there are none; then, and after want of memory, the connections are those that were held.
fn search<L: Ledger>(
    connections: &mut Connections,
    alloc: Global,
    tables: &Tables,
    laps: u32,
    time: u64,
    datagram: &Datagram<'_>,
    expected: u64,
    steps: &mut Steps<L>,
) -> Result<Option<CheckLine>, AllocError>
    requires sound { IsSound tables.now connections.old }
    requires later { has SYN datagram.now ≡ false }
    requires limit { expected ≤ 2 ^ 63 }
    ensures finds { (held : List Connection) (c : Connection) → StandsFor connections.old held
        → connection_between datagram.now held ≡ Some c → c.one.expected ≡ expected
        → IfOk result (λ found. Finds connections.new held found
        (first_from (heard_ahead (heard_by (record { tables = tables.now; laps = laps }) time datagram.now) held c)
        laps 1)) }
    ensures stands { (held : List Connection) (c : Connection) → StandsFor connections.old held
        → connection_between datagram.now held ≡ Some c → OnErr result (StandsFor connections.new held) }
    ensures sound { IsSound tables.now connections.new }
{
    let mut number = expected;
    let mut ahead = 0;
    while ahead < laps {
        if LIMIT - number < LAP {
            return Ok(None);
        }
        number += LAP;
        let line = connections.hear_as(alloc, tables, time, datagram, number, steps)?;
        if line.is_pass() {
            return Ok(Some(line));
        }
        ahead += 1;
    }
    Ok(None)
}

/// What is said of a segment by the connections as they are, or where it isn't a SYN, and its MAC is
/// wrong then or its number out of range, by the fewest laps more, up to so many, by which it passes. After
/// want of memory the connections are those that were held.
pub(crate) fn hear_over<L: Ledger>(
    connections: &mut Connections,
    alloc: Global,
    tables: &Tables,
    laps: u32,
    time: u64,
    datagram: &Datagram<'_>,
    steps: &mut Steps<L>,
) -> Result<CheckLine, AllocError>
    requires sound { IsSound tables.now connections.old }
    ensures heard { (held : List Connection) → StandsFor connections.old held
        → IfOk result
        (λ line. Hears connections.new line (hear_over (record { tables = tables.now; laps = laps }) held time
        datagram.now)) }
    ensures stands { (held : List Connection) → StandsFor connections.old held
        → OnErr result (StandsFor connections.new held) }
    ensures sound { IsSound tables.now connections.new }
{
    let line = connections.hear(alloc, tables, time, datagram, steps)?;
    if datagram.has(Flag::Syn) {
        return Ok(line);
    }
    if !is_searched(&line) {
        return Ok(line);
    }
    let expected = match connections.known(datagram.source(), datagram.destination()) {
        None => return Ok(line),
        Some(known) => known.expected,
    };
    match search(
        connections,
        alloc,
        tables,
        laps,
        time,
        datagram,
        expected,
        steps,
    ) {
        Err(error) => Err(error),
        Ok(None) => Ok(line),
        Ok(Some(further)) => Ok(further),
    }
}
