//! What a checker answers to a datagram, and what it takes for given, over what it knows of each
//! connection.
ghost use Rattle.std.specs.Prelude.{◌≡◌, ◌≤◌, ◌^◌, ◌+◌, Bool, false, true, List, IfOk, IfSome, IsSome, OnErr, OnOk};
ghost use Rattle.std.specs.Prelude.{Some, None};
ghost use Rattle.std.specs.List.{find};
ghost use Rattle.book_segments.specs.Segments.{Read, has, SYN};
ghost use Rattle.book_segments.specs.Sockets.{same_socket};
ghost use Rattle.book_keys.specs.Rows.{Table as Sheet, has_address};
ghost use Rattle.book_cmd_check.specs.Captures.{Connection, hear_read};
ghost use Rattle.book_cmd_check.specs.Handshakes.{and_given, has_room};
ghost use Rattle.capture_check.specs.Checkers.{IsSound, StandsFor, Hears, KeepsKeys, Derives};
ghost use Rattle.capture_check.specs.Answers.{is_computed, is_pass};
ghost use Rattle.capture_check.specs.Expecting.{hear_given, known_numbers};
ghost use Rattle.capture_check.specs.Flows.{rows_of};

use crate::answer::CheckLine;
use crate::flows::Flows;
use crate::judgement::{fix, fix_given, hear_later, judge_alone};
use crate::known::KnownConnection;
use crate::segment::acknowledged_isn;
use ao_base::{Steps, is_same_socket};
use ao_check::{Passed, Refusal};
use book_base::{Pair, Socket};
use book_cmd_check::GivenIsns;
use key_table::{Table, Tables};
use segment_words::checksum_in;
use std::alloc::{AllocError, Global};
use std::collections::BTreeMap;
use std::sync::ledger::Ledger;
use tcp_segment::{Datagram, Flag};

/// The answer to a segment with SYN. It tells its own initial sequence number, and with ACK the
/// other one (RFC 5925, section 5.2), and with ACK it fixes them where it passes. After want of
/// memory nothing has changed.
fn hear_first<L: Ledger>(
    connections: &mut BTreeMap<Pair, Flows>,
    alloc: Global,
    tables: &Tables,
    table: &Table,
    time: u64,
    datagram: &Datagram<'_>,
    steps: &mut Steps<L>,
) -> Result<CheckLine, AllocError>
    requires sound { IsSound tables.now connections.old.entries }
    requires table { find (has_address datagram.now.destination.address) tables.now ≡ Some table.now }
    requires differ { same_socket datagram.now.source datagram.now.destination ≡ false }
    requires first { has SYN datagram.now ≡ true }
    ensures heard { (held : List Connection) → StandsFor connections.old.entries held
        → IfOk result (λ line. Hears connections.new.entries line
        (hear_read tables.now held time (Read datagram.now))) }
    ensures unchanged { OnErr result (connections.new.entries ≡ connections.old.entries) }
    ensures sound { IsSound tables.now connections.new.entries }
    ensures keys { KeepsKeys connections.old.entries connections.new.entries }
    ensures derives { Derives connections.old.entries connections.new.entries table.now.rows time datagram.now
        steps.old steps.new }
    ensures idle { IfOk result (λ line. is_computed line ≡ false → steps.new ≡ steps.old) }
{
    let checksum = checksum_in(datagram);
    let own = acknowledged_isn(datagram);
    let verdict = judge_alone(alloc, table, own, time, datagram, steps)?;
    if !is_pass(&verdict) {
        return Ok(CheckLine::Verdict(verdict, checksum));
    }
    if !datagram.has(Flag::Ack) {
        return Ok(CheckLine::Verdict(verdict, checksum));
    }
    match fix(connections, alloc, tables, datagram) {
        Err(error) => Err(error),
        Ok(true) => Ok(CheckLine::Verdict(verdict, checksum)),
        Ok(false) => Ok(CheckLine::Full(checksum)),
    }
}

/// The answer to a segment without SYN, judged as if the given number, at most 2^63, were expected of
/// its sender if there is one.
fn hear_next<L: Ledger>(
    connections: &mut BTreeMap<Pair, Flows>,
    alloc: Global,
    tables: &Tables,
    table: &Table,
    time: u64,
    given: Option<u64>,
    datagram: &Datagram<'_>,
    steps: &mut Steps<L>,
) -> Result<CheckLine, AllocError>
    requires sound { IsSound tables.now connections.old.entries }
    requires table { find (has_address datagram.now.destination.address) tables.now ≡ Some table.now }
    requires differ { same_socket datagram.now.source datagram.now.destination ≡ false }
    requires later { has SYN datagram.now ≡ false }
    requires given { IfSome given (λ n. n ≤ 2 ^ 63) }
    ensures heard { (held : List Connection) → StandsFor connections.old.entries held
        → IfOk result (λ line. Hears connections.new.entries line
        (hear_given tables.now held time datagram.now given)) }
    ensures unchanged { OnErr result (connections.new.entries ≡ connections.old.entries) }
    ensures sound { IsSound tables.now connections.new.entries }
    ensures keys { KeepsKeys connections.old.entries connections.new.entries }
    ensures derives { Derives connections.old.entries connections.new.entries table.now.rows time datagram.now
        steps.old steps.new }
    ensures idle { IfOk result (λ line. is_computed line ≡ false → steps.new ≡ steps.old) }
{
    let checksum = checksum_in(datagram);
    let verdict = hear_later(
        connections,
        alloc,
        tables,
        table,
        time,
        given,
        datagram,
        steps,
    )?;
    Ok(CheckLine::Verdict(verdict, checksum))
}

fn is_pass(verdict: &Result<Passed, Refusal>) -> bool
    ensures { result ≡ is_pass verdict.now }
{
    verdict.is_ok()
}

/// Takes it that a handshake with these initial sequence numbers passed; whether there was room.
pub(crate) fn hold(
    connections: &mut BTreeMap<Pair, Flows>,
    alloc: Global,
    tables: &Tables,
    given: GivenIsns,
) -> Result<bool, AllocError>
    requires sound { IsSound tables.now connections.old.entries }
    ensures stands { (held : List Connection) → StandsFor connections.old.entries held
        → OnOk result (StandsFor connections.new.entries (and_given given held)) }
    ensures room { (held : List Connection) → StandsFor connections.old.entries held
        → IfOk result (λ room. room ≡ has_room given held) }
    ensures unchanged { OnErr result (connections.new.entries ≡ connections.old.entries) }
    ensures sound { IsSound tables.now connections.new.entries }
    ensures keys { KeepsKeys connections.old.entries connections.new.entries }
{
    if is_same_socket(&given.one, &given.other) {
        return Ok(true);
    }
    match fix_given(connections, alloc, tables, given) {
        Ok(room) => Ok(room),
        Err(error) => Err(error),
    }
}

/// The answer to a datagram, as if the given number, at most 2^63, were expected of its sender if there
/// is one; none is given of a SYN. After want of memory nothing has changed.
pub(crate) fn hear_datagram<L: Ledger>(
    connections: &mut BTreeMap<Pair, Flows>,
    alloc: Global,
    tables: &Tables,
    time: u64,
    given: Option<u64>,
    datagram: &Datagram<'_>,
    steps: &mut Steps<L>,
) -> Result<CheckLine, AllocError>
    requires sound { IsSound tables.now connections.old.entries }
    requires given { IfSome given (λ n. n ≤ 2 ^ 63) }
    requires later { IsSome given → has SYN datagram.now ≡ false }
    ensures heard { (held : List Connection) → StandsFor connections.old.entries held
        → IfOk result (λ line. Hears connections.new.entries line
        (hear_given tables.now held time datagram.now given)) }
    ensures unchanged { OnErr result (connections.new.entries ≡ connections.old.entries) }
    ensures sound { IsSound tables.now connections.new.entries }
    ensures keys { KeepsKeys connections.old.entries connections.new.entries }
    ensures derives { Derives connections.old.entries connections.new.entries
        (rows_of tables.now datagram.now.destination) time datagram.now steps.old steps.new }
    ensures idle { IfOk result (λ line. is_computed line ≡ false → steps.new ≡ steps.old) }
{
    let destination = datagram.destination();
    let table = match tables.table(&destination.address) {
        None => return Ok(CheckLine::UnknownNode),
        Some(table) => table,
    };
    if is_same_socket(&datagram.source(), &destination) {
        return Ok(CheckLine::UnknownNode);
    }
    if datagram.has(Flag::Syn) {
        hear_first(connections, alloc, tables, table, time, datagram, steps)
    } else {
        hear_next(
            connections,
            alloc,
            tables,
            table,
            time,
            given,
            datagram,
            steps,
        )
    }
}

/// The numbers of the connection between two sockets; None where none is known, or the sockets are one.
pub(crate) fn known(
    connections: &BTreeMap<Pair, Flows>,
    source: Socket,
    destination: Socket,
) -> Option<KnownConnection>
    ensures known { (held : List Connection) → StandsFor connections.now.entries held
        → same_socket source destination ≡ false → result ≡ known_numbers source destination held }
    ensures one { same_socket source destination ≡ true → result ≡ None }
    ensures limit { (tables : List Sheet) → IsSound tables connections.now.entries
        → IfSome result (λ k. k.expected ≤ 2 ^ 63) }
{
    if is_same_socket(&source, &destination) {
        return None;
    }
    let low = source.is_low(destination);
    let ends = Pair::sorted(source, destination);
    let flows = connections.get(&ends)?;
    Some(flows.numbers(low))
}
