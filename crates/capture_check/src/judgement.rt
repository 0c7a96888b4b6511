//! What a checker does with a segment.
ghost use Rattle.std.specs.Prelude.{◌≡◌, length, Some, IfOk, IfSome, OnErr, ◌<◌, ◌≤◌, ◌^◌};
ghost use Rattle.std.specs.List.{find};
ghost use Rattle.book_base.specs.Orders.{sorted_pair};
ghost use Rattle.book_keys.specs.Rows.{has_address};
ghost use Rattle.book_segments.specs.Sockets.{same_socket};
ghost use Rattle.std.specs.Prelude.{false};
ghost use Rattle.book_cmd_check.specs.Handshakes.{told_by};
ghost use Rattle.ao_check.specs.Verdicts.{is_judged};
ghost use Rattle.capture_check.specs.Checkers.{found, IsSound};
ghost use Rattle.capture_check.specs.Judgements.{Alone, AloneCounts, HearsLater, DoesFix, fixing, fixing_given, key_at};

use crate::flows::Flows;
use crate::segment::{acknowledged_isn, pair_at};
use ao_base::Steps;
use ao_check::{Association, Passed, Refusal};
use book_base::Pair;
use book_cmd_check::GivenIsns;
use key_table::{Table, Tables};
use std::alloc::{AllocError, Global};
use std::collections::BTreeMap;
use std::sync::ledger::Ledger;
use tcp_segment::Datagram;

/// The most connections that are held.
const MOST: usize = 65_536;

/// The verdict on a segment of which nothing is known but its destination's initial sequence number.
pub(crate) fn judge_alone<L: Ledger>(
    alloc: Global,
    table: &Table,
    own_isn: u32,
    time: u64,
    datagram: &Datagram<'_>,
    steps: &mut Steps<L>,
) -> Result<Result<Passed, Refusal>, AllocError>
    ensures alone { IfOk result (λ v. Alone table.now.rows time own_isn datagram.now v) }
    ensures counts { AloneCounts table.now.rows time datagram.now steps.old steps.new }
    ensures idle { IfOk result (λ v. is_judged v ≡ false → steps.new ≡ steps.old) }
{
    let pair = pair_at(datagram);
    let mut association = Association::new(alloc, table, pair, own_isn, table.rows())?;
    Ok(association.check(table, time, None, datagram, steps))
}

/// The verdict on a segment without SYN, by what is known of its connection, as if the given number, at
/// most 2^63, were expected of its sender if there is one; where it passes, more is expected of its
/// sender. After want of memory nothing has changed.
pub(crate) fn hear_later<L: Ledger>(
    connections: &mut BTreeMap<Pair, Flows>,
    alloc: Global,
    tables: &Tables,
    table: &Table,
    time: u64,
    given: Option<u64>,
    datagram: &Datagram<'_>,
    steps: &mut Steps<L>,
) -> Result<Result<Passed, Refusal>, AllocError>
    requires sound { IsSound tables.now connections.old.entries }
    requires table { find (has_address datagram.now.destination.address) tables.now ≡ Some table.now }
    requires differ { same_socket datagram.now.source datagram.now.destination ≡ false }
    requires given { IfSome given (λ n. n ≤ 2 ^ 63) }
    ensures heard { IfOk result (λ v. HearsLater table.now.rows time given datagram.now connections.old.entries
        connections.new.entries (found connections.old.entries (key_at datagram.now)) v steps.old steps.new) }
    ensures idle { IfOk result (λ v. is_judged v ≡ false → steps.new ≡ steps.old) }
    ensures unchanged { OnErr result (connections.new.entries ≡ connections.old.entries) }
    ensures free { OnErr result (AloneCounts table.now.rows time datagram.now steps.old steps.new) }
{
    let source = datagram.source();
    let destination = datagram.destination();
    let low = source.is_low(destination);
    match connections.get_mut(&Pair::sorted(source, destination)) {
        Some(flows) => Ok(flows.hear(low, table, time, given, datagram, steps)),
        None => judge_alone(alloc, table, 0, time, datagram, steps),
    }
}

/// Fixes both initial sequence numbers of a connection, unless they are fixed already. False exactly
/// where the connection isn't known and 65,536 others are; then, and after want of memory, nothing has
/// changed.
pub(crate) fn fix_given(
    connections: &mut BTreeMap<Pair, Flows>,
    alloc: Global,
    tables: &Tables,
    given: GivenIsns,
) -> Result<bool, AllocError>
    ensures fixed { IfOk result
        (λ b. DoesFix
        (fixing_given tables.now given (found connections.old.entries (sorted_pair given.one given.other))
        (length connections.old.entries)) connections.old.entries connections.new.entries
        (sorted_pair given.one given.other) b) }
    ensures unchanged { OnErr result (connections.new.entries ≡ connections.old.entries) }
{
    let ends = Pair::sorted(given.one, given.other);
    match connections.get(&ends) {
        Some(flows) => {
            let low = given.one.is_low(given.other);
            if flows.has_isns(low, given.one_isn, given.other_isn) {
                return Ok(true);
            }
        }
        None => {
            if connections.len() >= MOST {
                return Ok(false);
            }
        }
    }
    let flows = Flows::new(
        alloc,
        tables,
        given.one,
        given.other,
        given.one_isn,
        given.other_isn,
    )?;
    connections.insert(ends, flows)?;
    Ok(true)
}

/// The initial sequence numbers that a SYN with ACK tells: its own, and the one that it acknowledges (RFC 9293,
/// section 3.5).
pub fn isns_told_by(datagram: &Datagram<'_>) -> GivenIsns
    ensures { result ≡ told_by datagram.now }
{
    GivenIsns {
        one: datagram.source(),
        one_isn: datagram.sequence(),
        other: datagram.destination(),
        other_isn: acknowledged_isn(datagram),
    }
}

/// A SYN with ACK passed: it fixes both initial sequence numbers of its connection, unless they are
/// fixed already. False exactly where the connection isn't known and 65,536 others are; then, and
/// after want of memory, nothing has changed.
pub(crate) fn fix(
    connections: &mut BTreeMap<Pair, Flows>,
    alloc: Global,
    tables: &Tables,
    datagram: &Datagram<'_>,
) -> Result<bool, AllocError>
    ensures fixed { IfOk result
        (λ b. DoesFix (fixing tables.now datagram.now (found connections.old.entries (key_at datagram.now))
        (length connections.old.entries)) connections.old.entries connections.new.entries (key_at datagram.now) b) }
    ensures unchanged { OnErr result (connections.new.entries ≡ connections.old.entries) }
    ensures sequence { datagram.now.sequence < 2 ^ 32 }
{
    fix_given(connections, alloc, tables, isns_told_by(datagram))
}
