//! The events of a node.
ghost use Rattle.std.specs.Prelude.{◌≡◌, ◌≤◌, length, IfOk};
ghost use Rattle.book_keys.specs.Lifetimes.{greatest_time};
ghost use Rattle.book_base.specs.Addresses.{IsOneFamily};
ghost use Rattle.book_cmd_node.specs.NodeRuns.{NodeState, most_ends, node_step, on_pair, held_end};
ghost use Rattle.cmd_node.specs.Scripts.{IsEvent};
ghost use Rattle.book_base.specs.declared.address.Address.{Address as OneAddress};
ghost use Rattle.stack_ends.specs.Held.{FitsAll};
ghost use Rattle.cmd_node.specs.Nodes.{called_at, told_of};
ghost use Rattle.cmd_node.specs.Nodes.{IsBegun, Reaches, StandsNode};
ghost use Rattle.cmd_node.specs.Told.{length_told};

use crate::acts::act_on;
use crate::told::Told;
use ao_base::Steps;
use book_base::Pair;
use book_cmd_node::{Act, NodeEvent};
use key_table::Table;
use stack_ends::{Node, NodeArrival, NodeRefusal};
use std::alloc::{AllocError, Global};
use std::sync::ledger::Ledger;
use tcp_endpoint::Arrival;

/// What it answers that an end was taken, or wasn't.
fn begun(answer: Result<(), NodeRefusal>) -> Result<Told, AllocError>
    ensures { IfOk result (λ told. IsBegun answer told) }
{
    match answer {
        Ok(()) => Ok(Told::Done),
        Err(NodeRefusal::InUse) => Ok(Told::InUse),
        Err(NodeRefusal::Full) => Ok(Told::NodeFull),
        Err(NodeRefusal::Memory) => Err(AllocError),
    }
}

/// The end of the pair is called, where it is held.
fn call<L: Ledger>(
    alloc: Global,
    table: &Table,
    node: &mut Node,
    clock: u64,
    pair: &Pair,
    act: &Act,
    room: &mut [u8],
    steps: &mut Steps<L>,
) -> Result<Told, AllocError>
    requires fits { FitsAll table.now.rows node.old }
    requires room { 1500 ≤ length room.old }
    ensures reached { IfOk result (λ told. (n : NodeState) → StandsNode table.now.rows node.old clock n
        → Reaches table.now.rows node.new clock room.new told
        (called_at table.now.rows n pair.now act.now (held_end pair.now n.ends))) }
    ensures short { IfOk result (λ told. length_told told ≤ 1500) }
{
    match node.end_mut(pair) {
        None => Ok(Told::NoConnection),
        Some(end) => Ok(act_on(alloc, end, table, clock, act, room, steps)?),
    }
}

/// Something happens at the connection of a pair, whose addresses are of one family.
fn at_pair<L: Ledger>(
    alloc: Global,
    table: &Table,
    node: &mut Node,
    clock: u64,
    pair: &Pair,
    act: &Act,
    room: &mut [u8],
    steps: &mut Steps<L>,
) -> Result<Told, AllocError>
    requires fits { FitsAll table.now.rows node.old }
    requires room { 1500 ≤ length room.old }
    requires family { IsOneFamily pair.now.local.address pair.now.remote.address }
    ensures reached { IfOk result (λ told. (n : NodeState) → StandsNode table.now.rows node.old clock n
        → Reaches table.now.rows node.new clock room.new told
        (on_pair most_ends table.now.rows n (record { pair = pair.now; act = act.now })
        (held_end pair.now n.ends))) }
    ensures short { IfOk result (λ told. length_told told ≤ 1500) }
{
    match act {
        Act::Open(isn) => begun(node.connect(alloc, table, *pair, *isn)),
        Act::Listen(isn) => begun(node.listen(alloc, table, *pair, *isn)),
        Act::Start(isn, peer) => begun(node.start(alloc, table, *pair, *isn, *peer)),
        Act::Remove => {
            if node.remove(pair) {
                Ok(Told::Done)
            } else {
                Ok(Told::NoConnection)
            }
        }
        Act::Give(_) => call(alloc, table, node, clock, pair, act, room, steps),
        Act::Take(_) => call(alloc, table, node, clock, pair, act, room, steps),
        Act::Send => call(alloc, table, node, clock, pair, act, room, steps),
        Act::Resend => call(alloc, table, node, clock, pair, act, room, steps),
        Act::Close => call(alloc, table, node, clock, pair, act, room, steps),
        Act::Abort => call(alloc, table, node, clock, pair, act, room, steps),
    }
}

/// What it answers that a datagram came.
fn told_of(arrival: NodeArrival<'_>) -> Told
    ensures { result ≡ told_of arrival.entry }
{
    match arrival {
        NodeArrival::Bad(fault) => Told::Answered(Arrival::Bad(fault)),
        NodeArrival::NoConnection => Told::NoConnection,
        NodeArrival::At(_, arrived) => Told::Answered(arrived.arrival),
    }
}

/// An event of a node whose clock reads `clock`, and which reads it anew where the event sets it. A
/// segment that is made stands in front of `room`, which has at least 1,500 bytes.
pub(crate) fn step<L: Ledger>(
    alloc: Global,
    table: &Table,
    node: &mut Node,
    clock: &mut u64,
    event: &NodeEvent,
    room: &mut [u8],
    steps: &mut Steps<L>,
) -> Result<Told, AllocError>
    requires fits { FitsAll table.now.rows node.old }
    requires room { 1500 ≤ length room.old }
    requires time { clock.old ≤ greatest_time }
    requires event { (own : OneAddress) × IsEvent own event.now }
    ensures reached { IfOk result (λ told. (n : NodeState) → StandsNode table.now.rows node.old clock.old n
        → Reaches table.now.rows node.new clock.new room.new told (node_step most_ends table.now.rows n event.now)) }
    ensures short { IfOk result (λ told. length_told told ≤ 1500) }
{
    match event {
        NodeEvent::Clock(seconds) => {
            node.tick(*seconds);
            *clock = *seconds;
            Ok(Told::Done)
        }
        NodeEvent::Inject(bytes) => {
            let arrival = node.arrive(table, *clock, bytes.as_slice(), steps);
            Ok(told_of(arrival))
        }
        NodeEvent::On(pair, act) => at_pair(alloc, table, node, *clock, pair, act, room, steps),
    }
}
