//! The run of a node's script.
ghost use Rattle.std.specs.Prelude.{◌≡◌, ◌<◌, ◌≤◌, [], length, IfOk, OnOk};
ghost use Rattle.book_base.specs.declared.address.Pair.{Pair as OnePair};
ghost use Rattle.book_cmd_node.specs.NodeRuns.{most_ends, no_ends, node_from, node_text};
ghost use Rattle.law_node.specs.Alone.{Alone};
ghost use Rattle.cmd_node.specs.Scripts.{IsScript};
ghost use Rattle.stack_ends.specs.EndsStands.{HoldsAs};

use crate::events::step;
use crate::lines::push_told;
use ao_base::Steps;
use book_base::Bytes;
use book_cmd_node::NodeScript;
use key_table::Table;
use law_node::each_is_alone;
use stack_ends::Node;
use std::alloc::{AllocError, Global};
use std::marker::Brand;
use std::sync::ledger::{Blank, Ledger};

/// How many bytes a segment has at most.
const ROOM: usize = 1500;

/// The lines of the answers to all events, and the node after them.
fn answer_all<L: Ledger>(
    alloc: Global,
    table: &Table,
    script: &NodeScript,
    node: &mut Node,
    room: &mut [u8],
    steps: &mut Steps<L>,
) -> Result<Vec<u8>, AllocError>
    requires script { IsScript script.now }
    requires empty { node.old ≡ record { most = most_ends; entries = [] } }
    requires room { 1500 ≤ length room.old }
    ensures text { IfOk result (λ out. out.items ≡ node_text table.now.rows script.now.events) }
    ensures node { OnOk result (HoldsAs table.now.rows node.new
        (node_from most_ends table.now.rows no_ends script.now.events).ends) }
{
    let mut out = Vec::new(alloc);
    let mut clock = 0;
    let events = script.events.as_slice();
    for (i, event) in events.iter().enumerate() {
        let told = step(alloc, table, node, &mut clock, event, room, steps)?;
        push_told(&mut out, i as u64 + 1, &told, room)?;
    }
    Ok(out)
}

/// The same, with a buffer for the segments, and steps that nobody counts.
fn run<L: Ledger>(
    alloc: Global,
    blank: Blank,
    table: &Table,
    script: &NodeScript,
    node: &mut Node,
) -> Result<Vec<u8>, AllocError>
    requires name { blank.name ≡ L.name }
    requires parts { blank.parts ≡ L.parts }
    requires part { 0 < blank.parts }
    requires script { IsScript script.now }
    requires empty { node.old ≡ record { most = most_ends; entries = [] } }
    ensures text { IfOk result (λ out. out.items ≡ node_text table.now.rows script.now.events) }
    ensures node { OnOk result (HoldsAs table.now.rows node.new
        (node_from most_ends table.now.rows no_ends script.now.events).ends) }
{
    let mut steps = Steps::<L>::new(blank);
    let mut room = Vec::new(alloc);
    room.resize(ROOM, 0)?;
    answer_all(alloc, table, script, node, room.as_mut_slice(), &mut steps)
}

/// Runs a script on a node that holds no end, and at most 1,024; it begins at clock 0. The answer is
/// a line for each event, its number from 1 and its answer: `ok`, `in-use`, `node-full`,
/// `no-connection`, `full`, `closed`, `no-key`, `idle`, `nothing`, an answer to an arrival or what was
/// taken as in the report of a link, or `sent FLAGS seq NUMBER ack ACK len LENGTH key KEYID next RNEXT
/// datagram HEX`. Afterwards the node holds exactly the pairs of the definitions' fold, and each end
/// stands for its state there. Nothing is said of the node after want of memory.
///
/// Each connection gives the answers that it would give alone, whatever calls of others come between:
/// for each pair none of whose own events found the node full, the answers to its events are those of
/// a run of these events by themselves.
pub fn run_node(
    alloc: Global,
    table: &Table,
    script: &NodeScript,
    node: &mut Node,
) -> Result<Bytes, AllocError>
    requires script { IsScript script.now }
    requires empty { node.old ≡ record { most = most_ends; entries = [] } }
    ensures text { IfOk result (λ text. text ≡ node_text table.now.rows script.now.events) }
    ensures node { OnOk result (HoldsAs table.now.rows node.new
        (node_from most_ends table.now.rows no_ends script.now.events).ends) }
    ensures alone { (pair : OnePair) → Alone pair table.now.rows script.now.events }
{
    each_is_alone();
    let out = run::<Brand>(alloc, Blank::new(1), table, script, node)?;
    Ok(Bytes::from_vec(out))
}
