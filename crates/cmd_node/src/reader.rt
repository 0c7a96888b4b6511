//! A node's file, read from its first line to its last.
ghost use Rattle.std.specs.Prelude.{◌≡◌, ◌<◌, ◌↔◌, length, IfOk, IsErrOf};
ghost use Rattle.book_base.specs.Lines.{lines_of};
ghost use Rattle.book_lines.specs.Lines.{most_lines};
ghost use Rattle.book_lines.specs.Said.{at_number};
ghost use Rattle.text_lines.specs.Readings.{Answers};
ghost use Rattle.book_cmd_node.specs.NodeRuns.{node_event_of, node_events_of, node_script_of};
ghost use Rattle.cmd_node.specs.Scripts.{IsScript};

use crate::head::{address_line, title_line};
use crate::line_events::read_event;
use book_base::Address;
use book_cmd_node::{NodeEvent, NodeEvents, NodeScript};
use book_lines::TextFault;
use std::alloc::Global;
use text_lines::{Saying, SayingLines, count_lines};

/// The event of a line.
fn event_line(alloc: Global, own: &Address, mut line: Saying) -> Result<NodeEvent, TextFault>
    ensures { Answers result (at_number line.entry.number (node_event_of own.now line.entry.words)) }
{
    read_event(alloc, own, &mut line.words).map_err(|refusal| refusal.at(line.number))
}

/// The events of the lines that are left.
fn events(alloc: Global, own: &Address, lines: &mut SayingLines) -> Result<NodeEvents, TextFault>
    ensures { Answers result (node_events_of own.now lines.old) }
{
    let mut events = Vec::new(alloc);
    while let Some(line) = lines.next() {
        let event = event_line(alloc, own, line)?;
        events.push(event)?;
    }
    Ok(NodeEvents::from_vec(events))
}

#[tactic(auto, unfolding(book_cmd_node::specs::NodeRuns::node_script_of, book_cmd_node::specs::NodeRuns::node_script_in))]
fn read(alloc: Global, text: &[u8]) -> Result<NodeScript, TextFault>
    ensures { Answers result (node_script_of text.now) }
{
    let missing = count_lines(text)? + 1;
    let mut lines = SayingLines::new(text);
    title_line(&mut lines, missing)?;
    let address = address_line(&mut lines, missing)?;
    let events = events(alloc, &address, &mut lines)?;
    Ok(NodeScript { address, events })
}

/// The script of a node's file.
///
/// `Ok` exactly where the text is in the grammar. `TooManyLines` exactly where it has more than
/// 20,000 lines; else `Line` is the first faulty line, counted from 1 among all lines, with the kind
/// of its first faulty word: `Header` for the two lines of the head, `Word` where a word isn't one
/// that is expected there or is missing or surplus, `Number` where it isn't a decimal below 2^64 or
/// an address, `Hex` where it isn't hexadecimal, and `Range` where a number or a length is out of its
/// range, or the other end's address is the node's or of the other family. A line of the head that is
/// missing has the number after all lines. `Memory` only for want of memory.
pub fn read_node(alloc: Global, text: &[u8]) -> Result<NodeScript, TextFault>
    ensures read { Answers result (node_script_of text.now) }
    ensures grammar { IfOk result IsScript }
{
    read(alloc, text)
}
