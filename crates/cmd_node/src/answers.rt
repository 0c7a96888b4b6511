//! The whole answer to a node's file.
ghost use Rattle.std.specs.Prelude.{◌≡◌, [], IfOk};
ghost use Rattle.book_base.specs.declared.address.Pair.{Pair as OnePair};
ghost use Rattle.book_keys.specs.Plans.{rows_at};
ghost use Rattle.book_cmd_node.specs.declared.node.NodeScript.{NodeScript as OneScript};
ghost use Rattle.book_cmd_node.specs.NodeRuns.{node_script_of, node_text};
ghost use Rattle.law_node.specs.Alone.{Alone};
ghost use Rattle.cmd_node.specs.Scripts.{IsScript};
ghost use Rattle.book_answer.specs.Answers.{if_read, node_over};
ghost use Rattle.command_report.specs.Reports.{Reports};

use crate::reader::read_node;
use crate::run::run_node;
use book_base::Bytes;
use book_cmd_node::NodeScript;
use command_report::{Report, Stop};
use key_table::{Table, Tables};
use stack_ends::Node;
use std::alloc::{AllocError, Global};

/// How many ends the node of a run holds at most.
const MOST: u16 = 1024;

/// The text of a script's run over the table of its node; an address that no node has stands for an
/// empty table.
fn run_script(alloc: Global, tables: &Tables, script: &NodeScript) -> Result<Bytes, AllocError>
    requires { IsScript script.now }
    ensures { IfOk result (λ text. text ≡ node_text (rows_at tables.now script.now.address) script.now.events) }
{
    let mut node = Node::new(alloc, MOST)?;
    match tables.table(&script.address) {
        Some(table) => run_node(alloc, table, script, &mut node),
        None => {
            let table = Table::empty(alloc, script.address);
            run_node(alloc, &table, script, &mut node)
        }
    }
}

/// The answer of `node` to a node's file over the tables of a key file: the text of its run, as
/// `run_node` has it, in which nothing is amiss.
///
/// `Ok` exactly where the input is a node's file; its faults are those of `cmd_node::read_node`.
/// `Memory` only for want of memory.
#[tactic(auto, using(command_report::proofs::Reporting::fails_stops))]
pub fn answer(alloc: Global, tables: &Tables, input: &[u8]) -> Result<Report, Stop>
    ensures { Reports result (if_read (node_over tables.now) (node_script_of input.now)) }
{
    let script = read_node(alloc, input)?;
    let text = run_script(alloc, tables, &script)?;
    Ok(Report {
        text,
        is_amiss: false,
    })
}
