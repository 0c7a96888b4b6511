//! The answer of `bgp`.
ghost use Rattle.book_cmd_link.specs.declared.script.KeysFrom.TheVariants as keys_from;
ghost use Rattle.book_answer.specs.Answers.{bgp_over, if_read};
ghost use Rattle.book_cmd_link.specs.LinkFiles.{script_of};
ghost use Rattle.command_report.specs.Reports.{Reports};

use crate::bgp_runs::run_bgp;
use bgp_messages::BgpReader;
use book_cmd_link::Script;
use both_ends::BothEnds;
use command_report::{Report, Stop};
use key_table::Tables;
use link_script::{KeysFrom, read_script};
use link_world::Setup;
use std::alloc::Global;

/// The answer of `bgp`: a link file without a shared key runs over the tables of a key file, and the
/// bytes that its sessions took are read as BGP messages (RFC 4271, section 4). A forgery is amiss,
/// and so is a faulty message.
///
/// `Ok` exactly where the input is a link file that names no key; its faults are those of
/// `link_script::read_script`. `Memory` only for want of memory.
#[tactic(auto, using(command_report::proofs::Reporting::fails_stops))]
pub fn answer_bgp(alloc: Global, tables: Tables, input: &[u8]) -> Result<Report, Stop>
    ensures { Reports result (if_read (bgp_over tables) (script_of keys_from.KeyFile input.now)) }
{
    let script = read_script(alloc, KeysFrom::KeyFile, input)?;
    let Script { a, b, events, .. } = script;
    let mut readers = BothEnds {
        a: BgpReader::new(alloc)?,
        b: BgpReader::new(alloc)?,
    };
    let setup = Setup { tables, a, b };
    let run = run_bgp(alloc, setup, &events, &mut readers)?;
    let is_amiss = run.forgeries != 0 || run.faults != 0;
    Ok(Report {
        text: run.text,
        is_amiss,
    })
}
