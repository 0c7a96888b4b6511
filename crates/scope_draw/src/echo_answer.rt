//! The answer of `echo`.
ghost use Rattle.book_cmd_link.specs.declared.script.KeysFrom.TheVariants as keys_from;
ghost use Rattle.std.specs.Prelude.{◌≡◌, ◌≤◌, IfOk, length, true};
ghost use Rattle.std.specs.List.{All};
ghost use Rattle.book_lines.specs.Lines.{most_lines};
ghost use Rattle.book_answer.specs.Answers.{done, if_read, reported};
ghost use Rattle.book_cmd_link.specs.LinkFiles.{script_of};
ghost use Rattle.book_segments.specs.Sockets.{are_two_of_a_family};
ghost use Rattle.command_report.specs.Reports.{Reports};
ghost use Rattle.link_world.specs.Events.{CanHappen};
ghost use Rattle.link_world.specs.Stands.{setup_of};
ghost use Rattle.scope_draw.specs.EchoForms.{echoed, echoed_by_shared, echoed_over};

use crate::echo::print_echo;
use book_link::Event;
use cmd_link::report_of;
use command_report::{Report, Stop};
use key_table::Tables;
use link_script::{KeysFrom, Script, read_script};
use link_world::Setup;
use std::alloc::{AllocError, Global};

/// The report of the run of these events, with their lines in the text; what is amiss in the report is so
/// here.
fn echo_report(
    alloc: Global,
    keys: KeysFrom,
    text: &[u8],
    setup: Setup,
    events: &[Event],
) -> Result<Report, AllocError>
    requires family { are_two_of_a_family setup.a.address setup.b.address ≡ true }
    requires events { All CanHappen events.now }
    requires few { length events.now ≤ most_lines }
    ensures { IfOk result (λ r. echoed keys text.now events.now (reported (setup_of setup) events.now)
        ≡ done r.is_amiss r.text) }
{
    let report = report_of(alloc, setup, events)?;
    let text = print_echo(alloc, keys, text, events, report.text.as_slice())?;
    Ok(Report {
        text,
        is_amiss: report.is_amiss,
    })
}

/// The answer of `echo`: the report of a link file that names the key that both ends share, with the lines
/// of its events. What is amiss in the report is so here.
///
/// `Ok` exactly where the input is such a link file; its faults are those of `link_script::read_script`.
/// `Memory` only for want of memory.
#[tactic(auto, using(command_report::proofs::Reporting::fails_stops))]
pub fn answer_echo(alloc: Global, input: &[u8]) -> Result<Report, Stop>
    ensures { Reports result (if_read (echoed_by_shared input.now) (script_of keys_from.LinkFile input.now)) }
{
    let script = read_script(alloc, KeysFrom::LinkFile, input)?;
    let Script {
        a,
        b,
        shared,
        events,
    } = script;
    let Some(key) = shared else { unreachable!() };
    let tables = Tables::shared(alloc, a.address, b.address, key.alg, key.master.as_slice())?;
    let report = echo_report(
        alloc,
        KeysFrom::LinkFile,
        input,
        Setup { tables, a, b },
        events.as_slice(),
    )?;
    Ok(report)
}

/// The answer of `echo KEYS`: the report of a link file over the tables of a key file, with the lines of
/// its events. What is amiss in the report is so here.
///
/// `Ok` exactly where the input is a link file that names no key; its faults are those of
/// `link_script::read_script`. `Memory` only for want of memory.
#[tactic(auto, using(command_report::proofs::Reporting::fails_stops))]
pub fn answer_echo_keys(alloc: Global, tables: Tables, input: &[u8]) -> Result<Report, Stop>
    ensures { Reports result (if_read (echoed_over tables input.now) (script_of keys_from.KeyFile input.now)) }
{
    let script = read_script(alloc, KeysFrom::KeyFile, input)?;
    let Script { a, b, events, .. } = script;
    let report = echo_report(
        alloc,
        KeysFrom::KeyFile,
        input,
        Setup { tables, a, b },
        events.as_slice(),
    )?;
    Ok(report)
}
