//! The run of a link file.
ghost use Rattle.book_cmd_link.specs.declared.script.KeysFrom.TheVariants as keys_from;
ghost use Rattle.std.specs.Prelude.{◌≡◌, ◌≤◌, IfOk, length, true};
ghost use Rattle.std.specs.List.{All};
ghost use Rattle.book_lines.specs.Lines.{most_lines};
ghost use Rattle.book_answer.specs.Answers.{done, if_read, linked, linked_by_shared, reported};
ghost use Rattle.book_cmd_link.specs.LinkFiles.{script_of};
ghost use Rattle.book_segments.specs.Sockets.{are_two_of_a_family};
ghost use Rattle.command_report.specs.Reports.{Reports};
ghost use Rattle.link_world.specs.Events.{CanHappen};
ghost use Rattle.link_world.specs.Stands.{StandsFor, setup_of};

use book_link::Event;
use command_report::{Report, Stop};
use key_table::Tables;
use link_script::{KeysFrom, Script, read_script};
use link_world::{Setup, World};
use std::alloc::{AllocError, Global};

/// The link after these events, at most 20,000: clocks are set to LATEST at most, and rows that are
/// added are those of a link file.
fn play(alloc: Global, setup: Setup, events: &[Event]) -> Result<World, AllocError>
    requires family { are_two_of_a_family setup.a.address setup.b.address ≡ true }
    requires events { All CanHappen events.now }
    requires few { length events.now ≤ most_lines }
    ensures { IfOk result (λ w. StandsFor w (setup_of setup) events.now) }
{
    let mut world = World::new(alloc, setup)?;
    for event in events {
        world.step(alloc, event)?;
    }
    Ok(world)
}

/// The report of the run of these events, at most 20,000, in which a forgery is amiss: clocks are set to
/// LATEST at most, and rows that are added are those of a link file. An error only for want of memory.
pub fn report_of(alloc: Global, setup: Setup, events: &[Event]) -> Result<Report, AllocError>
    requires family { are_two_of_a_family setup.a.address setup.b.address ≡ true }
    requires events { All CanHappen events.now }
    requires few { length events.now ≤ most_lines }
    ensures { IfOk result (λ r. reported (setup_of setup) events.now ≡ done r.is_amiss r.text) }
{
    let world = play(alloc, setup, events)?;
    let text = world.report(alloc)?;
    let is_amiss = world.forgeries() != 0;
    Ok(Report { text, is_amiss })
}

/// The answer of `link`: the report of a link file that names the key that both ends share.
///
/// `Ok` exactly where the input is such a link file; its faults are those of `link_script::read_script`.
/// `Memory` only for want of memory.
#[tactic(auto, using(command_report::proofs::Reporting::fails_stops))]
pub fn answer_link(alloc: Global, input: &[u8]) -> Result<Report, Stop>
    ensures { Reports result (if_read linked_by_shared (script_of keys_from.LinkFile input.now)) }
{
    let script = read_script(alloc, KeysFrom::LinkFile, input)?;
    let Script {
        a,
        b,
        shared,
        events,
    } = script;
    let Some(key) = shared else { unreachable!() };
    let tables = Tables::shared(alloc, a.address, b.address, key.alg, key.master.as_slice())?;
    let report = report_of(alloc, Setup { tables, a, b }, events.as_slice())?;
    Ok(report)
}

/// The answer of `link KEYS`: the report of a link file over the tables of a key file.
///
/// `Ok` exactly where the input is a link file that names no key; its faults are those of
/// `link_script::read_script`. `Memory` only for want of memory.
#[tactic(auto, using(command_report::proofs::Reporting::fails_stops))]
pub fn answer_link_keys(alloc: Global, tables: Tables, input: &[u8]) -> Result<Report, Stop>
    ensures { Reports result (if_read (linked tables) (script_of keys_from.KeyFile input.now)) }
{
    let script = read_script(alloc, KeysFrom::KeyFile, input)?;
    let Script { a, b, events, .. } = script;
    let report = report_of(alloc, Setup { tables, a, b }, events.as_slice())?;
    Ok(report)
}
