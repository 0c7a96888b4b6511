//! The ladder of a link file.
ghost use Rattle.book_cmd_link.specs.declared.script.KeysFrom.TheVariants as keys_from;
ghost use Rattle.std.specs.Prelude.{◌≡◌, ◌≤◌, IfOk, length, true};
ghost use Rattle.std.specs.List.{All};
ghost use Rattle.book_lines.specs.Lines.{most_lines};
ghost use Rattle.book_answer.specs.Answers.{done, if_read};
ghost use Rattle.book_cmd_link.specs.LinkFiles.{script_of};
ghost use Rattle.book_segments.specs.Sockets.{are_two_of_a_family};
ghost use Rattle.command_report.specs.Reports.{Reports};
ghost use Rattle.link_world.specs.Events.{CanHappen};
ghost use Rattle.link_world.specs.Stands.{setup_of};
ghost use Rattle.scope_draw.specs.Forms.{drawing, drawn, drawn_by_shared};

use crate::picture::draw_rungs_as;
use crate::runs::rungs_of;
use book_link::Event;
use command_report::{Report, Stop};
use key_table::Tables;
use link_script::{KeysFrom, Script, read_script};
use link_world::Setup;
use page_draw_svg::Form;
use std::alloc::{AllocError, Global};

/// The ladder of the run of these events, in the form.
#[tactic(auto, using(crate::proofs::Counts::few_rungs))]
fn report_of(
    alloc: Global,
    form: Form,
    setup: Setup,
    events: &[Event],
) -> Result<Report, AllocError>
    requires family { are_two_of_a_family setup.a.address setup.b.address ≡ true }
    requires events { All CanHappen events.now }
    requires few { length events.now ≤ most_lines }
    ensures { IfOk result (λ r. drawing form (setup_of setup) events.now ≡ done r.is_amiss r.text) }
{
    let rungs = rungs_of(alloc, setup, events)?;
    let text = draw_rungs_as(alloc, form, rungs.as_slice())?;
    Ok(Report {
        text,
        is_amiss: false,
    })
}

/// The answer of `draw`: the ladder of the run of a link file that names the key that both ends share, as
/// text or as a picture in SVG.
/// Nothing in it is amiss.
///
/// `Ok` exactly where the input is such a link file; its faults are those of `link_script::read_script`.
/// `Memory` only for want of memory.
#[tactic(auto, using(command_report::proofs::Reporting::fails_stops))]
pub fn answer_draw(alloc: Global, form: Form, input: &[u8]) -> Result<Report, Stop>
    ensures { Reports result (if_read (drawn_by_shared form) (script_of keys_from.LinkFile input.now)) }
{
    let script = read_script(alloc, KeysFrom::LinkFile, input)?;
    let Script {
        a,
        b,
        shared,
        events,
    } = script;
    let Some(key) = shared else { unreachable!() };
    let tables = Tables::shared(alloc, a.address, b.address, key.alg, key.master.as_slice())?;
    let report = report_of(alloc, form, Setup { tables, a, b }, events.as_slice())?;
    Ok(report)
}

/// The answer of `draw KEYS`: the ladder of the run of a link file over the tables of a key file, as text
/// or as a picture in SVG. Nothing in it is amiss.
///
/// `Ok` exactly where the input is a link file that names no key; its faults are those of
/// `link_script::read_script`. `Memory` only for want of memory.
#[tactic(auto, using(command_report::proofs::Reporting::fails_stops))]
pub fn answer_draw_keys(
    alloc: Global,
    form: Form,
    tables: Tables,
    input: &[u8],
) -> Result<Report, Stop>
    ensures { Reports result (if_read (drawn form tables) (script_of keys_from.KeyFile input.now)) }
{
    let script = read_script(alloc, KeysFrom::KeyFile, input)?;
    let Script { a, b, events, .. } = script;
    let report = report_of(alloc, form, Setup { tables, a, b }, events.as_slice())?;
    Ok(report)
}
