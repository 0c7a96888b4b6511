//! The word `plan`.
ghost use Rattle.std.specs.Prelude.{◌≡◌, ℕ, List, [], Ok};
ghost use Rattle.ao_base.specs.Outside.{Side};
ghost use Rattle.book_lines.specs.Said.{said_in};
ghost use Rattle.book_scope_plan.specs.Connections.{plan_pair_of};
ghost use Rattle.scope_keys.specs.KeyFiles.{key_file_of};
ghost use Rattle.scope_run.specs.Acts.{Plans, PlansBy, ReadsAndPlans};
ghost use Rattle.scope_run.specs.Answers.{Makes, connections_answer, plan_answer};
ghost use Rattle.scope_run.specs.Requests.{plan_form_of, plan_wanted};
ghost use Rattle.scope_run.specs.Sides.{Flow, Given, Sides};

use crate::asked::PlanAsked;
use crate::halt::halt_of_stop;
use crate::reading::{key_file_from, read_whole};
use crate::report::{made, write_report};
use crate::words::plan_asked;
use ao_base::{Sink, Source};
use book_cmd_link::Plan;
use book_scope_plan::PlanForm;
use book_scope_run::{Halt, Origin};
use command_report::Report;
use scope_keys::KeyFile;
use scope_plan::answer_plan;
use std::alloc::Global;

fn form_of(asked: &PlanAsked<'_>) -> PlanForm
    ensures { result ≡ plan_form_of asked.now }
{
    if asked.draw {
        if asked.svg {
            PlanForm::Picture
        } else {
            PlanForm::Bars
        }
    } else {
        PlanForm::Lines
    }
}

/// What is said of the connections of an input, of which there is one.
#[tactic(auto, using(crate::proofs::Said::refused, crate::proofs::Said::nothing, crate::proofs::Said::something))]
fn connections_report(
    alloc: Global,
    form: PlanForm,
    file: &KeyFile,
    plan: Plan,
    input: &[u8],
) -> Result<Report, Halt>
    ensures { Makes result (connections_answer form (key_file_of file.now) plan (said_in plan_pair_of input.now)) }
{
    let lines = match answer_plan(alloc, PlanForm::Lines, file, plan, input) {
        Ok(lines) => lines,
        Err(stop) => return Err(halt_of_stop(stop)),
    };
    if lines.text.as_slice().is_empty() {
        return Err(Halt::NoConnection);
    }
    match form {
        PlanForm::Lines => Ok(lines),
        form => made(answer_plan(alloc, form, file, plan, input)),
    }
}

/// The same by a key file that has a node.
#[tactic(auto, using(crate::proofs::Said::no_node, crate::proofs::Said::with_node))]
fn report_on(
    alloc: Global,
    form: PlanForm,
    file: &KeyFile,
    plan: Plan,
    input: &[u8],
) -> Result<Report, Halt>
    ensures { Makes result (plan_answer form (key_file_of file.now) plan input.now) }
{
    if file.tables.nodes() == 0 {
        return Err(Halt::NoNode);
    }
    connections_report(alloc, form, file, plan, input)
}

fn answer_by<I: Source, O: Sink>(
    alloc: Global,
    form: PlanForm,
    plan: Plan,
    file: &KeyFile,
    input: &mut I,
    out: &mut O,
) -> Result<bool, Halt>
    ensures { (i : List ℕ) × Plans form plan (key_file_of file.now)
        (record {
          given = i;
          input_before = I.side input.old;
          input_now = I.side input.new;
          out_before = O.side out.old;
          out_now = O.side out.new;
        }) result }
{
    let text = match read_whole(alloc, Origin::Input, input) {
        Ok(text) => text,
        Err(why) => return Err(why),
    };
    write_report(report_on(alloc, form, file, plan, text.as_slice()), out)
}

fn read_and_answer<K: Source, I: Source, O: Sink>(
    alloc: Global,
    form: PlanForm,
    plan: Plan,
    keys: &mut K,
    input: &mut I,
    out: &mut O,
) -> Result<bool, Halt>
    ensures { (isns : Side) → (g : Given) × ReadsAndPlans form plan g
        (record { keys = K.side keys.old; isns = isns; input = I.side input.old; out = O.side out.old })
        (record { keys = K.side keys.new; isns = isns; input = I.side input.new; out = O.side out.new })
        result }
{
    match key_file_from(alloc, keys) {
        Ok(file) => answer_by(alloc, form, plan, &file, input, out),
        Err(why) => Err(why),
    }
}

/// Writes what is said of the planned rollovers of connections; one that isn't aligned or doesn't change a key is
/// amiss.
pub(crate) fn act<K: Source, I: Source, O: Sink>(
    alloc: Global,
    asked: &PlanAsked<'_>,
    keys: &mut K,
    input: &mut I,
    out: &mut O,
) -> Result<bool, Halt>
    ensures { (isns : Side) → (g : Given) × PlansBy asked.now g
        (record { keys = K.side keys.old; isns = isns; input = I.side input.old; out = O.side out.old })
        (record { keys = K.side keys.new; isns = isns; input = I.side input.new; out = O.side out.new })
        result }
{
    match plan_asked(asked.lead, asked.lag, asked.from, asked.to) {
        Ok(plan) => read_and_answer(alloc, form_of(asked), plan, keys, input, out),
        Err(why) => Err(why),
    }
}
