//! What is said of each connection of an input.
ghost use Rattle.std.specs.Prelude.{◌≡◌, ◌&&◌, IfOk, ◌<◌, ◌≤◌, ◌↔◌, IsErrOf, length};
ghost use Rattle.book_base.specs.Lines.{lines_of};
ghost use Rattle.book_lines.specs.Lines.{most_lines};
ghost use Rattle.book_lines.specs.Said.{at_number, said_by, said_in};
ghost use Rattle.text_lines.specs.Readings.{Answers};
ghost use Rattle.book_scope_plan.specs.Connections.{plan_pair_of};
ghost use Rattle.book_scope_plan.specs.FindingTexts.{one_if};
ghost use Rattle.book_scope_plan.specs.PlanTexts.{changes_key};
ghost use Rattle.book_answer.specs.Answers.{if_read};
ghost use Rattle.command_report.specs.Reports.{Reports};
ghost use Rattle.scope_keys.specs.KeyFiles.{key_file_of};
ghost use Rattle.scope_plan.specs.Plannings.{no_plan, planned_answer, planned_from, plannings};

use crate::connection::read_connection;
use crate::connections::changes_key;
use crate::drawn::{framed, push_connection_as};
use crate::planned::Planned;
use book_base::{Bytes, Pair};
use book_cmd_link::Plan;
use book_lines::TextFault;
use book_scope_plan::PlanForm;
use command_report::{Report, Stop};
use key_plan::calendar;
use scope_keys::KeyFile;
use std::alloc::{AllocError, Global};
use text_lines::{Saying, SayingLines, count_lines};

fn connection_in(mut line: Saying) -> Result<Pair, TextFault>
    ensures { result ≡ at_number line.entry.number (plan_pair_of line.entry.words) }
{
    let number = line.number;
    match read_connection(&mut line.words) {
        Ok(pair) => Ok(pair),
        Err(kind) => Err(TextFault::Line(number, kind)),
    }
}

/// Whether nothing is wrong with the plan of a connection: it is good, and a key changes.
#[tactic(auto, unfolding(book_scope_plan::specs::PlanTexts::changes_key))]
fn is_right(
    alloc: Global,
    keys: &KeyFile,
    plan: &Plan,
    pair: &Pair,
    is_good: bool,
) -> Result<bool, AllocError>
    ensures { IfOk result (λ right. right ≡ (is_good && changes_key keys.now.tables plan.now pair.now)) }
{
    if !is_good {
        return Ok(false);
    }
    let turns = calendar(alloc, &keys.tables, pair, plan.from, plan.to)?;
    Ok(changes_key(turns.as_slice()))
}

/// One for what holds, and none for what doesn't.
fn one_if(holds: bool) -> u32
    ensures value { result ≡ one_if holds }
    ensures range { result ≤ 1 }
{
    if holds { 1 } else { 0 }
}

/// What is said of each connection of the lines that are left.
fn plan_lines(
    alloc: Global,
    form: PlanForm,
    keys: &KeyFile,
    plan: &Plan,
    mut lines: SayingLines,
) -> Result<Planned, TextFault>
    requires { length lines ≤ most_lines }
    ensures { Answers result (planned_from form (key_file_of keys.now) plan.now no_plan
        (said_by plan_pair_of lines.entry)) }
{
    let mut out = Vec::new(alloc);
    let mut count = 0;
    let mut all: u32 = 0;
    let mut good: u32 = 0;
    let mut has_wrong = false;
    while let Some(line) = lines.next() {
        let pair = connection_in(line)?;
        let written = push_connection_as(alloc, form, &mut out, count, keys, plan, &pair)?;
        count = written.next;
        all += 1;
        good += one_if(written.is_good);
        let right = is_right(alloc, keys, plan, &pair, written.is_good)?;
        has_wrong |= !right;
    }
    Ok(Planned {
        text: Bytes::from_vec(out),
        lines: count,
        all,
        good,
        has_wrong,
    })
}

/// What is said of each connection of the input, or the input's first fault.
#[tactic(auto, unfolding(crate::specs::Plannings::plannings, book_lines::specs::Said::said_in))]
fn plan_input(
    alloc: Global,
    form: PlanForm,
    keys: &KeyFile,
    plan: &Plan,
    input: &[u8],
) -> Result<Planned, TextFault>
    ensures text { Answers result (plannings form (key_file_of keys.now) plan.now input.now) }
    ensures too_many { IsErrOf result TextFault.TooManyLines ↔ (most_lines < length (lines_of input.now)) }
{
    let _count = count_lines(input)?;
    plan_lines(alloc, form, keys, plan, SayingLines::new(input))
}

/// The answer of `plan`: for each connection of the input, a line `ADDRESS PORT ADDRESS PORT` with
/// addresses in their usual form whose first socket is end a, the line `connection ..`, and behind it, by
/// the tables of the key file:
/// - each time after `from` until `to` at which a row begins or ends to be accepted or sent with, or begins
///   to be asked for, in order, with the name of the node, or those of both where both turn alike;
/// - each finding of `key_plan::findings` for the plan's lead and lag, in order, with the columns in which
///   the nearest rows differ, or what a lifetime is to be set to, or what stands in the way of that; behind
///   the number of a row stands what the operator calls it, its AdminKeyName;
/// - or, where there is none, `aligned` with the greatest lead and lag for which it stays so;
/// - in front of these, where in that time no end begins to send with another row, that no key changes;
/// - behind them notes on the rows, `notes_text` of the book.
///
/// Of a connection with an address that no node has it is only said so. A finding, such an address or that no
/// key changes is amiss. In the form `PlanForm::Bars` the line `connection ..` is followed by the bars of
/// `draw_plan::push_bars` in place of the calendar and the findings, and above all stands how many connections
/// there are, where there are two or more, and with how many of them nothing is wrong. In the form
/// `PlanForm::Picture` it is one picture in SVG, `picture_text` of the book, of the same lines, connections one
/// below another: the bars by seconds in place of slices, and a mark for each finding.
///
/// `Ok` exactly where each line that says something is a connection between two addresses of one family
/// that differ. `TooManyLines` exactly where the input has more than 20,000 lines; else `Line` is the first
/// faulty line, counted from 1 among all lines, with the kind of its first faulty word: `Range` for a port
/// over 65,535 and for a second address that is the first one or of the other family. `Memory` only for
/// want of memory.
#[tactic(auto, using(crate::proofs::ReportLaws::planned_reports, crate::proofs::ReportLaws::refused_reports))]
pub fn answer_plan(
    alloc: Global,
    form: PlanForm,
    keys: &KeyFile,
    plan: Plan,
    input: &[u8],
) -> Result<Report, Stop>
    ensures answer { Reports result (if_read (planned_answer form (key_file_of keys.now) plan)
        (said_in plan_pair_of input.now)) }
    ensures too_many { IsErrOf result (Stop.Input TextFault.TooManyLines) ↔ (most_lines < length (lines_of input.now)) }
{
    let planned = plan_input(alloc, form, keys, &plan, input)?;
    let is_amiss = planned.has_wrong;
    let text = framed(alloc, form, keys, planned)?;
    Ok(Report { text, is_amiss })
}
