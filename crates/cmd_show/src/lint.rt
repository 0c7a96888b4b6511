//! The judgement on each connection of an input.
ghost use Rattle.std.specs.Prelude.{◌≡◌, ◌<◌, ◌↔◌, ◌++◌, ◌∷◌, [], IsErrOf, OnOk, false, length, decimal};
ghost use Rattle.book_base.specs.Lines.{lines_of};
ghost use Rattle.book_lines.specs.Lines.{most_lines};
ghost use Rattle.book_lines.specs.Said.{at_number, said_by, said_in};
ghost use Rattle.book_lines.specs.Texts.{end_text, numbered_text, spaced};
ghost use Rattle.text_lines.specs.Readings.{Answers};
ghost use Rattle.book_cmd_link.specs.LintTexts.{lint_pair_of, is_aligned, lint_texts};
ghost use Rattle.book_answer.specs.Answers.{if_read, linted};
ghost use Rattle.command_report.specs.Reports.{Reports};
ghost use Rattle.cmd_show.specs.Judgements.{judged_from, judgements};

use crate::connection::read_connection;
use crate::judged::Judged;
use crate::judgement::lint;
use ao_base::push_decimal;
use book_base::{Bytes, End, Pair};
use book_cmd_link::Plan;
use book_keys::LintAnswer;
use book_lines::TextFault;
use command_report::{Report, Stop};
use key_table::Tables;
use std::alloc::{AllocError, Global};
use text_lines::{
    Saying, SayingLines, count_lines, push_end, push_newline, push_number, push_text,
};

fn connection_in(mut line: Saying) -> Result<Pair, TextFault>
    ensures { result ≡ at_number line.entry.number (lint_pair_of line.entry.words) }
{
    let number = line.number;
    read_connection(&mut line.words).map_err(|kind| TextFault::Line(number, kind))
}

fn is_aligned(answer: LintAnswer) -> bool
    ensures { result ≡ is_aligned answer }
{
    matches!(answer, LintAnswer::Aligned)
}

/// A name, an end, and the number of a row or a time.
fn push_place(out: &mut Vec<u8>, name: &[u8], end: End, number: u64) -> Result<(), AllocError>
    ensures { OnOk result (out.new.items ≡ out.old.items ++ spaced (name.now ∷ end_text end ∷ decimal number ∷ [])) }
{
    push_text(out, name)?;
    push_end(out, end)?;
    push_number(out, number)
}

fn push_answer(out: &mut Vec<u8>, answer: LintAnswer) -> Result<(), AllocError>
    ensures { OnOk result (out.new.items ≡ out.old.items ++ spaced (lint_texts answer)) }
{
    match answer {
        LintAnswer::Aligned => push_text(out, b"aligned"),
        LintAnswer::NoPeerRow(end, row) => push_place(out, b"no-peer-row", end, u64::from(row)),
        LintAnswer::ShortAccept(end, row) => push_place(out, b"short-accept", end, u64::from(row)),
        LintAnswer::Gap(end, time) => push_place(out, b"gap", end, time),
    }
}

fn push_line(out: &mut Vec<u8>, number: u32, answer: LintAnswer) -> Result<(), AllocError>
    ensures { OnOk result (out.new.items ≡ out.old.items ++ numbered_text number (lint_texts answer)) }
{
    push_decimal(out, u64::from(number))?;
    push_answer(out, answer)?;
    push_newline(out)
}

/// The answer on each connection of the lines that are left.
fn judge(
    alloc: Global,
    tables: &Tables,
    plan: Plan,
    mut lines: SayingLines,
) -> Result<Judged, TextFault>
    ensures { Answers result (judged_from tables.now plan [] false (said_by lint_pair_of lines.entry)) }
{
    let mut out = Vec::new(alloc);
    let mut has_misfit = false;
    while let Some(line) = lines.next() {
        let number = line.number;
        let pair = connection_in(line)?;
        let answer = lint(tables, &pair, plan.lead, plan.lag, plan.from, plan.to);
        push_line(&mut out, number, answer)?;
        has_misfit |= !is_aligned(answer);
    }
    Ok(Judged {
        text: Bytes::from_vec(out),
        has_misfit,
    })
}

/// The judgement on each connection of the input, a line each, or the input's first fault.
#[tactic(auto, unfolding(crate::specs::Judgements::judgements, book_lines::specs::Said::said_in))]
fn lint_lines(alloc: Global, tables: &Tables, plan: Plan, input: &[u8]) -> Result<Judged, TextFault>
    ensures text { Answers result (judgements tables.now plan input.now) }
    ensures too_many { IsErrOf result TextFault.TooManyLines ↔ (most_lines < length (lines_of input.now)) }
{
    let _count = count_lines(input)?;
    judge(alloc, tables, plan, SayingLines::new(input))
}

/// The answer of `lint`: for each connection of the input, a line `ADDRESS PORT ADDRESS PORT` whose
/// first socket is end a, its number and whether the tables of the key file carry it through a
/// rollover: `aligned`, or `no-peer-row END ROW`, `short-accept END ROW` or `gap END TIME`, as
/// `crate::judgement::lint` judges it. A connection that isn't aligned is amiss.
///
/// `Ok` exactly where each line that says something is a connection between two addresses of one
/// family that differ. `TooManyLines` exactly where the input has more than 20,000 lines; else `Line`
/// is the first faulty line, counted from 1 among all lines, with the kind of its first faulty word:
/// `Range` for a port over 65,535 and for a second address that is the first one or of the other
/// family. `Memory` only for want of memory.
#[tactic(auto, using(crate::proofs::LintLaws::judged_reports, crate::proofs::LintLaws::refused_reports))]
pub fn answer_lint(alloc: Global, tables: &Tables, plan: Plan, input: &[u8]) -> Result<Report, Stop>
    ensures answer { Reports result (if_read (linted tables.now plan) (said_in lint_pair_of input.now)) }
    ensures too_many { IsErrOf result (Stop.Input TextFault.TooManyLines) ↔ (most_lines < length (lines_of input.now)) }
{
    let judged = lint_lines(alloc, tables, plan, input)?;
    Ok(Report {
        text: judged.text,
        is_amiss: judged.has_misfit,
    })
}
