//! A report with the lines of its events.
ghost use Rattle.std.specs.Prelude.{◌≡◌, ◌++◌, IfOk, OnOk};
ghost use Rattle.book_scope_run.specs.Echoes.{clock_echo, echo_of, echoes_from, echoes_text, event_echo};

use crate::event_lines::EventLines;
use crate::report_lines::ReportLines;
use ao_base::push_decimal;
use book_base::Bytes;
use book_cmd_link::KeysFrom;
use book_link::{Action, Event};
use scope_texts::push_instant;
use std::alloc::{AllocError, Global};
use text_lines::{push_end, push_newline};

/// Puts the number of an event and its line behind `out`.
#[tactic(auto, unfolding(book_scope_run::specs::Echoes::event_echo))]
fn push_event(out: &mut Vec<u8>, number: u64, line: &[u8]) -> Result<(), AllocError>
    ensures { OnOk result (out.new.items ≡ out.old.items ++ event_echo number line.now) }
{
    push_decimal(out, number)?;
    out.extend_from_slice(b"  ")?;
    out.extend_from_slice(line)?;
    out.extend_from_slice(b"  ->  ")
}

/// Puts the clock that an event sets behind `out`, where it sets one.
#[tactic(auto, unfolding(book_scope_run::specs::Echoes::clock_echo))]
fn push_clock(out: &mut Vec<u8>, event: &Event) -> Result<(), AllocError>
    ensures { OnOk result (out.new.items ≡ out.old.items ++ clock_echo event.now) }
{
    if let Event::At(end, Action::Clock(seconds)) = event {
        out.extend_from_slice(b"   the clock of")?;
        push_end(out, *end)?;
        out.extend_from_slice(b" is ")?;
        push_instant(out, *seconds)?;
        push_newline(out)?;
    }
    Ok(())
}

/// Puts an event behind `out`: its number and its line, what is told of it, and its clock.
fn push_echo(
    out: &mut Vec<u8>,
    number: u64,
    line: &[u8],
    told: &[u8],
    event: &Event,
) -> Result<(), AllocError>
    ensures { OnOk result
        (out.new.items ≡ out.old.items ++ (event_echo number line.now ++ (told.now ++ clock_echo event.now))) }
{
    push_event(out, number, line)?;
    out.extend_from_slice(told)?;
    push_clock(out, event)
}

/// Puts the report behind `out`, each of its lines behind that of its event, as far as there are lines and
/// events.
fn push_echoes(
    out: &mut Vec<u8>,
    lines: &mut EventLines,
    events: &[Event],
    report: &mut ReportLines,
) -> Result<(), AllocError>
    ensures { OnOk result (out.new.items ≡ out.old.items ++ echoes_text
        (echoes_from 1 lines.old events.now report.old)) }
{
    for (index, event) in events.iter().enumerate() {
        match lines.next() {
            Some(line) => push_echo(out, index as u64 + 1, line, report.next(), event)?,
            None => return out.extend_from_slice(report.rest()),
        }
    }
    out.extend_from_slice(report.rest())
}

/// The report of the events of a link file, whose key stands in a file of its own or in one of its lines,
/// with the lines of its events. An error only for want of memory.
#[tactic(auto, unfolding(book_scope_run::specs::Echoes::echo_of))]
pub(crate) fn print_echo(
    alloc: Global,
    keys: KeysFrom,
    text: &[u8],
    events: &[Event],
    report: &[u8],
) -> Result<Bytes, AllocError>
    ensures { IfOk result (λ echo. echo ≡ echo_of keys text.now events.now report.now) }
{
    let mut out = Vec::new(alloc);
    let mut lines = EventLines::of(keys, text);
    let mut report = ReportLines::new(report);
    push_echoes(&mut out, &mut lines, events, &mut report)?;
    Ok(Bytes::from_vec(out))
}
