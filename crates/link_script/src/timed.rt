//! A link file in which time passes as well: one with waits.
ghost use Rattle.std.specs.Prelude.{◌≡◌, IfOk};
ghost use Rattle.text_lines.specs.Readings.{Answers, Tells};
ghost use Rattle.book_cmd_link.specs.LinkFiles.{event_at, events_of};
ghost use Rattle.book_cmd_link.specs.TimedRuns.{timed_event_of, timed_script_of, wait_of};
ghost use Rattle.law_scripts.specs.Timed.{IsTimedScript, plain_of};

use super::head::read_head;
use super::line_events::read_event;
use super::reader::is_shared;
use book_cmd_link::{TimedEvent, TimedEvents, TimedScript};
use book_lines::{LineKind, TextFault};
use std::alloc::Global;
use text_lines::{LineWords, Saying, SayingLines, WordProblem, count_lines};

/// The longest wait, in seconds.
const LONGEST_WAIT: u64 = 3600;

/// The wait that the words behind `wait` make.
#[tactic(auto, unfolding(book_cmd_link::specs::TimedRuns::wait_of))]
fn wait(words: &mut LineWords) -> Result<TimedEvent, LineKind>
    ensures { result ≡ wait_of words.old }
{
    let end = words.end()?;
    let count = words.number(1, LONGEST_WAIT)? as u16;
    words.nothing()?;
    Ok(TimedEvent::Wait(end, count))
}

/// The plain event that the words of a line make.
fn plain(alloc: Global, words: &mut LineWords) -> Result<TimedEvent, WordProblem>
    ensures { Tells result (plain_of words.old) }
{
    Ok(TimedEvent::Plain(read_event(alloc, words)?))
}

/// The event that the words of a line make, a plain one or a wait.
fn timed_event(alloc: Global, words: &mut LineWords) -> Result<TimedEvent, WordProblem>
    ensures { Tells result (timed_event_of words.old) }
{
    let mut behind = words.ahead();
    match behind.literal(b"wait") {
        Ok(()) => Ok(wait(&mut behind)?),
        Err(_) => plain(alloc, words),
    }
}

/// The event of a line.
fn timed_line(alloc: Global, mut line: Saying) -> Result<TimedEvent, TextFault>
    ensures { Answers result
        (event_at timed_event_of (record { number = line.entry.number; words = line.entry.words })) }
{
    if is_shared(&line.words) {
        return Err(TextFault::Line(line.number, LineKind::Shared));
    }
    timed_event(alloc, &mut line.words).map_err(|refusal| refusal.at(line.number))
}

/// The events of the lines that are left.
fn timed_events(alloc: Global, lines: &mut SayingLines) -> Result<TimedEvents, TextFault>
    ensures { Answers result (events_of timed_event_of lines.old) }
{
    let mut events = Vec::new(alloc);
    while let Some(line) = lines.next() {
        let event = timed_line(alloc, line)?;
        events.push(event)?;
    }
    Ok(TimedEvents::from_vec(events))
}

#[tactic(auto, unfolding(book_cmd_link::specs::TimedRuns::timed_script_of, book_cmd_link::specs::TimedRuns::timed_script_in))]
fn timed(alloc: Global, text: &[u8]) -> Result<TimedScript, TextFault>
    ensures { Answers result (timed_script_of text.now) }
{
    let missing = count_lines(text)? + 1;
    let mut lines = SayingLines::new(text);
    let head = read_head(&mut lines, missing)?;
    let events = timed_events(alloc, &mut lines)?;
    Ok(TimedScript {
        a: head.a,
        b: head.b,
        events,
    })
}

/// The script of a link file with waits, whose keys come from a key file.
///
/// `Ok` exactly where the text is in the grammar, which is that of a link file over a key file, and
/// `wait END COUNT`, COUNT from 1 to 3600, as a further event. The faults are those of `read_script`.
/// `Memory` only for want of memory.
pub fn read_timed(alloc: Global, text: &[u8]) -> Result<TimedScript, TextFault>
    ensures read { Answers result (timed_script_of text.now) }
    ensures grammar { IfOk result IsTimedScript }
{
    timed(alloc, text)
}
