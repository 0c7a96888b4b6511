//! A link file, read from its first line to its last.
ghost use Rattle.std.specs.Prelude.{◌≡◌, IfOk};
ghost use Rattle.book_lines.specs.declared.line_kind.LineKind.TheVariants as line_kind;
ghost use Rattle.text_lines.specs.Readings.{Answers, Tells};
ghost use Rattle.book_cmd_link.specs.LinkEvents.{link_event_of};
ghost use Rattle.book_cmd_link.specs.LinkFiles.{event_at, events_of, is_shared, key_in, keys_by, line_in, script_of};
ghost use Rattle.book_cmd_link.specs.LinkFiles.{shared_key_of};
ghost use Rattle.law_scripts.specs.Left.{leaves};
ghost use Rattle.law_scripts.specs.Scripts.{IsScript};

use super::head::{next_line, read_head};
use super::line_events::read_event;
use book_cmd_link::{KeysFrom, Script, SharedKey};
use book_keys::LONGEST_MASTER_KEY;
use book_lines::{LineKind, TextFault};
use book_link::{Event, Events};
use std::alloc::Global;
use text_lines::{LineWords, Saying, SayingLines, WordProblem, count_lines};

#[tactic(auto, unfolding(book_cmd_link::specs::LinkFiles::shared_key_of))]
fn shared_key(alloc: Global, words: &mut LineWords) -> Result<SharedKey, WordProblem>
    ensures { Tells result (shared_key_of words.old) }
{
    words.literal(b"shared")?;
    let alg = words.algorithm()?;
    let master = words.sized_hex(alloc, 1, LONGEST_MASTER_KEY)?;
    words.nothing()?;
    Ok(SharedKey { alg, master })
}

/// The line of the shared key.
#[tactic(auto, unfolding(book_cmd_link::specs::LinkFiles::line_in))]
fn key_line(alloc: Global, lines: &mut SayingLines, missing: u32) -> Result<SharedKey, TextFault>
    ensures { Answers (leaves result lines.new) (line_in missing line_kind.Shared shared_key_of lines.old) }
{
    let mut line = next_line(lines, missing, LineKind::Shared)?;
    match shared_key(alloc, &mut line.words) {
        Ok(key) => Ok(key),
        Err(WordProblem::Memory) => Err(TextFault::Memory),
        Err(WordProblem::Kind(_)) => Err(TextFault::Line(line.number, LineKind::Shared)),
    }
}

/// The shared key, where there is no key file.
#[tactic(auto, unfolding(book_cmd_link::specs::LinkFiles::key_in))]
fn key(
    alloc: Global,
    keys: KeysFrom,
    lines: &mut SayingLines,
    missing: u32,
) -> Result<Option<SharedKey>, TextFault>
    ensures { Answers (leaves result lines.new) (key_in keys missing lines.old) }
{
    match keys {
        KeysFrom::KeyFile => Ok(None),
        KeysFrom::LinkFile => Ok(Some(key_line(alloc, lines, missing)?)),
    }
}

/// Whether the line's first word is `shared`.
#[tactic(auto, unfolding(book_cmd_link::specs::LinkFiles::is_shared, book_lines::specs::Words::word_in))]
pub(crate) fn is_shared(words: &LineWords) -> bool
    ensures { result ≡ is_shared words.now }
{
    words
        .ahead()
        .word()
        .is_ok_and(|word| word == b"shared".as_slice())
}

/// The event of a line.
fn event_line(alloc: Global, mut line: Saying) -> Result<Event, TextFault>
    ensures { Answers result
        (event_at link_event_of (record { number = line.entry.number; words = line.entry.words })) }
{
    if is_shared(&line.words) {
        return Err(TextFault::Line(line.number, LineKind::Shared));
    }
    read_event(alloc, &mut line.words).map_err(|refusal| refusal.at(line.number))
}

/// The events of the lines that are left.
fn events(alloc: Global, lines: &mut SayingLines) -> Result<Events, TextFault>
    ensures { Answers result (events_of link_event_of lines.old) }
{
    let mut events = Vec::new(alloc);
    while let Some(line) = lines.next() {
        let event = event_line(alloc, line)?;
        events.push(event)?;
    }
    Ok(Events::from_vec(events))
}

#[tactic(auto, unfolding(book_cmd_link::specs::LinkFiles::script_of, book_cmd_link::specs::LinkFiles::script_in))]
fn read(alloc: Global, keys: KeysFrom, text: &[u8]) -> Result<Script, TextFault>
    ensures { Answers result (script_of keys text.now) }
{
    let missing = count_lines(text)? + 1;
    let mut lines = SayingLines::new(text);
    let head = read_head(&mut lines, missing)?;
    let shared = key(alloc, keys, &mut lines, missing)?;
    let events = events(alloc, &mut lines)?;
    Ok(Script {
        a: head.a,
        b: head.b,
        shared,
        events,
    })
}

/// The script of a link file.
///
/// `Ok` exactly where the text is in the grammar. `TooManyLines` exactly where it has more than
/// 20,000 lines; else `Line` is the first faulty line, counted from 1 among all lines, with the
/// kind of its first faulty word: `Header` for the three lines of the head, `Shared` for the line of
/// the shared key and for one that stands elsewhere. A line of these that is missing has the number
/// after all lines. `Memory` only for want of memory.
pub fn read_script(alloc: Global, keys: KeysFrom, text: &[u8]) -> Result<Script, TextFault>
    ensures read { Answers result (script_of keys text.now) }
    ensures grammar { IfOk result IsScript }
    ensures key { IfOk result (λ script. keys_by script.shared ≡ keys) }
{
    read(alloc, keys, text)
}
