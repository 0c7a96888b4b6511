//! The events of a link, each read from the words of its line.
ghost use Rattle.std.specs.Prelude.{◌≡◌, ◌≤◌, ℕ};
ghost use Rattle.book_link.specs.declared.event.Action.{Action as OneAction};
ghost use Rattle.book_lines.specs.declared.line_kind.LineKind.TheVariants as line_kind;
ghost use Rattle.book_lines.specs.Words.{word_as};
ghost use Rattle.text_lines.specs.Readings.{gives, Tells};
ghost use Rattle.book_cmd_link.specs.LinkEvents.{event_of_end, event_of_number, start_of, give_of, fill_of};
ghost use Rattle.book_cmd_link.specs.LinkEvents.{inject_of, fixing_of, alter_of, dump_of, event_named};
ghost use Rattle.book_cmd_link.specs.LinkEvents.{link_event_of};
ghost use Rattle.link_script.specs.Made.{MakesOf};
ghost use Rattle.link_script.specs.Names.{name_text};

use super::name::Name;
use super::row_lines::add;
use book_keys::{LATEST, ROW_LIMIT};
use book_lines::LineKind;
use book_link::{Action, Event, Fixing};
use book_pcap::LONGEST_DATAGRAM;
use std::alloc::Global;
use text_lines::{LineWords, WordProblem};

/// The greatest initial sequence number (RFC 9293, section 3.4.1).
const MOST_ISN: u64 = 4_294_967_295;

/// The most segments of a link: as many as a link file has lines.
const SEGMENTS: u64 = 20_000;

/// The most rows of a table.
const MOST_ROWS: u64 = ROW_LIMIT as u64;

/// The event of an end alone, which does this.
fn end_alone(words: &mut LineWords, action: Action) -> Result<Event, LineKind>
    ensures { result ≡ event_of_end action words.old }
{
    let end = words.end()?;
    words.nothing()?;
    Ok(Event::At(end, action))
}

/// The event of an end and a number from `low` to `high`, of which `made` makes what the end does.
fn numbered<F: FnOnce(u64) -> Action>(
    words: &mut LineWords,
    low: u64,
    high: u64,
    made: F,
) -> Result<Event, LineKind>
    requires { (n : ℕ) → n ≤ high → F.pre made n }
    ensures { (meant : ℕ → OneAction) → MakesOf (F.post made) meant
        → result ≡ event_of_number meant low high words.old }
{
    let end = words.end()?;
    let number = words.number(low, high)?;
    words.nothing()?;
    Ok(Event::At(end, made(number)))
}

#[tactic(auto, unfolding(book_cmd_link::specs::LinkEvents::start_of))]
fn start(words: &mut LineWords) -> Result<Event, LineKind>
    ensures { result ≡ start_of words.old }
{
    let end = words.end()?;
    let own = words.long()?;
    let peer = words.long()?;
    words.nothing()?;
    Ok(Event::At(end, Action::Start(own, peer)))
}

#[tactic(auto, unfolding(book_cmd_link::specs::LinkEvents::give_of))]
fn give(alloc: Global, words: &mut LineWords) -> Result<Event, WordProblem>
    ensures { Tells result (give_of words.old) }
{
    let end = words.end()?;
    let bytes = words.some_hex(alloc)?;
    words.nothing()?;
    Ok(Event::At(end, Action::Give(bytes)))
}

#[tactic(auto, unfolding(book_cmd_link::specs::LinkEvents::fill_of))]
fn fill(alloc: Global, words: &mut LineWords) -> Result<Event, WordProblem>
    ensures { Tells result (fill_of words.old) }
{
    let end = words.end()?;
    let count = words.short()?;
    let byte = words.byte(alloc)?;
    words.nothing()?;
    Ok(Event::At(end, Action::Fill(count, byte)))
}

#[tactic(auto, unfolding(book_cmd_link::specs::LinkEvents::inject_of))]
fn inject(alloc: Global, words: &mut LineWords) -> Result<Event, WordProblem>
    ensures { Tells result (inject_of words.old) }
{
    let end = words.end()?;
    let datagram = words.sized_hex(alloc, 1, LONGEST_DATAGRAM)?;
    words.nothing()?;
    Ok(Event::At(end, Action::Inject(datagram)))
}

/// What a word says of the TCP checksum of an altered copy.
#[tactic(auto, unfolding(book_cmd_link::specs::LinkEvents::fixing_of))]
fn fixing_named(word: &[u8]) -> Option<Fixing>
    ensures { result ≡ fixing_of word.now }
{
    if word == b"keep".as_slice() {
        Some(Fixing::Keep)
    } else if word == b"fix".as_slice() {
        Some(Fixing::Fix)
    } else {
        None
    }
}

/// A word that says whether a TCP checksum is kept or set.
fn fixing(words: &mut LineWords) -> Result<Fixing, LineKind>
    ensures { gives result words.new ≡ word_as fixing_of line_kind.Word words.old }
{
    fixing_named(words.word()?).ok_or(LineKind::Word)
}

#[tactic(auto, unfolding(book_cmd_link::specs::LinkEvents::alter_of))]
fn alter(alloc: Global, words: &mut LineWords) -> Result<Event, WordProblem>
    ensures { Tells result (alter_of words.old) }
{
    let end = words.end()?;
    let segment = words.number(1, SEGMENTS)? as u32;
    let place = words.short()?;
    let mask = words.byte(alloc)?;
    let fixing = fixing(words)?;
    words.nothing()?;
    Ok(Event::At(end, Action::Alter(segment, place, mask, fixing)))
}

#[tactic(auto, unfolding(book_cmd_link::specs::LinkEvents::dump_of))]
fn dump(words: &mut LineWords) -> Result<Event, LineKind>
    ensures { result ≡ dump_of words.old }
{
    let segment = words.number(1, SEGMENTS)? as u32;
    words.nothing()?;
    Ok(Event::Dump(segment))
}

/// The event that the name and the words after it make.
#[tactic(auto, unfolding(book_cmd_link::specs::LinkEvents::event_named))]
fn named(alloc: Global, name: Name, words: &mut LineWords) -> Result<Event, WordProblem>
    ensures { Tells result (event_named (name_text name) words.old) }
{
    match name {
        Name::Clock => Ok(numbered(words, 0, LATEST, Action::Clock)?),
        Name::Open => Ok(numbered(words, 0, MOST_ISN, |n| Action::Connect(n as u32))?),
        Name::Listen => Ok(numbered(words, 0, MOST_ISN, |n| Action::Listen(n as u32))?),
        Name::Start => Ok(start(words)?),
        Name::Give => give(alloc, words),
        Name::Fill => fill(alloc, words),
        Name::Send => Ok(end_alone(words, Action::Send)?),
        Name::Resend => Ok(end_alone(words, Action::Resend)?),
        Name::Deliver => Ok(numbered(words, 1, SEGMENTS, |n| Action::Deliver(n as u32))?),
        Name::Inject => inject(alloc, words),
        Name::Alter => alter(alloc, words),
        Name::Take => Ok(numbered(words, 0, 65_535, |n| Action::Take(n as u16))?),
        Name::Close => Ok(end_alone(words, Action::Close)?),
        Name::Abort => Ok(end_alone(words, Action::Abort)?),
        Name::Add => add(alloc, words),
        Name::Withdraw => Ok(numbered(words, 1, MOST_ROWS, |n| Action::Withdraw(n as u8))?),
        Name::Dump => Ok(dump(words)?),
    }
}

/// The event that the words of a line make.
///
/// `Kind` is the kind of the first faulty word, `Word` where it isn't one that is expected there or
/// is missing or surplus, `Number` where it isn't a decimal below 2^64, `Hex` where it isn't
/// hexadecimal, and `Range` where a number or a length is out of its range. `Memory` only for want
/// of memory. No more is said of the words that are left.
#[tactic(auto, unfolding(book_cmd_link::specs::LinkEvents::link_event_of), using(crate::proofs::NameLaws::named_or_not))]
pub(crate) fn read_event(alloc: Global, words: &mut LineWords) -> Result<Event, WordProblem>
    ensures { Tells result (link_event_of words.old) }
{
    match Name::read(words.word()?) {
        Some(name) => named(alloc, name, words),
        None => Err(WordProblem::Kind(LineKind::Word)),
    }
}
