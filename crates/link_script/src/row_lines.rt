//! The line that adds a row to a table.
ghost use Rattle.std.specs.Prelude.{◌≡◌};
ghost use Rattle.book_keys.specs.Columns.{direction_of};
ghost use Rattle.book_keys.specs.Rows.{greatest_key_id};
ghost use Rattle.book_lines.specs.declared.line_kind.LineKind.TheVariants as line_kind;
ghost use Rattle.book_lines.specs.Words.{number_in, word_as};
ghost use Rattle.text_lines.specs.Readings.{gives, Tells};
ghost use Rattle.book_cmd_link.specs.LinkEvents.{add_of};

use book_keys::{Direction, GREATEST_KEY_ID, LATEST, LONGEST_MASTER_KEY, Lifetime, NewRow};
use book_lines::LineKind;
use book_link::{Action, Event};
use std::alloc::Global;
use text_lines::{LineWords, WordProblem};

/// The Direction that a word names.
#[tactic(auto, unfolding(book_keys::specs::Columns::direction_of))]
fn direction_named(word: &[u8]) -> Option<Direction>
    ensures { result ≡ direction_of word.now }
{
    if word == b"in".as_slice() {
        Some(Direction::Receive)
    } else if word == b"out".as_slice() {
        Some(Direction::Send)
    } else if word == b"both".as_slice() {
        Some(Direction::Both)
    } else if word == b"disabled".as_slice() {
        Some(Direction::Disabled)
    } else {
        None
    }
}

/// A word of a Direction.
fn direction(words: &mut LineWords) -> Result<Direction, LineKind>
    ensures { gives result words.new ≡ word_as direction_of line_kind.Word words.old }
{
    direction_named(words.word()?).ok_or(LineKind::Word)
}

fn key_id(words: &mut LineWords) -> Result<u8, LineKind>
    ensures { gives result words.new ≡ number_in 0 greatest_key_id words.old }
{
    Ok(words.number(0, GREATEST_KEY_ID)? as u8)
}

/// The row that `add` adds, of the words after the name.
#[tactic(auto, unfolding(book_cmd_link::specs::LinkEvents::add_of))]
pub(crate) fn add(alloc: Global, words: &mut LineWords) -> Result<Event, WordProblem>
    ensures { Tells result (add_of words.old) }
{
    let end = words.end()?;
    let recv_id = key_id(words)?;
    let send_id = key_id(words)?;
    let algorithm = words.algorithm()?;
    let master = words.sized_hex(alloc, 1, LONGEST_MASTER_KEY)?;
    let with_options = words.choice(b"no-options", b"options")?;
    let direction = direction(words)?;
    let first_sent = words.number(0, LATEST)?;
    let last_sent = words.number(first_sent, LATEST)?;
    let first_accepted = words.number(0, LATEST)?;
    let last_accepted = words.number(first_accepted, LATEST)?;
    words.nothing()?;
    let row = NewRow {
        recv_id,
        send_id,
        algorithm,
        master,
        with_options,
        direction,
        sending: Lifetime {
            first: first_sent,
            last: last_sent,
        },
        accepting: Lifetime {
            first: first_accepted,
            last: last_accepted,
        },
    };
    Ok(Event::At(end, Action::AddRow(row)))
}
