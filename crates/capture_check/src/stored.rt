//! A line of stored segments: a time and a datagram.
ghost use Rattle.std.specs.Prelude.{◌≡◌, ℕ};
ghost use Rattle.book_base.specs.Lines.{words_of};
ghost use Rattle.book_lines.specs.Lines.{is_comment, says_something};
ghost use Rattle.book_cmd_check.specs.StoredLines.{stored_line, stored_of};
ghost use Rattle.capture_check.specs.Lines.{IsRead, IsStoredAs};

use book_base::Bytes;
use book_cmd_check::MOST_LINE;
use book_keys::LATEST;
use book_lines::LineKind;
use book_pcap::LONGEST_DATAGRAM;
use std::alloc::Global;
use text_lines::{LineWords, WordProblem};

/// What a line has.
#[derive(Debug, Drop)]
pub enum Stored {
    /// Nothing: it has no words, or its first word begins with a number sign.
    Empty,
    /// A time in seconds since 1970, at most `LATEST`, and the 1 to 65,575 bytes that were stored.
    Segment(u64, Bytes),
}

/// Why a line isn't read.
#[derive(Clone, Copy, Debug, PartialEq, Eq)]
pub enum LineProblem {
    /// Memory ran out.
    Memory,
    /// The line has more than 131,200 bytes, which is `Range` whatever its words; or the kind of its
    /// first faulty word.
    Bad(LineKind),
}

fn begins_comment(word: &[u8]) -> bool
    ensures { result ≡ is_comment word.now }
{
    matches!(word, [b'#', ..])
}

/// Whether a line says something.
#[tactic(auto, unfolding(book_lines::specs::Words::word_in, book_lines::specs::Lines::says_something))]
fn says(line: &[u8]) -> bool
    ensures { result ≡ says_something (words_of line.now) }
{
    let mut words = LineWords::new(line);
    match words.word() {
        Ok(word) => !begins_comment(word),
        Err(_kind) => false,
    }
}

/// A time and a datagram in hexadecimal.
fn read_words(alloc: Global, words: &mut LineWords<'_>) -> Result<Stored, WordProblem>
    ensures { (n : ℕ) → IsStoredAs n result (stored_of n words.old) }
{
    let time = words.number(0, LATEST)?;
    let bytes = words.sized_hex(alloc, 1, LONGEST_DATAGRAM)?;
    words.nothing()?;
    Ok(Stored::Segment(time, bytes))
}

/// What a line has, without its newline, as the definition says: `SECONDS HEX`, or nothing.
#[tactic(auto, unfolding(book_cmd_check::specs::StoredLines::stored_line))]
pub fn read_line(alloc: Global, line: &[u8]) -> Result<Stored, LineProblem>
    ensures { (n : ℕ) → IsRead n result (stored_line n line.now) }
{
    if line.len() > MOST_LINE {
        return Err(LineProblem::Bad(LineKind::Range));
    }
    if !says(line) {
        return Ok(Stored::Empty);
    }
    match read_words(alloc, &mut LineWords::new(line)) {
        Ok(stored) => Ok(stored),
        Err(WordProblem::Memory) => Err(LineProblem::Memory),
        Err(WordProblem::Kind(kind)) => Err(LineProblem::Bad(kind)),
    }
}
