//! The lines of a text, one after another.
ghost use Rattle.std.specs.Prelude.{◌≡◌, ◌+◌, ◌≤◌, ◌<◌, [], ◌∷◌, MatchOption, MatchResult, drop, length};
ghost use Rattle.book_base.specs.Lines.{lines_of};
ghost use Rattle.book_lines.specs.Lines.{most_lines};
ghost use Rattle.book_lines.specs.declared.text_fault.TextFault.TheVariants as fault;

use ao_base::{next_line, past_line};
use book_lines::TextFault;
use std::marker::Model;

/// The most lines that an input may have.
const MOST_LINES: u32 = 20_000;

/// The lines of a text that aren't read yet.
#[derive(Drop)]
pub(crate) struct Lines<'a> {
    text: &'a [u8],
    from: usize,
}

impl<'a> Model for Lines<'a> {
    ghost use Rattle.std.specs.Prelude.{List, ℕ, ◌≤◌, drop, length};
    ghost use Rattle.book_base.specs.Lines.{lines_of};

    ghost Value = { List (List ℕ) };

    ghost view = { λ l. lines_of (drop l.from l.text.now) };

    ghost invariant = { λ l. l.from ≤ length l.text.now };
}

impl<'a> Lines<'a> {
    pub(crate) fn new(text: &'a [u8]) -> Lines<'a>
        ensures { result ≡ lines_of text.now }
    {
        Lines { text, from: 0 }
    }

    /// The next line, or None after the last.
    pub(crate) fn next(&mut self) -> Option<&'a [u8]>
        ensures { MatchOption result ((self.old ≡ []) × (self.new ≡ [])) (λ line. self.old ≡ line.now ∷ self.new) }
    {
        let cut = next_line(self.text, self.from)?;
        self.from = past_line(self.text, cut.after);
        Some(&self.text[cut.first..cut.after])
    }
}

/// How many lines a text has; `TooManyLines` exactly where they are more than 20,000.
pub fn count_lines(text: &[u8]) -> Result<u32, TextFault>
    ensures counted { MatchResult result (λ count. count ≡ length (lines_of text.now)) (λ e. e ≡ fault.TooManyLines) }
    ensures few { MatchResult result (λ count. count ≤ most_lines) (λ _. most_lines < length (lines_of text.now)) }
{
    let mut lines = Lines::new(text);
    let mut count = 0;
    while let Some(_) = lines.next() {
        if count == MOST_LINES {
            return Err(TextFault::TooManyLines);
        }
        count += 1;
    }
    Ok(count)
}
