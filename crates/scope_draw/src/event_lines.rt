//! The lines of a link file's events, as they stand in it.
ghost use Rattle.std.specs.Prelude.{◌≡◌, ◌∷◌, [], MatchOption, drop, filter};
ghost use Rattle.book_base.specs.Lines.{lines_of};
ghost use Rattle.book_scope_run.specs.Echoes.{is_saying, lines_of_events};
ghost use Rattle.book_lines.specs.Lines.{is_comment};

use ao_base::{next_line, past_line};
use book_cmd_link::KeysFrom;
use std::marker::Model;
use text_lines::LineWords;

fn begins_comment(word: &[u8]) -> bool
    ensures { result ≡ is_comment word.now }
{
    matches!(word, [b'#', ..])
}

/// Whether a line says something.
#[tactic(auto, unfolding(book_lines::specs::Words::word_in, book_lines::specs::Lines::says_something))]
fn is_saying(line: &[u8]) -> bool
    ensures { result ≡ is_saying line.now }
{
    LineWords::new(line)
        .word()
        .is_ok_and(|word| !begins_comment(word))
}

/// The lines of a text that say something and aren't read yet.
#[derive(Drop)]
pub(crate) struct EventLines<'a> {
    text: &'a [u8],
    from: usize,
}

impl<'a> Model for EventLines<'a> {
    ghost use Rattle.std.specs.Prelude.{List, ℕ, ◌≤◌, drop, filter, length};
    ghost use Rattle.book_base.specs.Lines.{lines_of};
    ghost use Rattle.book_scope_run.specs.Echoes.{is_saying};

    ghost Value = { List (List ℕ) };

    ghost view = { λ l. filter is_saying (lines_of (drop l.from l.text.now)) };

    ghost invariant = { λ l. l.from ≤ length l.text.now };
}

impl<'a> EventLines<'a> {
    fn new(text: &'a [u8]) -> EventLines<'a>
        ensures { result ≡ filter is_saying (lines_of text.now) }
    {
        EventLines { text, from: 0 }
    }

    /// Those of the events of a link file, whose key stands in a file of its own or in one of its lines.
    #[tactic(auto, unfolding(book_scope_run::specs::Echoes::lines_of_events))]
    pub(crate) fn of(keys: KeysFrom, text: &'a [u8]) -> EventLines<'a>
        ensures { result ≡ lines_of_events keys text.now }
    {
        let mut lines = EventLines::new(text);
        lines.skip_head();
        if keys == KeysFrom::LinkFile {
            lines.next();
        }
        lines
    }

    /// Passes over the three lines in front.
    fn skip_head(&mut self)
        ensures { self.new ≡ drop 3 self.old }
    {
        self.next();
        self.next();
        self.next();
    }

    /// The next line, or None after the last.
    pub(crate) fn next(&mut self) -> Option<&'a [u8]>
        ensures line { MatchOption result (self.old ≡ []) (λ line. self.old ≡ line.now ∷ self.new) }
        ensures rest { self.new ≡ drop 1 self.old }
    {
        while let Some(cut) = next_line(self.text, self.from) {
            self.from = past_line(self.text, cut.after);
            let line = &self.text[cut.first..cut.after];
            if is_saying(line) {
                return Some(line);
            }
        }
        None
    }
}
