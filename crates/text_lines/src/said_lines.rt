//! The lines of a text that say something, one after another.
ghost use Rattle.std.specs.Prelude.{◌≡◌, ◌+◌, ◌<◌, ◌^◌, [], ◌∷◌, MatchOption, length};
ghost use Rattle.book_base.specs.Lines.{lines_of, words_of};
ghost use Rattle.book_lines.specs.Lines.{is_comment, saying_from, saying_lines, says_something};

use crate::line_words::LineWords;
use crate::lines::Lines;
use std::marker::Model;

/// A line that says something: its number among all lines, from 1, and its words.
#[derive(Drop)]
pub struct Saying<'a> {
    pub number: u32,
    pub words: LineWords<'a>,
}

/// The lines that say something and aren't read yet: those with words, the first of which doesn't
/// begin with a number sign.
#[derive(Drop)]
pub struct SayingLines<'a> {
    lines: Lines<'a>,
    /// How many lines were read.
    number: u32,
}

impl<'a> Model for SayingLines<'a> {
    ghost use Rattle.std.specs.Prelude.{List, ◌+◌, ◌<◌, ◌^◌, length};
    ghost use Rattle.book_lines.specs.Lines.{Line, saying_from};

    ghost Value = { List Line };

    ghost view = { λ s. saying_from (s.number + 1) s.lines };

    ghost invariant = { λ s. s.number + length s.lines < 2 ^ 32 };
}

impl<'a> SayingLines<'a> {
    /// Those of a text, of which `count_lines` tells that it has fewer than 2^32 lines.
    pub fn new(text: &'a [u8]) -> SayingLines<'a>
        requires { length (lines_of text.now) < 2 ^ 32 }
        ensures { result ≡ saying_lines text.now }
    {
        SayingLines {
            lines: Lines::new(text),
            number: 0,
        }
    }

    /// The next line that says something, or None after the last.
    #[tactic(auto, unfolding(book_lines::specs::Lines::saying_from))]
    pub fn next(&mut self) -> Option<Saying<'a>>
        ensures { MatchOption result (self.old ≡ []) (λ s. self.old
            ≡ record { number = s.number; words = s.words } ∷ self.new) }
    {
        while let Some(line) = self.lines.next() {
            self.number += 1;
            if says(line) {
                return Some(Saying {
                    number: self.number,
                    words: LineWords::new(line),
                });
            }
        }
        None
    }
}

fn begins_comment(word: &[u8]) -> bool
    ensures { result ≡ is_comment word.now }
{
    matches!(word, [b'#', ..])
}

/// Whether a line says something.
#[tactic(auto, unfolding(book_lines::specs::Words::word_in, book_lines::specs::Lines::says_something))]
fn says(line: &[u8]) -> bool
    ensures { result ≡ says_something (words_of line.now) }
{
    LineWords::new(line)
        .word()
        .is_ok_and(|word| !begins_comment(word))
}
