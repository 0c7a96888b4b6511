//! The lines of a report.
ghost use Rattle.std.specs.Prelude.{◌≡◌, ◌≤◌, drop, length, take};
ghost use Rattle.book_scope_run.specs.Echoes.{behind_line, first_line};

use ao_base::past_line;
use memchr::memchr;
use std::marker::Model;

/// Where the first line of a text ends, its newline being of it.
fn line_end(text: &[u8]) -> usize
    ensures first { take result text.now ≡ first_line text.now }
    ensures behind { drop result text.now ≡ behind_line text.now }
    ensures within { result ≤ length text.now }
{
    past_line(text, memchr(b'\n', text).unwrap_or(text.len()))
}

/// The part of a report that isn't read yet.
#[derive(Drop)]
pub(crate) struct ReportLines<'a> {
    text: &'a [u8],
    from: usize,
}

impl<'a> Model for ReportLines<'a> {
    ghost use Rattle.std.specs.Prelude.{List, ℕ, ◌≤◌, drop, length};

    ghost Value = { List ℕ };

    ghost view = { λ r. drop r.from r.text.now };

    ghost invariant = { λ r. r.from ≤ length r.text.now };
}

impl<'a> ReportLines<'a> {
    pub(crate) fn new(text: &'a [u8]) -> ReportLines<'a>
        ensures { result ≡ text.now }
    {
        ReportLines { text, from: 0 }
    }

    /// The next line with its newline; nothing after the last.
    pub(crate) fn next(&mut self) -> &'a [u8]
        ensures line { result.now ≡ first_line self.old }
        ensures rest { self.new ≡ behind_line self.old }
    {
        let first = self.from;
        let length = line_end(&self.text[first..]);
        self.from = first + length;
        &self.text[first..first + length]
    }

    /// What isn't read yet.
    pub(crate) fn rest(&self) -> &'a [u8]
        ensures { result.now ≡ self.now }
    {
        &self.text[self.from..]
    }
}
