//! Lines of a text and words of a line.
ghost use Rattle.std.specs.Prelude.{◌≡◌, ℕ, ◌+◌, ◌≤◌, ◌<◌, min, List, [], not, length, drop, position, MatchOption};
ghost use Rattle.std.specs.List.{position_or_len, prefix_len};
ghost use Rattle.book_base.specs.Lines.{is_blank, is_newline, lines_of, words_of};
ghost use Rattle.ao_base.specs.Cuts.{IsNextLine, IsNextWord};

use memchr::{memchr, memchr3};

/// A part of a text: the bytes from the place `first` up to and without the place `after`.
#[derive(Clone, Copy, Debug, PartialEq, Eq)]
pub struct Cut {
    pub first: usize,
    pub after: usize,
}

/// The line that begins at `from`, which is at most the length of the text; None exactly where no
/// line is left.
///
/// A line ends at a newline byte or at the end of the text, and a last line without bytes isn't
/// one. `after` is the end of the line without its newline, and the next line begins where `past_line`
/// says.
pub fn next_line(text: &[u8], from: usize) -> Option<Cut>
    requires { from ≤ length text.now }
    ensures { MatchOption result (lines_of (drop from text.now) ≡ []) (λ cut. IsNextLine text.now from cut) }
{
    let rest = &text[from..];
    if rest.is_empty() {
        return None;
    }
    Some(Cut {
        first: from,
        after: from + line_length(rest),
    })
}

/// Where the line after one that ends at `after` begins: past its newline, or the end of the text.
/// `after` is at most the length of the text.
pub fn past_line(text: &[u8], after: usize) -> usize
    requires { after ≤ length text.now }
    ensures place { result ≡ min (after + 1) (length text.now) }
    ensures rest { drop result text.now ≡ drop (after + 1) text.now }
{
    if after < text.len() { after + 1 } else { after }
}

/// The first word at or after `from`, which is at most the length of the line; None exactly where
/// no word is left.
///
/// Words are separated by spaces, tabs and carriage returns. The next word is found from `after` on.
pub fn next_word(line: &[u8], from: usize) -> Option<Cut>
    requires { from ≤ length line.now }
    ensures { MatchOption result (words_of (drop from line.now) ≡ []) (λ cut. IsNextWord line.now from cut) }
{
    let first = from + blanks_length(&line[from..]);
    let rest = &line[first..];
    if rest.is_empty() {
        return None;
    }
    Some(Cut {
        first,
        after: first + word_length(rest),
    })
}

// How many bytes stand before the first newline.
fn line_length(text: &[u8]) -> usize
    ensures length { result ≡ position_or_len is_newline text.now }
    ensures within { result ≤ length text.now }
{
    memchr(b'\n', text).unwrap_or(text.len())
}

// How many blanks stand in front.
fn blanks_length(line: &[u8]) -> usize
    ensures length { result ≡ prefix_len is_blank line.now }
    ensures within { result ≤ length line.now }
{
    word_at(line).unwrap_or(line.len())
}

// How many bytes stand before the first blank.
fn word_length(line: &[u8]) -> usize
    ensures length { result ≡ position_or_len is_blank line.now }
    ensures within { result ≤ length line.now }
{
    memchr3(b' ', b'\t', b'\r', line).unwrap_or(line.len())
}

fn word_at(line: &[u8]) -> Option<usize>
    ensures { result ≡ position (λ byte. not (is_blank byte)) line.now }
{
    line.iter().position(|byte| !is_blank(*byte))
}

fn is_blank(byte: u8) -> bool
    ensures { result ≡ is_blank byte }
{
    byte == b' ' || byte == b'\t' || byte == b'\r'
}
