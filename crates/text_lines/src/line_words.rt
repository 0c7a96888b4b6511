//! The words of a line, read one by one.
ghost use Rattle.std.specs.Prelude.{◌≡◌, ℕ, ◌≤◌, ◌<◌, List, drop, length, IfOk, MatchResult, Ok, Err};
ghost use Rattle.book_base.specs.Lines.{words_of};
ghost use Rattle.book_lines.specs.Words.{word_in, nothing_in, literal_in, choice_of, choice_in, end_of, end_in};
ghost use Rattle.book_lines.specs.Words.{address_in, socket_in, algorithm_in, number_in, hex_in, sized_hex_in};
ghost use Rattle.book_lines.specs.Words.{some_hex_in, byte_in};
ghost use Rattle.text_lines.specs.Readings.{gives, Tells};

use crate::word_problem::WordProblem;
use ao_base::{HexProblem, next_word, read_address, read_decimal, read_hex};
use book_base::{Address, Algorithm, Bytes, End, Socket};
use book_lines::LineKind;
use std::alloc::Global;
use std::marker::Model;

/// The words of a line that aren't read yet.
///
/// Each call reads one word or a few from the left, and answers the kind of the first faulty one: a
/// word that is missing is `Word`. After a fault no more is said of the words that are left.
#[derive(Drop)]
pub struct LineWords<'a> {
    line: &'a [u8],
    from: usize,
}

impl<'a> Model for LineWords<'a> {
    ghost Value = { List (List ℕ) };

    ghost view = { λ w. words_of (drop w.from w.line.now) };

    ghost invariant = { λ w. w.from ≤ length w.line.now };
}

impl<'a> LineWords<'a> {
    /// The words of the line.
    pub fn new(line: &'a [u8]) -> LineWords<'a>
        ensures { result ≡ words_of line.now }
    {
        LineWords { line, from: 0 }
    }

    /// The same words, to be read ahead.
    pub fn ahead(&self) -> LineWords<'a>
        ensures { result ≡ self.now }
    {
        LineWords {
            line: self.line,
            from: self.from,
        }
    }

    /// The next word; `Word` where it is missing.
    #[tactic(auto, unfolding(book_lines::specs::Words::word_in))]
    pub fn word(&mut self) -> Result<&'a [u8], LineKind>
        ensures { MatchResult result (λ w. word_in self.old ≡ Ok (record { value = w.now; rest = self.new }))
            (λ kind. word_in self.old ≡ Err kind) }
    {
        let cut = next_word(self.line, self.from).ok_or(LineKind::Word)?;
        self.from = cut.after;
        Ok(&self.line[cut.first..cut.after])
    }

    /// The end of the line; `Word` for a surplus word.
    #[tactic(auto, unfolding(book_lines::specs::Words::nothing_in))]
    pub fn nothing(&self) -> Result<(), LineKind>
        ensures { result ≡ nothing_in self.now }
    {
        match next_word(self.line, self.from) {
            None => Ok(()),
            Some(_) => Err(LineKind::Word),
        }
    }

    /// The text itself; `Word` for another word.
    #[tactic(auto, unfolding(book_lines::specs::Words::literal_in))]
    pub fn literal(&mut self, text: &[u8]) -> Result<(), LineKind>
        ensures { gives result self.new ≡ literal_in text.now self.old }
    {
        if self.word()? == text {
            Ok(())
        } else {
            Err(LineKind::Word)
        }
    }

    /// One of two texts: whether it is the other one; `Word` for a third word.
    #[tactic(auto, unfolding(book_lines::specs::Words::choice_in))]
    pub fn choice(&mut self, one: &[u8], other: &[u8]) -> Result<bool, LineKind>
        ensures { gives result self.new ≡ choice_in one.now other.now self.old }
    {
        read_choice(self.word()?, one, other).ok_or(LineKind::Word)
    }

    /// An end, `a` or `b`; `Word` for another word.
    #[tactic(auto, unfolding(book_lines::specs::Words::end_in))]
    pub fn end(&mut self) -> Result<End, LineKind>
        ensures { gives result self.new ≡ end_in self.old }
    {
        read_end(self.word()?).ok_or(LineKind::Word)
    }

    /// An address; `Word` for another word.
    #[tactic(auto, unfolding(book_lines::specs::Words::address_in))]
    pub fn address(&mut self) -> Result<Address, LineKind>
        ensures { gives result self.new ≡ address_in self.old }
    {
        read_address(self.word()?).ok_or(LineKind::Word)
    }

    /// An algorithm by its name; `Word` for another word.
    #[tactic(auto, unfolding(book_lines::specs::Words::algorithm_in))]
    pub fn algorithm(&mut self) -> Result<Algorithm, LineKind>
        ensures { gives result self.new ≡ algorithm_in self.old }
    {
        Algorithm::named(self.word()?).ok_or(LineKind::Word)
    }

    /// A decimal from `low` to `high`; `Number` for a word that is no decimal below 2^64, `Range` for
    /// another decimal.
    #[tactic(auto, unfolding(book_lines::specs::Words::number_in))]
    pub fn number(&mut self, low: u64, high: u64) -> Result<u64, LineKind>
        ensures read { gives result self.new ≡ number_in low high self.old }
        ensures small { IfOk result (λ n. n ≤ high) }
    {
        let number = read_decimal(self.word()?).ok_or(LineKind::Number)?;
        if low <= number && number <= high {
            Ok(number)
        } else {
            Err(LineKind::Range)
        }
    }

    /// A decimal of two bytes.
    pub fn short(&mut self) -> Result<u16, LineKind>
        ensures { gives result self.new ≡ number_in 0 65535 self.old }
    {
        Ok(self.number(0, u64::from(u16::MAX))? as u16)
    }

    /// A decimal of four bytes.
    pub fn long(&mut self) -> Result<u32, LineKind>
        ensures { gives result self.new ≡ number_in 0 4294967295 self.old }
    {
        Ok(self.number(0, u64::from(u32::MAX))? as u32)
    }

    /// An address and a port.
    #[tactic(auto, unfolding(book_lines::specs::Words::socket_in))]
    pub fn socket(&mut self) -> Result<Socket, LineKind>
        ensures { gives result self.new ≡ socket_in self.old }
    {
        let address = self.address()?;
        let port = self.short()?;
        Ok(Socket { address, port })
    }

    /// Bytes in hexadecimal; `Hex` for another word.
    #[tactic(auto, unfolding(book_lines::specs::Words::hex_in))]
    pub fn hex(&mut self, alloc: Global) -> Result<Bytes, WordProblem>
        ensures { Tells (gives result self.new) (hex_in self.old) }
    {
        let word = self.word()?;
        match read_hex(alloc, word) {
            Ok(bytes) => Ok(bytes),
            Err(HexProblem::Memory) => Err(WordProblem::Memory),
            Err(HexProblem::NotHex) => Err(WordProblem::Kind(LineKind::Hex)),
        }
    }

    /// Bytes in hexadecimal, from `low` to `high` of them; `Range` for another number of them.
    #[tactic(auto, unfolding(book_lines::specs::Words::sized_hex_in))]
    pub fn sized_hex(
        &mut self,
        alloc: Global,
        low: usize,
        high: usize,
    ) -> Result<Bytes, WordProblem>
        ensures read { Tells (gives result self.new) (sized_hex_in low high self.old) }
        ensures least { IfOk result (λ bytes. low ≤ length bytes) }
        ensures most { IfOk result (λ bytes. length bytes ≤ high) }
    {
        let bytes = self.hex(alloc)?;
        let length = bytes.as_slice().len();
        if low <= length && length <= high {
            Ok(bytes)
        } else {
            Err(WordProblem::Kind(LineKind::Range))
        }
    }

    /// Bytes in hexadecimal, at least one; `Range` for none.
    #[tactic(auto, unfolding(book_lines::specs::Words::some_hex_in))]
    pub fn some_hex(&mut self, alloc: Global) -> Result<Bytes, WordProblem>
        ensures { Tells (gives result self.new) (some_hex_in self.old) }
    {
        let bytes = self.hex(alloc)?;
        if bytes.as_slice().is_empty() {
            Err(WordProblem::Kind(LineKind::Range))
        } else {
            Ok(bytes)
        }
    }

    /// A byte as two digits in hexadecimal.
    #[tactic(auto, unfolding(book_lines::specs::Words::byte_in))]
    pub fn byte(&mut self, alloc: Global) -> Result<u8, WordProblem>
        ensures { Tells (gives result self.new) (byte_in self.old) }
    {
        let bytes = self.sized_hex(alloc, 1, 1)?;
        Ok(bytes.as_slice()[0])
    }
}

fn read_choice(word: &[u8], one: &[u8], other: &[u8]) -> Option<bool>
    ensures { result ≡ choice_of one.now other.now word.now }
{
    if word == one {
        Some(false)
    } else if word == other {
        Some(true)
    } else {
        None
    }
}

#[tactic(auto, unfolding(book_lines::specs::Words::end_of))]
fn read_end(word: &[u8]) -> Option<End>
    ensures { result ≡ end_of word.now }
{
    let is_b = read_choice(word, b"a", b"b")?;
    Some(if is_b { End::B } else { End::A })
}
