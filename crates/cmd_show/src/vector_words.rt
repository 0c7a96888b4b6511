//! The words that only test vectors have.
ghost use Rattle.std.specs.Prelude.{◌≡◌, ◌⊎◌, length, IfOk};
ghost use Rattle.book_lines.specs.Words.{sized_hex_in};
ghost use Rattle.text_lines.specs.Readings.{gives, Tells};
ghost use Rattle.book_cmd_check.specs.VectorWords.{message_in, context_in, covering_in};

use crate::array::array_of;
use book_base::Bytes;
use book_lines::LineKind;
use std::alloc::Global;
use text_lines::{LineWords, WordProblem};

/// A block of AES in hexadecimal.
pub(crate) fn block(alloc: Global, words: &mut LineWords) -> Result<[u8; 16], WordProblem>
    ensures { Tells (gives result words.new) (sized_hex_in 16 16 words.old) }
{
    let bytes = words.sized_hex(alloc, 16, 16)?;
    Ok(array_of(bytes.as_slice()))
}

/// A message in hexadecimal, or `-` for the empty one.
#[tactic(auto, unfolding(book_cmd_check::specs::VectorWords::message_in, book_lines::specs::Words::word_in, book_lines::specs::Words::hex_in))]
pub(crate) fn message(alloc: Global, words: &mut LineWords) -> Result<Bytes, WordProblem>
    ensures { Tells (gives result words.new) (message_in words.old) }
{
    let mut ahead = words.ahead();
    if ahead.word()? == b"-".as_slice() {
        *words = ahead;
        return Ok(Bytes::from_vec(Vec::new(alloc)));
    }
    words.hex(alloc)
}

/// The bytes of a context in hexadecimal.
#[tactic(auto, unfolding(book_cmd_check::specs::VectorWords::context_in))]
pub(crate) fn context(alloc: Global, words: &mut LineWords) -> Result<Bytes, WordProblem>
    ensures read { Tells (gives result words.new) (context_in words.old) }
    ensures length { IfOk result (λ bytes. (length bytes ≡ 20) ⊎ (length bytes ≡ 44)) }
{
    let bytes = words.hex(alloc)?;
    let length = bytes.as_slice().len();
    if length == 20 || length == 44 {
        Ok(bytes)
    } else {
        Err(WordProblem::Kind(LineKind::Range))
    }
}

/// Whether all options are under a MAC: `options` or `no-options`.
pub(crate) fn covering(words: &mut LineWords) -> Result<bool, LineKind>
    ensures { gives result words.new ≡ covering_in words.old }
{
    words.choice(b"no-options", b"options")
}
