//! Sockets as words of a line.
ghost use Rattle.std.specs.Prelude.{◌≡◌};
ghost use Rattle.text_lines.specs.Readings.{gives};
ghost use Rattle.book_scope_texts.specs.AddressWords.{usual_address_in, usual_socket_in};

use crate::address::read_address;
use book_base::{Address, Socket};
use book_lines::LineKind;
use text_lines::LineWords;

/// The next word as an address in its usual form; `Word` for another word.
#[tactic(auto, unfolding(book_scope_texts::specs::AddressWords::usual_address_in))]
pub fn read_address_word(words: &mut LineWords) -> Result<Address, LineKind>
    ensures { gives result words.new ≡ usual_address_in words.old }
{
    read_address(words.word()?).ok_or(LineKind::Word)
}

/// The next two words as an address in its usual form and a port; the kind of the first faulty word:
/// `Word` for an address that is none, `Number` for a port that is no decimal, `Range` for one over 65,535.
#[tactic(auto, unfolding(book_scope_texts::specs::AddressWords::usual_socket_in))]
pub fn read_socket_words(words: &mut LineWords) -> Result<Socket, LineKind>
    ensures { gives result words.new ≡ usual_socket_in words.old }
{
    let address = read_address_word(words)?;
    let port = words.short()?;
    Ok(Socket { address, port })
}
