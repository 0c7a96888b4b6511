//! The connection of a line: the sockets of its two ends, with addresses in their usual form.
ghost use Rattle.std.specs.Prelude.{◌≡◌};
ghost use Rattle.text_lines.specs.Readings.{gives};
ghost use Rattle.book_scope_plan.specs.Connections.{plan_pair_of, usual_address_beside};

use ao_base::are_two_of_a_family;
use book_base::{Address, Pair, Socket};
use book_lines::LineKind;
use scope_texts::{read_address_word, read_socket_words};
use text_lines::LineWords;

/// An address of the first one's family that differs from it; `Range` for another address.
fn usual_address_beside(a: &Address, words: &mut LineWords) -> Result<Address, LineKind>
    ensures { gives result words.new ≡ usual_address_beside a.now words.old }
{
    let b = read_address_word(words)?;
    if are_two_of_a_family(a, &b) {
        Ok(b)
    } else {
        Err(LineKind::Range)
    }
}

/// Two sockets, and no more; the first one is the local one.
#[tactic(auto, unfolding(book_scope_plan::specs::Connections::plan_pair_of))]
pub(crate) fn read_connection(words: &mut LineWords) -> Result<Pair, LineKind>
    ensures { result ≡ plan_pair_of words.old }
{
    let local = read_socket_words(words)?;
    let address = usual_address_beside(&local.address, words)?;
    let port = words.short()?;
    words.nothing()?;
    Ok(Pair {
        local,
        remote: Socket { address, port },
    })
}
