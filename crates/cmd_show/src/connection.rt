//! The connection of a line: the sockets of its two ends.
ghost use Rattle.std.specs.Prelude.{◌≡◌};
ghost use Rattle.text_lines.specs.Readings.{gives};
ghost use Rattle.book_cmd_link.specs.LintTexts.{address_beside, lint_pair_of};

use ao_base::are_two_of_a_family;
use book_base::{Address, Pair, Socket};
use book_lines::LineKind;
use text_lines::LineWords;

/// An address of the first one's family that differs from it; `Range` for another address.
fn address_beside(a: &Address, words: &mut LineWords) -> Result<Address, LineKind>
    ensures { gives result words.new ≡ address_beside a.now words.old }
{
    let b = words.address()?;
    if are_two_of_a_family(a, &b) {
        Ok(b)
    } else {
        Err(LineKind::Range)
    }
}

/// Two sockets, and no more; the first one is the local one.
#[tactic(auto, unfolding(book_cmd_link::specs::LintTexts::lint_pair_of))]
pub(crate) fn read_connection(words: &mut LineWords) -> Result<Pair, LineKind>
    ensures { result ≡ lint_pair_of words.old }
{
    let local = words.socket()?;
    let address = address_beside(&local.address, words)?;
    let port = words.short()?;
    words.nothing()?;
    Ok(Pair {
        local,
        remote: Socket { address, port },
    })
}
