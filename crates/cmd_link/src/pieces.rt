//! Reading the messages of what was taken.
ghost use Rattle.std.specs.Prelude.{◌≡◌, ◌+◌, ◌≤◌, ℕ, List, length, IfOk};
ghost use Rattle.bgp_messages.specs.Readers.{StandsFor, greatest_place};
ghost use Rattle.cmd_link.specs.Reads.{IsRead};

use crate::lines::{Place, push_fault, push_message};
use bgp_messages::{BgpReader, Found};
use std::alloc::AllocError;

/// How many bytes a header has (RFC 4271, section 4.1).
const HEADER: usize = 19;

/// Has the reader take a whole piece of its stream, and puts a line for each message that it
/// completes behind `out`, and one for a fault that it reaches; answers whether it reached one.
pub(crate) fn read_piece(
    reader: &mut BgpReader,
    piece: &[u8],
    place: &Place,
    out: &mut Vec<u8>,
) -> Result<bool, AllocError>
    ensures { IfOk result (λ reached. (bytes : List ℕ) → StandsFor reader.old bytes
        → length bytes + length piece.now ≤ greatest_place
        → IsRead place.now bytes piece.now out.old.items out.new.items reader.new reached) }
{
    let mut rest = piece;
    for _ in 0..piece.len() {
        let fed = reader.feed(rest);
        match fed.found {
            Found::More => return Ok(false),
            Found::Message => {
                push_message(out, place, reader.kind(), HEADER + reader.body().len())?;
                rest = &rest[fed.used..];
            }
            Found::Fault(fault) => {
                if fed.used == 0 {
                    return Ok(false);
                }
                push_fault(out, place, fault, reader.place())?;
                return Ok(true);
            }
        }
    }
    Ok(false)
}
