//! The front of a packet's line: its number, when it was seen, the sockets and the key ids of its segment.
ghost use Rattle.std.specs.Prelude.{◌≡◌, ◌++◌, ◌∷◌, [], OnOk, decimal};
ghost use Rattle.book_lines.specs.Texts.{spaced};
ghost use Rattle.book_sessions.specs.CheckedLines.{dash_texts, key_id_texts, seen_time_text, segment_texts};
ghost use Rattle.book_scope_texts.specs.Addresses.{usual_address_text};
ghost use Rattle.book_sessions.specs.SessionTexts.{id_text};

use ao_base::push_decimal;
use book_base::Socket;
use book_sessions::KeyIds;
use capture_listener::key_ids;
use scope_texts::{push_address, push_instant};
use std::alloc::AllocError;
use tcp_segment::Datagram;
use text_lines::{push_number, push_text};

/// How many nanoseconds a second has.
const NANOSECONDS: u64 = 1_000_000_000;

/// Puts the number of a packet behind `out`, and when it was seen, in nanoseconds since 1970. Where memory runs
/// out a part of it may stand there.
pub(crate) fn push_front(
    out: &mut Vec<u8>,
    number: u64,
    time: Option<u64>,
) -> Result<(), AllocError>
    ensures { OnOk result (out.new.items ≡ out.old.items ++ (decimal number ++ 32 ∷ seen_time_text time)) }
{
    push_decimal(out, number)?;
    match time {
        None => push_text(out, b"-"),
        Some(time) => {
            out.push(b' ')?;
            push_instant(out, time / NANOSECONDS)
        }
    }
}

// Puts a space and the KeyID behind `out`, or a dash where there is none.
fn push_id(out: &mut Vec<u8>, id: Option<u8>) -> Result<(), AllocError>
    ensures { OnOk result (out.new.items ≡ out.old.items ++ 32 ∷ id_text id) }
{
    match id {
        None => push_text(out, b"-"),
        Some(id) => push_number(out, u64::from(id)),
    }
}

// Puts the address and the port behind `out`, with a space in front of each.
fn push_end(out: &mut Vec<u8>, socket: &Socket) -> Result<(), AllocError>
    ensures { OnOk result (out.new.items ≡ out.old.items
        ++ spaced (usual_address_text socket.now.address ∷ decimal socket.now.port ∷ [])) }
{
    out.push(b' ')?;
    push_address(out, &socket.address)?;
    push_number(out, u64::from(socket.port))
}

// Puts the KeyID and the RNextKeyID behind `out`, with a space in front of each.
fn push_ids(out: &mut Vec<u8>, ids: Option<KeyIds>) -> Result<(), AllocError>
    ensures { OnOk result (out.new.items ≡ out.old.items ++ spaced (key_id_texts ids [])) }
{
    match ids {
        None => {
            push_id(out, None)?;
            push_id(out, None)
        }
        Some(ids) => {
            push_id(out, Some(ids.key_id))?;
            push_id(out, Some(ids.rnext_key_id))
        }
    }
}

/// Puts the sockets and the key ids of a segment behind `out`, with a space in front of each. Where memory runs
/// out a part of it may stand there.
pub(crate) fn push_columns(out: &mut Vec<u8>, datagram: &Datagram<'_>) -> Result<(), AllocError>
    ensures { OnOk result (out.new.items ≡ out.old.items ++ spaced (segment_texts datagram.now [])) }
{
    push_end(out, &datagram.source())?;
    push_end(out, &datagram.destination())?;
    push_ids(out, key_ids(datagram))
}

/// Puts a dash for each of them behind `out`, for a packet without a segment.
pub(crate) fn push_dashes(out: &mut Vec<u8>) -> Result<(), AllocError>
    ensures { OnOk result (out.new.items ≡ out.old.items ++ spaced (dash_texts [])) }
{
    out.extend_from_slice(b" - - - - - -")
}
