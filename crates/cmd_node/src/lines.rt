//! The line of an answer.
ghost use Rattle.std.specs.Prelude.{◌≡◌, ◌≤◌, ◌++◌, ◌∷◌, [], OnOk, codes, decimal, length};
ghost use Rattle.book_base.specs.Hexadecimal.{hex_of};
ghost use Rattle.book_endpoint.specs.Emissions.{Emission};
ghost use Rattle.book_lines.specs.Texts.{numbered_text, spaced};
ghost use Rattle.book_link.specs.Reports.{flags_text};
ghost use Rattle.book_cmd_node.specs.NodeRuns.{NodeOutcome, node_texts, node_sent_texts};
ghost use Rattle.cmd_node.specs.Told.{Tells, TellsMade, length_told};

use crate::told::Told;
use ao_base::push_decimal;
use link_report::{flags_word, push_answer, push_details, push_took};
use std::alloc::AllocError;
use tcp_endpoint::Made;
use text_lines::{push_bytes, push_field, push_newline, push_text};

/// Puts the flags of a segment and its number behind `out`.
fn push_name(out: &mut Vec<u8>, made: &Made) -> Result<(), AllocError>
    ensures { OnOk result (out.new.items ≡ out.old.items
        ++ spaced (codes "sent" ∷ flags_text made.now.flags ∷ codes "seq" ∷ decimal made.now.number ∷ [])) }
{
    push_text(out, b"sent")?;
    push_text(out, flags_word(made.flags))?;
    push_field(out, b"seq", made.number)
}

/// Puts the bytes of a datagram behind `out`.
fn push_datagram(out: &mut Vec<u8>, bytes: &[u8]) -> Result<(), AllocError>
    ensures { OnOk result (out.new.items ≡ out.old.items ++ spaced (codes "datagram" ∷ hex_of bytes.now ∷ [])) }
{
    push_text(out, b"datagram")?;
    push_bytes(out, bytes)
}

/// Puts the words of a segment that was made behind `out`; its bytes stand in front of `room`.
fn push_sent(out: &mut Vec<u8>, made: &Made, room: &[u8]) -> Result<(), AllocError>
    requires { made.now.length ≤ length room.now }
    ensures { OnOk result ((e : Emission) → TellsMade room.now made.now e
        → out.new.items ≡ out.old.items ++ spaced (node_sent_texts e)) }
{
    push_name(out, made)?;
    push_details(out, made)?;
    push_datagram(out, &room[..made.length])
}

/// Puts the words of an answer behind `out`, a space in front of each; a segment that was made stands
/// in front of `room`.
fn push_words(out: &mut Vec<u8>, told: &Told, room: &[u8]) -> Result<(), AllocError>
    requires { length_told told.now ≤ length room.now }
    ensures { OnOk result ((o : NodeOutcome) → Tells room.now told.now o
        → out.new.items ≡ out.old.items ++ spaced (node_texts o)) }
{
    match told {
        Told::Done => push_text(out, b"ok"),
        Told::InUse => push_text(out, b"in-use"),
        Told::NodeFull => push_text(out, b"node-full"),
        Told::NoConnection => push_text(out, b"no-connection"),
        Told::Full => push_text(out, b"full"),
        Told::Closed => push_text(out, b"closed"),
        Told::Sent(made) => push_sent(out, made, room),
        Told::NoKey => push_text(out, b"no-key"),
        Told::Idle => push_text(out, b"idle"),
        Told::Nothing => push_text(out, b"nothing"),
        Told::Answered(arrival) => push_answer(out, *arrival),
        Told::Took(bytes, at_end) => push_took(out, bytes.as_slice(), *at_end),
    }
}

/// Puts the line of an answer behind `out`; `n` is the number of its event, from 1, and a segment
/// that was made stands in front of `room`.
pub(crate) fn push_told(
    out: &mut Vec<u8>,
    n: u64,
    told: &Told,
    room: &[u8],
) -> Result<(), AllocError>
    requires { length_told told.now ≤ length room.now }
    ensures { OnOk result ((o : NodeOutcome) → Tells room.now told.now o
        → out.new.items ≡ out.old.items ++ numbered_text n (node_texts o)) }
{
    push_decimal(out, n)?;
    push_words(out, told, room)?;
    push_newline(out)
}
