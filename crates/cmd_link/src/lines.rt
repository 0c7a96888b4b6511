//! The lines of messages, and of faults.
ghost use Rattle.std.specs.Prelude.{◌≡◌, ◌++◌, ◌∷◌, [], OnOk, codes, decimal};
ghost use Rattle.book_cmd_link.specs.BgpRuns.{bgp_fault_text, message_line};
ghost use Rattle.book_lines.specs.Texts.{end_text, numbered_text, spaced};
ghost use Rattle.book_bgp.specs.Messages.{Message, message_length};
ghost use Rattle.cmd_link.specs.Places.{place_of};

use ao_base::push_decimal;
use book_base::End;
use book_bgp::BgpFault;
use std::alloc::AllocError;
use text_lines::{push_end, push_field, push_newline, push_number, push_text};

/// Where the lines of a take are from.
#[derive(Clone, Copy)]
pub(crate) struct Place {
    /// The number of the event, from 1.
    pub number: u32,
    pub end: End,
    /// The number of the end's session, from 1.
    pub session: usize,
}

/// Puts the name, the end and the number of its session behind `out`, a space in front of each.
fn push_place(out: &mut Vec<u8>, place: &Place, name: &[u8]) -> Result<(), AllocError>
    ensures { OnOk result (out.new.items ≡ out.old.items ++ spaced
        (name.now ∷ end_text place.now.end ∷ decimal place.now.session ∷ [])) }
{
    push_text(out, name)?;
    push_end(out, place.end)?;
    push_number(out, place.session as u64)
}

/// Puts the line of a message of this type and length behind `out`.
pub(crate) fn push_message(
    out: &mut Vec<u8>,
    place: &Place,
    kind: u8,
    length: usize,
) -> Result<(), AllocError>
    ensures { OnOk result ((m : Message) → m.kind ≡ kind → message_length m ≡ length
        → out.new.items ≡ out.old.items ++ message_line (place_of place.now) m) }
{
    push_decimal(out, u64::from(place.number))?;
    push_place(out, place, b"message")?;
    push_field(out, b"type", u64::from(kind))?;
    push_field(out, b"length", length as u64)?;
    push_newline(out)
}

fn fault_word(fault: BgpFault) -> &'static [u8]
    ensures { result.now ≡ bgp_fault_text fault }
{
    match fault {
        BgpFault::Marker => b"marker",
        BgpFault::Length => b"length",
        BgpFault::Kind => b"kind",
    }
}

/// Puts a fault, and the number of bytes of messages before it, behind `out`, a space in front of
/// each text.
fn push_reason(out: &mut Vec<u8>, fault: BgpFault, at: u64) -> Result<(), AllocError>
    ensures { OnOk result (out.new.items ≡ out.old.items ++ spaced
        (bgp_fault_text fault ∷ codes "at" ∷ decimal at ∷ [])) }
{
    push_text(out, fault_word(fault))?;
    push_field(out, b"at", at)
}

/// Puts the line of a fault behind `out`; so many bytes of messages stand before it.
pub(crate) fn push_fault(
    out: &mut Vec<u8>,
    place: &Place,
    fault: BgpFault,
    at: u64,
) -> Result<(), AllocError>
    ensures { OnOk result (out.new.items ≡ out.old.items ++ numbered_text place.now.number
        (codes "bgp-fault" ∷ end_text place.now.end ∷ decimal place.now.session ∷ bgp_fault_text fault ∷ codes "at"
        ∷ decimal at ∷ [])) }
{
    push_decimal(out, u64::from(place.number))?;
    push_place(out, place, b"bgp-fault")?;
    push_reason(out, fault, at)?;
    push_newline(out)
}
