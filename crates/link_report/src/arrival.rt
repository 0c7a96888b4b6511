//! The texts of an answer to an arrival.
ghost use Rattle.std.specs.Prelude.{◌≡◌, ◌++◌, OnOk};
ghost use Rattle.book_lines.specs.Texts.{spaced};
ghost use Rattle.book_link.specs.Reports.{answer_texts};

use book_endpoint::Arrival;
use segment_words::{push_fault, verdict_word};
use std::alloc::AllocError;
use text_lines::push_text;

/// Puts the texts of an answer to an arrival behind `out`, a space in front of each.
pub fn push_answer(out: &mut Vec<u8>, arrival: Arrival) -> Result<(), AllocError>
    ensures { OnOk result (out.new.items ≡ out.old.items ++ spaced (answer_texts arrival)) }
{
    match arrival {
        Arrival::Bad(fault) => {
            push_text(out, b"bad")?;
            push_fault(out, fault)
        }
        Arrival::Foreign => push_text(out, b"foreign"),
        Arrival::Checksum => push_text(out, b"checksum"),
        Arrival::Closed => push_text(out, b"closed"),
        Arrival::Refused(why) => {
            push_text(out, b"refused")?;
            push_text(out, verdict_word(why))
        }
        Arrival::Unexpected => push_text(out, b"unexpected"),
        Arrival::Window => push_text(out, b"window"),
        Arrival::Challenge => push_text(out, b"challenge"),
        Arrival::NoAck => push_text(out, b"no-ack"),
        Arrival::BadAck => push_text(out, b"bad-ack"),
        Arrival::TooManyRuns => push_text(out, b"too-many-runs"),
        Arrival::Reset => push_text(out, b"reset"),
        Arrival::Taken => push_text(out, b"taken"),
    }
}
