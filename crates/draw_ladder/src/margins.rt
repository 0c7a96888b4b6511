//! The words beside the ladder.
ghost use Rattle.std.specs.Prelude.{◌≡◌, ◌++◌, ◌∷◌, OnOk, decimal};
ghost use Rattle.book_lines.specs.Texts.{spaced};
ghost use Rattle.book_draw.specs.Ladders.{answer_margin};
ghost use Rattle.book_draw.specs.Margins.{call_margin, clock_margin, deed_texts, fate_word, making_word};
ghost use Rattle.book_draw.specs.Margins.{phase_margin, reply_texts};
ghost use Rattle.book_link.specs.Reports.{end_mark};

use book_draw::{Deed, Reply};
use book_endpoint::{Arrival, Phase};
use book_link::Transmission;
use link_report::push_answer;
use scope_texts::push_instant;
use segment_words::phase_word;
use std::alloc::AllocError;
use text_lines::{push_field, push_number, push_text};

fn push_deed(out: &mut Vec<u8>, deed: Deed) -> Result<(), AllocError>
    ensures { OnOk result (out.new.items ≡ out.old.items ++ spaced (deed_texts deed)) }
{
    match deed {
        Deed::Connect => push_text(out, b"open"),
        Deed::Listen => push_text(out, b"listen"),
        Deed::Start => push_text(out, b"start"),
        Deed::Give(count) => push_field(out, b"give", count),
        Deed::Send => push_text(out, b"send"),
        Deed::Resend => push_text(out, b"resend"),
        Deed::Deliver(name) => push_field(out, b"deliver", u64::from(name)),
        Deed::Inject => push_text(out, b"inject"),
        Deed::Alter(name) => push_field(out, b"alter", u64::from(name)),
        Deed::Take => push_text(out, b"take"),
        Deed::Close => push_text(out, b"close"),
        Deed::Abort => push_text(out, b"abort"),
        Deed::Add => push_text(out, b"add"),
        Deed::Withdraw(row) => push_field(out, b"withdraw", u64::from(row)),
    }
}

/// How many bytes were taken, and whether the end of the stream is reached.
fn push_took(out: &mut Vec<u8>, count: u64, end_shown: bool) -> Result<(), AllocError>
    ensures { OnOk result (out.new.items ≡ out.old.items ++ spaced (decimal count ∷ end_mark end_shown)) }
{
    push_number(out, count)?;
    if end_shown {
        push_text(out, b"end")?;
    }
    Ok(())
}

fn push_reply(out: &mut Vec<u8>, reply: Reply) -> Result<(), AllocError>
    ensures { OnOk result (out.new.items ≡ out.old.items ++ spaced (reply_texts reply)) }
{
    match reply {
        Reply::Done => Ok(()),
        Reply::Took(count, end_shown) => push_took(out, count, end_shown),
        Reply::Added(row) => push_field(out, b"row", u64::from(row)),
        Reply::IsnUsed => push_text(out, b"isn-used"),
        Reply::NoSession => push_text(out, b"no-session"),
        Reply::NoSegment => push_text(out, b"no-segment"),
        Reply::NoPlace => push_text(out, b"no-place"),
        Reply::Full => push_text(out, b"full"),
        Reply::Closed => push_text(out, b"closed"),
        Reply::NoKey => push_text(out, b"no-key"),
        Reply::Idle => push_text(out, b"idle"),
        Reply::Nothing => push_text(out, b"nothing"),
        Reply::TooManyRows => push_text(out, b"too-many-rows"),
        Reply::Overlap(row) => push_field(out, b"overlap", u64::from(row)),
        Reply::NoRow => push_text(out, b"no-row"),
    }
}

/// A call, and what came of it.
pub(crate) fn push_call(out: &mut Vec<u8>, deed: Deed, reply: Reply) -> Result<(), AllocError>
    ensures { OnOk result (out.new.items ≡ out.old.items ++ call_margin deed reply) }
{
    push_deed(out, deed)?;
    push_reply(out, reply)
}

fn making_word(transmission: Transmission) -> &'static [u8]
    ensures { result.now ≡ making_word transmission }
{
    match transmission {
        Transmission::New => b" send",
        Transmission::Again => b" resend",
    }
}

fn fate_word(comes: bool) -> &'static [u8]
    ensures { result.now ≡ fate_word comes }
{
    if comes { b"" } else { b" lost" }
}

/// That a segment is made, or made again, and whether it never comes.
pub(crate) fn push_making(
    out: &mut Vec<u8>,
    transmission: Transmission,
    comes: bool,
) -> Result<(), AllocError>
    ensures { OnOk result (out.new.items ≡ out.old.items ++ (making_word transmission ++ fate_word comes)) }
{
    out.extend_from_slice(making_word(transmission))?;
    out.extend_from_slice(fate_word(comes))
}

/// A clock's time.
pub(crate) fn push_clock(out: &mut Vec<u8>, seconds: u64) -> Result<(), AllocError>
    ensures { OnOk result (out.new.items ≡ out.old.items ++ clock_margin seconds) }
{
    out.extend_from_slice(b" clock ")?;
    push_instant(out, seconds)
}

/// The phase that a session is in now.
pub(crate) fn push_phase(out: &mut Vec<u8>, phase: Phase) -> Result<(), AllocError>
    ensures { OnOk result (out.new.items ≡ out.old.items ++ phase_margin phase) }
{
    out.extend_from_slice(b" now ")?;
    out.extend_from_slice(phase_word(phase))
}

/// Puts the words for an answer to an arrival behind `out`.
pub fn push_answered(out: &mut Vec<u8>, answer: Arrival) -> Result<(), AllocError>
    ensures { OnOk result (out.new.items ≡ out.old.items ++ answer_margin answer) }
{
    push_answer(out, answer)
}
