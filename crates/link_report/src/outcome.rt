//! What an event of a link answers, and the line of it.
ghost use Rattle.std.specs.Prelude.{◌≡◌, ◌++◌, ◌∷◌, [], ℕ, List, OnOk, codes, decimal};
ghost use Rattle.book_base.specs.Hexadecimal.{hex_of};
ghost use Rattle.book_lines.specs.Texts.{spaced};
ghost use Rattle.book_link.specs.Outcomes as book;
ghost use Rattle.book_link.specs.Reports.{end_mark, flags_text, hex_or_none, lines_from, number_text, outcome_line};
ghost use Rattle.book_link.specs.Reports.{outcome_texts};
ghost use Rattle.link_report.specs.Outcomes.{AreShown, Shows};

use crate::arrival::push_answer;
use ao_base::push_decimal;
use book_base::Bytes;
use book_endpoint::Arrival;
use std::alloc::AllocError;
use tcp_endpoint::Made;
use text_lines::{push_bytes, push_field, push_newline, push_number, push_text};

/// What an event of a link answers: all that a report says of it, and beside, of a segment that was
/// made, the row that it was sealed under and the context of its key.
#[derive(Debug, Drop)]
pub enum Outcome {
    /// It was done.
    Done,
    /// The end used this initial sequence number before.
    IsnUsed,
    /// The end has no session.
    NoSession,
    /// No segment of this name was made.
    NoSegment,
    /// The place is past the segment's bytes.
    NoPlace,
    /// The bytes aren't taken, for want of room.
    Full,
    /// The bytes aren't taken, since the session was closed.
    Closed,
    /// A segment was made: its name, from 1, and what is told of it.
    Sent(u32, Made),
    /// No row is sendable.
    NoKey,
    /// There is nothing to send.
    Idle,
    /// There is nothing to send again.
    Nothing,
    /// The answer to a datagram that came.
    Arrival(Arrival),
    /// The bytes that were taken, and whether the end of the stream is reached.
    Took(Bytes, bool),
    /// The bytes of a segment that was made.
    Image(Bytes),
    /// The row was added under this number.
    Added(u8),
    /// The table has all its rows.
    TooManyRows,
    /// The row overlaps the one with this number.
    Overlap(u8),
    /// The table has no such row.
    NoRow,
}

/// The word for the flags of a segment: S, SA, AP, AF, A or R.
pub fn flags_word(flags: u8) -> &'static [u8]
    ensures { result.now ≡ flags_text flags }
{
    match flags {
        0x02 => b"S",
        0x12 => b"SA",
        0x18 => b"AP",
        0x11 => b"AF",
        0x10 => b"A",
        _ => b"R",
    }
}

/// Puts the number behind `out`, or a dash for none, a space in front.
pub(crate) fn push_known(out: &mut Vec<u8>, number: Option<u64>) -> Result<(), AllocError>
    ensures { OnOk result (out.new.items ≡ out.old.items ++ 32 ∷ number_text number) }
{
    match number {
        Some(number) => push_number(out, number),
        None => push_text(out, b"-"),
    }
}

/// Puts the name of a segment, its flags and its number behind `out`.
fn push_name(out: &mut Vec<u8>, name: u32, made: &Made) -> Result<(), AllocError>
    ensures { OnOk result (out.new.items ≡ out.old.items
        ++ spaced (codes "sent" ∷ decimal name ∷ flags_text made.now.flags ∷ codes "seq" ∷ decimal made.now.number
        ∷ [])) }
{
    push_field(out, b"sent", u64::from(name))?;
    push_text(out, flags_word(made.flags))?;
    push_field(out, b"seq", made.number)
}

/// Puts what a segment acknowledges, how much it carries and its two ids behind `out`, a space in front
/// of each word.
pub fn push_details(out: &mut Vec<u8>, made: &Made) -> Result<(), AllocError>
    ensures { OnOk result (out.new.items ≡ out.old.items
        ++ spaced (codes "ack" ∷ number_text made.now.ack ∷ codes "len" ∷ decimal made.now.payload ∷ codes "key"
        ∷ decimal made.now.sending.key_id
        ∷ codes "next" ∷ decimal made.now.sending.rnext ∷ [])) }
{
    push_text(out, b"ack")?;
    push_known(out, made.ack)?;
    push_field(out, b"len", made.payload as u64)?;
    push_field(out, b"key", u64::from(made.sending.key_id))?;
    push_field(out, b"next", u64::from(made.sending.rnext))
}

/// Puts the words of a segment that was made behind `out`.
fn push_made(out: &mut Vec<u8>, name: u32, made: &Made) -> Result<(), AllocError>
    ensures { OnOk result (out.new.items ≡ out.old.items
        ++ spaced (codes "sent" ∷ decimal name ∷ flags_text made.now.flags ∷ codes "seq" ∷ decimal made.now.number
        ∷ codes "ack" ∷ number_text made.now.ack ∷ codes "len" ∷ decimal made.now.payload ∷ codes "key"
        ∷ decimal made.now.sending.key_id
        ∷ codes "next" ∷ decimal made.now.sending.rnext ∷ [])) }
{
    push_name(out, name, made)?;
    push_details(out, made)?;
    Ok(())
}

/// Puts the bytes in hexadecimal behind `out`, or a dash for none, a space in front.
fn push_content(out: &mut Vec<u8>, bytes: &[u8]) -> Result<(), AllocError>
    ensures { OnOk result (out.new.items ≡ out.old.items ++ 32 ∷ hex_or_none bytes.now) }
{
    match bytes {
        [] => push_text(out, b"-"),
        [_, ..] => push_bytes(out, bytes),
    }
}

/// Puts the mark of the end of a stream behind `out`, where it is reached.
fn push_mark(out: &mut Vec<u8>, end_shown: bool) -> Result<(), AllocError>
    ensures { OnOk result (out.new.items ≡ out.old.items ++ spaced (end_mark end_shown)) }
{
    if end_shown {
        push_text(out, b"end")?;
    }
    Ok(())
}

/// Puts the words of bytes that were taken behind `out`, and whether the end of the stream is reached.
pub fn push_took(out: &mut Vec<u8>, bytes: &[u8], end_shown: bool) -> Result<(), AllocError>
    ensures { OnOk result (out.new.items ≡ out.old.items ++ spaced (outcome_texts (book.Took bytes.now end_shown))) }
{
    push_text(out, b"took")?;
    push_content(out, bytes)?;
    push_mark(out, end_shown)
}

/// Puts the words of a segment's bytes behind `out`.
fn push_image(out: &mut Vec<u8>, bytes: &[u8]) -> Result<(), AllocError>
    ensures { OnOk result (out.new.items ≡ out.old.items ++ spaced (outcome_texts (book.Image bytes.now))) }
{
    push_text(out, b"datagram")?;
    push_bytes(out, bytes)
}

/// Puts the words of a row that was added behind `out`.
fn push_added(out: &mut Vec<u8>, row: u8) -> Result<(), AllocError>
    ensures { OnOk result (out.new.items ≡ out.old.items ++ spaced (outcome_texts (book.Added row))) }
{
    push_text(out, b"added")?;
    push_field(out, b"row", u64::from(row))
}

/// Puts the words of an outcome behind `out`, a space in front of each.
fn push_words(out: &mut Vec<u8>, outcome: &Outcome) -> Result<(), AllocError>
    ensures { OnOk result ((is : book.Outcome) → Shows outcome.now is
        → out.new.items ≡ out.old.items ++ spaced (outcome_texts is)) }
{
    match outcome {
        Outcome::Done => push_text(out, b"ok"),
        Outcome::IsnUsed => push_text(out, b"isn-used"),
        Outcome::NoSession => push_text(out, b"no-session"),
        Outcome::NoSegment => push_text(out, b"no-segment"),
        Outcome::NoPlace => push_text(out, b"no-place"),
        Outcome::Full => push_text(out, b"full"),
        Outcome::Closed => push_text(out, b"closed"),
        Outcome::Sent(name, made) => push_made(out, *name, made),
        Outcome::NoKey => push_text(out, b"no-key"),
        Outcome::Idle => push_text(out, b"idle"),
        Outcome::Nothing => push_text(out, b"nothing"),
        Outcome::Arrival(arrival) => push_answer(out, *arrival),
        Outcome::Took(bytes, end_shown) => push_took(out, bytes.as_slice(), *end_shown),
        Outcome::Image(bytes) => push_image(out, bytes.as_slice()),
        Outcome::Added(row) => push_added(out, *row),
        Outcome::TooManyRows => push_text(out, b"too-many-rows"),
        Outcome::Overlap(row) => push_field(out, b"overlap", u64::from(*row)),
        Outcome::NoRow => push_text(out, b"no-row"),
    }
}

/// Puts the line of an outcome behind `out`; `n` is the number of its event, from 1.
fn push_line(out: &mut Vec<u8>, n: u64, outcome: &Outcome) -> Result<(), AllocError>
    ensures { OnOk result ((is : book.Outcome) → Shows outcome.now is
        → out.new.items ≡ out.old.items ++ outcome_line n is) }
{
    push_decimal(out, n)?;
    push_words(out, outcome)?;
    push_newline(out)?;
    Ok(())
}

/// Puts a line for each outcome behind `out`, numbered from 1. Out of memory a part of them may stand
/// there.
pub fn push_outcomes(out: &mut Vec<u8>, outcomes: &[Outcome]) -> Result<(), AllocError>
    ensures { OnOk result ((told : List book.Outcome) → AreShown outcomes.now told
        → out.new.items ≡ out.old.items ++ lines_from 1 told) }
{
    for (index, outcome) in outcomes.iter().enumerate() {
        push_line(out, index as u64 + 1, outcome)?;
    }
    Ok(())
}
