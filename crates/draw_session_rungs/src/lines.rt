//! The lines of a session's ladder, and the words of its pictures.
ghost use Rattle.std.specs.Prelude.{◌≡◌, ◌<◌, ◌++◌, ◌∷◌, [], OnOk, codes, option_map};
ghost use Rattle.book_draw.specs.Ladders.{arrowhead, length_label, line_at, way_to};
ghost use Rattle.book_lines.specs.Texts.{spaced};
ghost use Rattle.book_link.specs.Reports.{verdict_text};
ghost use Rattle.book_sessions.specs.SessionTexts.{id_text};
ghost use Rattle.book_draw.specs.SessionLadders.{end_name, ends_text, flag_letter, flag_letters, line_to};
ghost use Rattle.book_draw.specs.SessionLadders.{margin_beside, names_text, numbered_line, said_texts, reached_end};
ghost use Rattle.book_draw.specs.SessionLadders.{rung_label, rung_stroke, session_rung_text, time_margin};

use ao_base::push_decimal;
use book_base::{End, Socket};
use book_draw::{SessionEnds, SessionRung};
use book_endpoint::Refusal;
use book_sessions::{KeyIds, SegmentOutcome};
use both_ends::other;
use draw_ladder::{push_arrow, push_names, push_times};
use scope_texts::{push_address, push_instant};
use segment_words::verdict_word;
use std::alloc::AllocError;
use text_lines::{push_field, push_number, push_text};

/// How many nanoseconds a second has.
pub(crate) const NANOSECONDS: u64 = 1_000_000_000;

fn push_flag(out: &mut Vec<u8>, flags: u8, flag: u8, letter: u8) -> Result<(), AllocError>
    requires { 0 < flag }
    ensures { OnOk result (out.new.items ≡ out.old.items ++ flag_letter flag letter flags) }
{
    if flags / flag % 2 == 1 {
        out.push(letter)?;
    }
    Ok(())
}

// Puts the letters of the flags that are set behind `out`.
#[tactic(auto, unfolding(book_draw::specs::SessionLadders::flag_letters))]
fn push_flags(out: &mut Vec<u8>, flags: u8) -> Result<(), AllocError>
    ensures { OnOk result (out.new.items ≡ out.old.items ++ flag_letters flags) }
{
    if flags == 0 {
        return out.extend_from_slice(b"-");
    }
    push_flag(out, flags, 0x02, b'S')?;
    push_flag(out, flags, 0x10, b'A')?;
    push_flag(out, flags, 0x08, b'P')?;
    push_flag(out, flags, 0x01, b'F')?;
    push_flag(out, flags, 0x04, b'R')?;
    push_flag(out, flags, 0x20, b'U')?;
    push_flag(out, flags, 0x40, b'E')?;
    push_flag(out, flags, 0x80, b'C')
}

pub(crate) fn key_id_of(ids: Option<KeyIds>) -> Option<u8>
    ensures { result ≡ option_map (λ ids. ids.key_id) ids }
{
    ids.map(|ids| ids.key_id)
}

fn asked_of(ids: Option<KeyIds>) -> Option<u8>
    ensures { result ≡ option_map (λ ids. ids.rnext_key_id) ids }
{
    ids.map(|ids| ids.rnext_key_id)
}

// Puts a space and the KeyID behind `out`, or a dash where there is none.
fn push_id(out: &mut Vec<u8>, id: Option<u8>) -> Result<(), AllocError>
    ensures { OnOk result (out.new.items ≡ out.old.items ++ 32 ∷ id_text id) }
{
    match id {
        None => push_text(out, b"-"),
        Some(id) => push_number(out, u64::from(id)),
    }
}

// Puts the two ids behind `out`, each with its word.
pub(crate) fn push_ids(out: &mut Vec<u8>, ids: Option<KeyIds>) -> Result<(), AllocError>
    ensures { OnOk result (out.new.items ≡ out.old.items ++ spaced
        (codes "key" ∷ id_text (option_map (λ ids. ids.key_id) ids)
        ∷ codes "asks" ∷ id_text (option_map (λ ids. ids.rnext_key_id) ids) ∷ [])) }
{
    push_text(out, b"key")?;
    push_id(out, key_id_of(ids))?;
    push_text(out, b"asks")?;
    push_id(out, asked_of(ids))
}

fn push_length(out: &mut Vec<u8>, length: u64) -> Result<(), AllocError>
    ensures { OnOk result (out.new.items ≡ out.old.items ++ length_label length) }
{
    if length != 0 {
        push_field(out, b"len", length)?;
    }
    Ok(())
}

// Puts what is written on the arrow of a segment behind `out`.
pub(crate) fn push_label(out: &mut Vec<u8>, rung: &SessionRung) -> Result<(), AllocError>
    ensures { OnOk result (out.new.items ≡ out.old.items ++ rung_label rung.now) }
{
    out.push(b' ')?;
    push_flags(out, rung.flags)?;
    push_ids(out, rung.ids)?;
    push_length(out, rung.length)
}

// Puts why a segment is refused under numbers that were only seen behind `out`.
fn push_unconfirmed(out: &mut Vec<u8>, why: Refusal) -> Result<(), AllocError>
    ensures { OnOk result (out.new.items ≡ out.old.items ++ 32 ∷ codes "unconfirmed-" ++ verdict_text why) }
{
    push_text(out, b"unconfirmed-")?;
    out.extend_from_slice(verdict_word(why))
}

// Puts what is said of a segment behind `out`.
pub(crate) fn push_outcome(out: &mut Vec<u8>, outcome: SegmentOutcome) -> Result<(), AllocError>
    ensures { OnOk result (out.new.items ≡ out.old.items ++ spaced (said_texts outcome)) }
{
    match outcome {
        SegmentOutcome::Verified => push_text(out, b"verified"),
        SegmentOutcome::Refused(why) => {
            push_text(out, b"refused")?;
            push_text(out, verdict_word(why))
        }
        SegmentOutcome::NoNode => push_text(out, b"unknown-node"),
        SegmentOutcome::TooMany => push_text(out, b"full"),
        SegmentOutcome::Unconfirmed => push_text(out, b"unconfirmed"),
        SegmentOutcome::UnconfirmedRefused(why) => push_unconfirmed(out, why),
        SegmentOutcome::CutOff => push_text(out, b"cut-off"),
    }
}

fn rung_stroke(outcome: SegmentOutcome) -> u8
    ensures { result ≡ rung_stroke outcome }
{
    match outcome {
        SegmentOutcome::Verified => b'-',
        SegmentOutcome::Refused(_) => b'~',
        SegmentOutcome::NoNode => b'~',
        SegmentOutcome::TooMany => b'~',
        SegmentOutcome::Unconfirmed => b'.',
        SegmentOutcome::UnconfirmedRefused(_) => b'~',
        SegmentOutcome::CutOff => b'~',
    }
}

// Puts when a segment was seen behind `out`.
pub(crate) fn push_time(out: &mut Vec<u8>, time: u64) -> Result<(), AllocError>
    ensures { OnOk result (out.new.items ≡ out.old.items ++ time_margin time) }
{
    out.push(b' ')?;
    push_instant(out, time / NANOSECONDS)
}

pub(crate) fn reached_end(ends: &SessionEnds, rung: &SessionRung) -> End
    ensures { result ≡ reached_end ends.now rung.now }
{
    if rung.source == ends.left {
        End::B
    } else {
        End::A
    }
}

// Puts the left margin behind `out`: the number of a packet, and the words.
fn push_numbered(out: &mut Vec<u8>, packet: u64, words: &[u8]) -> Result<(), AllocError>
    ensures { OnOk result (out.new.items ≡ out.old.items ++ numbered_line packet words.now) }
{
    let mut number = Vec::new(*out.allocator());
    push_decimal(&mut number, packet)?;
    out.extend_from_slice(number.as_slice())?;
    let room = 27_usize
        .saturating_sub(number.as_slice().len())
        .saturating_sub(words.len());
    push_times(out, b' ', room)?;
    out.extend_from_slice(words)
}

// Puts the words beside an end behind `out`, with the number of the packet where it is the left one.
fn push_margin(out: &mut Vec<u8>, end: End, packet: u64, words: &[u8]) -> Result<(), AllocError>
    ensures { OnOk result (out.new.items ≡ out.old.items ++ margin_beside end packet words.now) }
{
    match end {
        End::A => push_numbered(out, packet, words),
        End::B => out.extend_from_slice(words),
    }
}

// Puts what is said of a segment that comes to this end behind `out`, as it stands beside the end.
fn push_said(out: &mut Vec<u8>, at: End, rung: &SessionRung) -> Result<(), AllocError>
    ensures { OnOk result (out.new.items ≡ out.old.items ++ margin_beside at rung.now.packet
        (spaced (said_texts rung.now.outcome))) }
{
    let mut words = Vec::new(*out.allocator());
    push_outcome(&mut words, rung.outcome)?;
    push_margin(out, at, rung.packet, words.as_slice())
}

// Puts when a segment was seen that comes from this end behind `out`, as it stands beside the end.
fn push_seen(out: &mut Vec<u8>, sender: End, rung: &SessionRung) -> Result<(), AllocError>
    ensures { OnOk result (out.new.items ≡ out.old.items ++ margin_beside sender rung.now.packet
        (time_margin rung.now.time)) }
{
    let mut words = Vec::new(*out.allocator());
    push_time(&mut words, rung.time)?;
    push_margin(out, sender, rung.packet, words.as_slice())
}

// Puts the line of a segment that comes to this end behind `out`.
fn push_line_to(out: &mut Vec<u8>, at: End, rung: &SessionRung) -> Result<(), AllocError>
    ensures { OnOk result (out.new.items ≡ out.old.items ++ line_to at rung.now) }
{
    let mut label = Vec::new(*out.allocator());
    push_label(&mut label, rung)?;
    let mut said = Vec::new(*out.allocator());
    push_said(&mut said, at, rung)?;
    let mut seen = Vec::new(*out.allocator());
    push_seen(&mut seen, other(at), rung)?;
    push_arrow(
        out,
        at,
        rung_stroke(rung.outcome),
        label.as_slice(),
        said.as_slice(),
        seen.as_slice(),
    )
}

/// Puts the line of a segment between these ends behind `out`. An error only for want of memory.
#[tactic(auto, unfolding(book_draw::specs::SessionLadders::session_rung_text))]
pub fn push_rung(
    out: &mut Vec<u8>,
    ends: &SessionEnds,
    rung: &SessionRung,
) -> Result<(), AllocError>
    ensures { OnOk result (out.new.items ≡ out.old.items ++ session_rung_text ends.now rung.now) }
{
    push_line_to(out, reached_end(ends, rung), rung)
}

// Puts the name of an end behind `out`.
pub(crate) fn push_end(out: &mut Vec<u8>, socket: &Socket) -> Result<(), AllocError>
    ensures { OnOk result (out.new.items ≡ out.old.items ++ end_name socket.now) }
{
    out.push(b' ')?;
    push_address(out, &socket.address)?;
    push_number(out, u64::from(socket.port))
}

// Puts two names above their strokes behind `out`.
fn push_both_names(out: &mut Vec<u8>, left: &[u8], right: &[u8]) -> Result<(), AllocError>
    ensures { OnOk result (out.new.items ≡ out.old.items ++ names_text left.now right.now) }
{
    if left.len() > 27 {
        out.extend_from_slice(left)?;
        out.push(b'\n')?;
        push_names(out, b"", right)
    } else {
        push_names(out, left, right)
    }
}

/// Puts the names of the ends above their strokes behind `out`. An error only for want of memory.
#[tactic(auto, unfolding(book_draw::specs::SessionLadders::ends_text))]
pub fn push_ends(out: &mut Vec<u8>, ends: &SessionEnds) -> Result<(), AllocError>
    ensures { OnOk result (out.new.items ≡ out.old.items ++ ends_text ends.now) }
{
    let mut left = Vec::new(*out.allocator());
    push_end(&mut left, &ends.left)?;
    let mut right = Vec::new(*out.allocator());
    push_end(&mut right, &ends.right)?;
    push_both_names(out, left.as_slice(), right.as_slice())
}
