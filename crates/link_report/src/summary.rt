//! The lines of sessions, and the counts.
ghost use Rattle.std.specs.Prelude.{◌≡◌, ◌++◌, ◌∷◌, [], map, reverse, OnOk, codes, decimal};
ghost use Rattle.book_base.specs.declared.end.End.TheVariants.{A, B};
ghost use Rattle.book_lines.specs.Texts.{end_text, line_text, spaced};
ghost use Rattle.book_link.specs.Reports.{number_text, session_lines, shown_text, summary};
ghost use Rattle.book_link.specs.Worlds.{LinkSide as EndSide, World, forgeries as count_of_forgeries};
ghost use Rattle.book_link.specs.Worlds.{segments as count_of_segments};
ghost use Rattle.link_report.specs.Lines.{facts_line, kept_lines};
ghost use Rattle.link_report.specs.Sides.{StandsSide, kept_facts};

use crate::outcome::push_known;
use crate::sessions::Ended;
use crate::side::Side;
use book_base::End;
use segment_words::phase_word;
use std::alloc::AllocError;
use text_lines::{push_end, push_field, push_newline, push_number, push_text};

/// Puts whether the end of a session's stream was shown behind `out`.
fn push_shown(out: &mut Vec<u8>, end_shown: bool) -> Result<(), AllocError>
    ensures { OnOk result (out.new.items ≡ out.old.items ++ spaced (shown_text end_shown ∷ [])) }
{
    if end_shown {
        push_text(out, b"end")
    } else {
        push_text(out, b"open")
    }
}

/// Puts the end of a session, its place among the sessions of that end and its two initial sequence
/// numbers behind `out`.
fn push_identity(out: &mut Vec<u8>, end: End, index: u64, session: &Ended) -> Result<(), AllocError>
    ensures { OnOk result (out.new.items ≡ out.old.items
        ++ spaced (end_text end ∷ decimal index ∷ codes "isn" ∷ decimal session.now.isn ∷ codes "peer"
        ∷ number_text session.now.peer_isn ∷ [])) }
{
    push_end(out, end)?;
    push_number(out, index)?;
    push_field(out, b"isn", u64::from(session.isn))?;
    push_text(out, b"peer")?;
    push_known(out, session.peer_isn.map(u64::from))
}

/// Puts how many bytes passed through a session, and whether its end was shown, behind `out`.
fn push_flow(out: &mut Vec<u8>, session: &Ended) -> Result<(), AllocError>
    ensures { OnOk result (out.new.items ≡ out.old.items
        ++ spaced (codes "given" ∷ decimal session.now.given ∷ codes "delivered" ∷ decimal session.now.delivered
        ∷ shown_text session.now.end_shown ∷ [])) }
{
    push_field(out, b"given", session.given)?;
    push_field(out, b"delivered", session.delivered)?;
    push_shown(out, session.end_shown)
}

/// Puts the line of a session behind `out`; `index` is its place among the sessions of its end, the
/// oldest being 1, and `place` the word of its phase, or that it was dropped.
fn push_session(
    out: &mut Vec<u8>,
    end: End,
    index: u64,
    place: &[u8],
    session: &Ended,
) -> Result<(), AllocError>
    ensures { OnOk result (out.new.items ≡ out.old.items ++ facts_line end index place.now (kept_facts session.now)) }
{
    out.extend_from_slice(b"session")?;
    push_identity(out, end, index, session)?;
    push_text(out, place)?;
    push_flow(out, session)?;
    push_newline(out)
}

/// Puts the lines of the sessions that were dropped behind `out`, the oldest first.
fn push_dropped(out: &mut Vec<u8>, end: End, dropped: &[Ended]) -> Result<(), AllocError>
    ensures { OnOk result (out.new.items ≡ out.old.items ++ kept_lines end (reverse (map kept_facts dropped.now))) }
{
    for (index, session) in dropped.iter().enumerate() {
        push_session(out, end, index as u64 + 1, b"dropped", session)?;
    }
    Ok(())
}

/// Puts the lines of an end's sessions behind `out`, the oldest first.
fn push_sessions(out: &mut Vec<u8>, end: End, side: &Side) -> Result<(), AllocError>
    ensures { OnOk result ((m : EndSide) → StandsSide side.now m
        → out.new.items ≡ out.old.items ++ session_lines end m.sessions) }
{
    match side.live() {
        None => Ok(()),
        Some(live) => {
            let dropped = side.dropped();
            push_dropped(out, end, dropped)?;
            let index = dropped.len() as u64 + 1;
            let place = phase_word(live.endpoint().phase());
            push_session(out, end, index, place, &live.ended())?;
            Ok(())
        }
    }
}

/// Puts the last line behind `out`: how many segments were made, and how many forgeries were counted.
fn push_counts(out: &mut Vec<u8>, segments: u32, forgeries: u32) -> Result<(), AllocError>
    ensures { OnOk result (out.new.items ≡ out.old.items
        ++ line_text (codes "segments" ∷ decimal segments ∷ codes "forgeries" ∷ decimal forgeries ∷ [])) }
{
    out.extend_from_slice(b"segments")?;
    push_number(out, u64::from(segments))?;
    push_field(out, b"forgeries", u64::from(forgeries))?;
    push_newline(out)
}

/// Puts the lines of the sessions of both ends behind `out`, the oldest of each first, and then how
/// many segments were made and how many forgeries were counted. Out of memory a part of them may
/// stand there.
pub fn push_summary(
    out: &mut Vec<u8>,
    a: &Side,
    b: &Side,
    made: u32,
    forgeries: u32,
) -> Result<(), AllocError>
    ensures { OnOk result ((w : World) → StandsSide a.now w.a → StandsSide b.now w.b
        → made ≡ count_of_segments w.history
        → forgeries ≡ count_of_forgeries w.history → out.new.items ≡ out.old.items ++ summary w) }
{
    push_sessions(out, End::A, a)?;
    push_sessions(out, End::B, b)?;
    push_counts(out, made, forgeries)?;
    Ok(())
}
