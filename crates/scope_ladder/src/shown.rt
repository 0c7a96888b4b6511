//! What is drawn, kept and counted of a segment.
ghost use Rattle.std.specs.Prelude.{◌≡◌, ◌∷◌, ◌++◌, [], OnOk, if◌then◌else◌};
ghost use Rattle.book_draw.specs.Folds.{counted_on};
ghost use Rattle.book_draw.specs.Times.{is_early, is_late, is_timely, rungs_within};
ghost use Rattle.scope_ladder.specs.Searches.{kept_as, left_and, left_with, shown_as, shown_rungs, shown_text};
ghost use Rattle.scope_ladder.specs.Searches.{timely_text};

use crate::search::Shown;
use book_draw::{DrawnTime, LeftOut, SessionEnds, SessionRung};
use draw_session_rungs::{push_ends, push_rung};
use page_draw_svg::LadderForm;
use std::alloc::AllocError;

/// How many nanoseconds a second has.
pub(crate) const NANOSECONDS: u64 = 1_000_000_000;

fn is_early(within: DrawnTime, rung: &SessionRung) -> bool
    ensures { result ≡ is_early within rung.now }
{
    rung.time / NANOSECONDS < within.from
}

fn is_late(within: DrawnTime, rung: &SessionRung) -> bool
    ensures { result ≡ is_late within rung.now }
{
    !is_early(within, rung) && within.to < rung.time / NANOSECONDS
}

fn is_timely(within: DrawnTime, rung: &SessionRung) -> bool
    ensures { result ≡ is_timely within rung.now }
{
    !is_early(within, rung) && !is_late(within, rung)
}

// Puts the text of a segment behind `out`, where it was seen within the time.
fn push_timely(
    out: &mut Vec<u8>,
    within: DrawnTime,
    ends: &SessionEnds,
    rung: &SessionRung,
) -> Result<(), AllocError>
    ensures { OnOk result (out.new.items ≡ out.old.items ++ timely_text within ends.now rung.now) }
{
    if is_timely(within, rung) {
        return push_rung(out, ends, rung);
    }
    Ok(())
}

fn push_shown_text(
    out: &mut Vec<u8>,
    within: DrawnTime,
    shown: Shown,
    rung: &SessionRung,
) -> Result<(), AllocError>
    ensures { OnOk result (out.new.items ≡ out.old.items ++ shown_text within shown rung.now) }
{
    match shown {
        Shown::Nothing => Ok(()),
        Shown::First(ends) => {
            push_ends(out, &ends)?;
            push_timely(out, within, &ends, rung)
        }
        Shown::Later(ends) => push_timely(out, within, &ends, rung),
    }
}

/// Puts the text that is drawn of a segment in the form behind `out`.
pub(crate) fn push_shown(
    out: &mut Vec<u8>,
    form: LadderForm,
    within: DrawnTime,
    shown: Shown,
    rung: &SessionRung,
) -> Result<(), AllocError>
    ensures { OnOk result (out.new.items ≡ out.old.items ++ shown_as form within shown rung.now) }
{
    match form {
        LadderForm::Text => push_shown_text(out, within, shown, rung),
        LadderForm::Picture => Ok(()),
    }
}

// Keeps a segment that was seen within the time.
fn keep_timely(
    kept: &mut Vec<SessionRung>,
    within: DrawnTime,
    rung: &SessionRung,
) -> Result<(), AllocError>
    ensures { OnOk result (kept.new.items ≡ kept.old.items ++ rungs_within within (rung.now ∷ [])) }
{
    if is_timely(within, rung) {
        kept.push(*rung)?;
    }
    Ok(())
}

fn keep_shown_rung(
    kept: &mut Vec<SessionRung>,
    within: DrawnTime,
    shown: Shown,
    rung: &SessionRung,
) -> Result<(), AllocError>
    ensures { OnOk result (kept.new.items ≡ kept.old.items ++ rungs_within within (shown_rungs shown rung.now)) }
{
    match shown {
        Shown::Nothing => Ok(()),
        Shown::First(_) => keep_timely(kept, within, rung),
        Shown::Later(_) => keep_timely(kept, within, rung),
    }
}

/// Keeps of a segment what the form needs in the end.
pub(crate) fn keep_shown(
    kept: &mut Vec<SessionRung>,
    form: LadderForm,
    within: DrawnTime,
    shown: Shown,
    rung: &SessionRung,
) -> Result<(), AllocError>
    ensures { OnOk result (kept.new.items ≡ kept.old.items ++ kept_as form within shown rung.now) }
{
    match form {
        LadderForm::Text => Ok(()),
        LadderForm::Picture => keep_shown_rung(kept, within, shown, rung),
    }
}

fn counted_where(count: u64, is_one: bool) -> u64
    ensures { result ≡ (if is_one then counted_on count else count) }
{
    if is_one {
        count.saturating_add(1)
    } else {
        count
    }
}

fn left_and(within: DrawnTime, left: LeftOut, rung: &SessionRung) -> LeftOut
    ensures { result ≡ left_and within left rung.now }
{
    LeftOut {
        before: counted_where(left.before, is_early(within, rung)),
        after: counted_where(left.after, is_late(within, rung)),
    }
}

/// How many segments are left out, with this one.
pub(crate) fn left_with(
    within: DrawnTime,
    shown: Shown,
    left: LeftOut,
    rung: &SessionRung,
) -> LeftOut
    ensures { result ≡ left_with within shown left rung.now }
{
    match shown {
        Shown::Nothing => left,
        Shown::First(_) => left_and(within, left, rung),
        Shown::Later(_) => left_and(within, left, rung),
    }
}
