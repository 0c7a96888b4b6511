//! Runs of segments that say the same.
ghost use Rattle.std.specs.Prelude.{◌≡◌, ◌++◌, ◌<◌, IfOk, OnOk};
ghost use Rattle.std.specs.Str.{bytes_eq};
ghost use Rattle.book_draw.specs.Folds.{after_drawn, and_kind, fold_lines, fold_start, fold_step};
ghost use Rattle.book_draw.specs.Folds.{folds_with, stands_within, kept_kind, kinds_to, folded_lines};
ghost use Rattle.book_draw.specs.Folds.{counted_on, run_label, run_lines, run_with, says_again};
ghost use Rattle.book_draw.specs.Folds.{folded_session};
ghost use Rattle.book_draw.specs.SessionLadders.{reached_end};
ghost use Rattle.book_draw.specs.SessionRungs.{has_flag};

use crate::lines::reached_end;
use crate::says::{is_even, is_keyed, is_saying, push_run_words};
use ao_base::push_decimal;
use book_base::End;
use book_draw::{Folding, RungKinds, RungRun, SessionEnds, SessionLine, SessionRung};
use std::alloc::{AllocError, Global};

/// Before the first segment.
const START: Folding = Folding {
    to_left: RungKinds {
        last: None,
        before: None,
    },
    to_right: RungKinds {
        last: None,
        before: None,
    },
    run: None,
};

fn one_more(count: u64) -> u64
    ensures { result ≡ counted_on count }
{
    count.saturating_add(1)
}

fn has_flag(flags: u8, flag: u8) -> bool
    requires { 0 < flag }
    ensures { result ≡ has_flag flag flags }
{
    flags / flag % 2 == 1
}

fn is_within(rung: &SessionRung) -> bool
    ensures { result ≡ stands_within rung.now }
{
    !has_flag(rung.flags, 0x02) && (!has_flag(rung.flags, 0x01) && !has_flag(rung.flags, 0x04))
}

// Whether a segment says what that one says, if there is one.
fn says_again(
    alloc: Global,
    known: Option<SessionRung>,
    rung: &SessionRung,
) -> Result<bool, AllocError>
    ensures { IfOk result (λ again. again ≡ says_again known rung.now) }
{
    match known {
        None => Ok(false),
        Some(known) => is_saying(alloc, &known, rung),
    }
}

// Whether a segment may be told with others, after these of its direction.
fn folds_with(alloc: Global, kinds: RungKinds, rung: &SessionRung) -> Result<bool, AllocError>
    ensures { IfOk result (λ folds. folds ≡ folds_with kinds rung.now) }
{
    let last = says_again(alloc, kinds.last, rung)?;
    let before = says_again(alloc, kinds.before, rung)?;
    Ok(is_within(rung) && (last || before))
}

// What stays known behind a segment.
fn kept_kind(
    alloc: Global,
    known: Option<SessionRung>,
    rung: &SessionRung,
) -> Result<Option<SessionRung>, AllocError>
    ensures { IfOk result (λ kept. kept ≡ kept_kind known rung.now) }
{
    match known {
        None => Ok(None),
        Some(known) => {
            if is_keyed(alloc, &known, rung)? {
                Ok(Some(known))
            } else {
                Ok(None)
            }
        }
    }
}

// The last two segments of a direction, after this one was drawn.
fn and_kind(alloc: Global, kinds: RungKinds, rung: &SessionRung) -> Result<RungKinds, AllocError>
    ensures { IfOk result (λ now. now ≡ and_kind kinds rung.now) }
{
    let before = kept_kind(alloc, kinds.last, rung)?;
    Ok(RungKinds {
        last: Some(*rung),
        before,
    })
}

fn kinds_to(at: End, folding: &Folding) -> RungKinds
    ensures { result ≡ kinds_to at folding.now }
{
    match at {
        End::A => folding.to_left,
        End::B => folding.to_right,
    }
}

// A run with one segment more.
fn run_with(alloc: Global, run: Option<RungRun>, rung: &SessionRung) -> Result<RungRun, AllocError>
    ensures { IfOk result (λ now. now ≡ run_with run rung.now) }
{
    match run {
        None => Ok(RungRun {
            count: 1,
            first: *rung,
            last: *rung,
            even: true,
        }),
        Some(run) => {
            let same = is_even(alloc, &run.first, rung)?;
            Ok(RungRun {
                count: one_more(run.count),
                first: run.first,
                last: *rung,
                even: run.even && same,
            })
        }
    }
}

// What is known once a segment to this end was drawn.
fn after_drawn(
    alloc: Global,
    at: End,
    folding: &Folding,
    rung: &SessionRung,
) -> Result<Folding, AllocError>
    ensures { IfOk result (λ now. now ≡ after_drawn at folding.now rung.now) }
{
    match at {
        End::A => Ok(Folding {
            to_left: and_kind(alloc, folding.to_left, rung)?,
            to_right: folding.to_right,
            run: None,
        }),
        End::B => Ok(Folding {
            to_left: folding.to_left,
            to_right: and_kind(alloc, folding.to_right, rung)?,
            run: None,
        }),
    }
}

// Puts the lines of a run that ends behind others.
fn push_run(lines: &mut Vec<SessionLine>, run: Option<RungRun>) -> Result<(), AllocError>
    ensures { OnOk result (lines.new.items ≡ lines.old.items ++ run_lines run) }
{
    let run = match run {
        None => return Ok(()),
        Some(run) => run,
    };
    if run.count == 1 {
        lines.push(SessionLine::Whole(run.first))?;
        return Ok(());
    }
    if run.count == 2 {
        lines.push(SessionLine::Whole(run.first))?;
        lines.push(SessionLine::Whole(run.last))?;
        return Ok(());
    }
    lines.push(SessionLine::More(run))?;
    Ok(())
}

// Puts the lines that a segment to this end brings behind others, and what is known then in its place.
fn push_folded(
    alloc: Global,
    lines: &mut Vec<SessionLine>,
    folding: &Folding,
    at: End,
    rung: &SessionRung,
) -> Result<Folding, AllocError>
    ensures known { IfOk result (λ now. now ≡ fold_step at folding.now rung.now) }
    ensures lines { OnOk result (lines.new.items ≡ lines.old.items ++ fold_lines at folding.now rung.now) }
{
    if folds_with(alloc, kinds_to(at, folding), rung)? {
        let run = run_with(alloc, folding.run, rung)?;
        return Ok(Folding {
            to_left: folding.to_left,
            to_right: folding.to_right,
            run: Some(run),
        });
    }
    push_run(lines, folding.run)?;
    lines.push(SessionLine::Whole(*rung))?;
    after_drawn(alloc, at, folding, rung)
}

/// The lines of the segments between these ends.
pub(crate) fn session_lines(
    alloc: Global,
    ends: &SessionEnds,
    rungs: &[SessionRung],
) -> Result<Vec<SessionLine>, AllocError>
    ensures { IfOk result (λ lines. lines.items ≡ folded_session ends.now rungs.now) }
{
    let mut lines = Vec::new(alloc);
    let mut folding = START;
    for rung in rungs {
        folding = push_folded(alloc, &mut lines, &folding, reached_end(ends, rung), rung)?;
    }
    push_run(&mut lines, folding.run)?;
    Ok(lines)
}

/// Puts the words of a run behind `out`.
pub(crate) fn push_run_label(out: &mut Vec<u8>, run: &RungRun) -> Result<(), AllocError>
    ensures { OnOk result (out.new.items ≡ out.old.items ++ run_label run.now) }
{
    out.push(b' ')?;
    push_decimal(out, run.count)?;
    out.extend_from_slice(b" more")?;
    if run.even {
        push_run_words(out, &run.first)
    } else {
        out.extend_from_slice(b", as above")
    }
}
