//! The lines of a calendar.
ghost use Rattle.std.specs.Prelude.{◌≡◌, ◌++◌, OnOk};
ghost use Rattle.std.specs.List.{list_any};
ghost use Rattle.book_segments.specs.Bytes.{same_bytes};
ghost use Rattle.book_scope_plan.specs.CalendarTexts.{are_both_ends, calendar_line, calendar_lines, calendar_text};
ghost use Rattle.book_scope_plan.specs.CalendarTexts.{is_twin, told_line, turning_name};

use crate::told::told_turns;
use book_base::End;
use book_scope_plan::Told;
use draw_plan::Connected;
use key_plan::Turn;
use scope_texts::push_instant;
use std::alloc::{AllocError, Global};

pub(crate) fn are_both_ends(one: End, other: End) -> bool
    ensures { result ≡ are_both_ends one other }
{
    match one {
        End::A => matches!(other, End::B),
        End::B => matches!(other, End::A),
    }
}

fn is_same_text(one: &[u8], other: &[u8]) -> bool
    ensures { result ≡ same_bytes one.now other.now }
{
    one == other
}

/// Whether it is the same turn at the other end.
fn is_twin(one: &Told, other: &Told) -> bool
    ensures { result ≡ is_twin one.now other.now }
{
    are_both_ends(one.end, other.end)
        && (one.time == other.time && is_same_text(one.text.as_slice(), other.text.as_slice()))
}

fn has_twin(told: &Told, all: &[Told]) -> bool
    ensures { result ≡ list_any (is_twin told.now) all.now }
{
    all.iter().any(|other| is_twin(told, other))
}

/// The name of the node, or those of both.
fn push_name(out: &mut Vec<u8>, ends: &Connected, end: End, both: bool) -> Result<(), AllocError>
    ensures { OnOk result (out.new.items ≡ out.old.items ++ turning_name ends.now.tables.a.now ends.now.tables.b.now
        end both) }
{
    if both {
        out.extend_from_slice(ends.tables.a.name())?;
        out.extend_from_slice(b", ")?;
        out.extend_from_slice(ends.tables.b.name())
    } else {
        out.extend_from_slice(ends.table(end).name())
    }
}

fn push_told(out: &mut Vec<u8>, ends: &Connected, told: &Told, both: bool) -> Result<(), AllocError>
    ensures { OnOk result (out.new.items ≡ out.old.items ++ told_line
        (turning_name ends.now.tables.a.now ends.now.tables.b.now told.now.end both) told.now) }
{
    out.extend_from_slice(b"  ")?;
    push_instant(out, told.time)?;
    out.push(b' ')?;
    push_name(out, ends, told.end, both)?;
    out.extend_from_slice(told.text.as_slice())
}

/// The line of a turn; of two alike at both ends the one at a has it.
fn push_line(
    out: &mut Vec<u8>,
    ends: &Connected,
    all: &[Told],
    told: &Told,
) -> Result<(), AllocError>
    ensures { OnOk result (out.new.items ≡ out.old.items ++ calendar_line ends.now.tables.a.now ends.now.tables.b.now
        all.now told.now) }
{
    let both = has_twin(told, all);
    match told.end {
        End::A => push_told(out, ends, told, both),
        End::B => {
            if both {
                Ok(())
            } else {
                push_told(out, ends, told, false)
            }
        }
    }
}

fn push_lines(out: &mut Vec<u8>, ends: &Connected, all: &[Told]) -> Result<(), AllocError>
    ensures { OnOk result (out.new.items ≡ out.old.items ++ calendar_lines ends.now.tables.a.now ends.now.tables.b.now
        all.now all.now) }
{
    for told in all {
        push_line(out, ends, all, told)?;
    }
    Ok(())
}

/// The lines of the turns of the tables of two ends.
pub(crate) fn push_calendar(
    alloc: Global,
    out: &mut Vec<u8>,
    ends: &Connected,
    turns: &[Turn],
) -> Result<(), AllocError>
    ensures { OnOk result (out.new.items ≡ out.old.items ++ calendar_text ends.now.tables.a.now ends.now.tables.b.now
        turns.now) }
{
    let told = told_turns(alloc, ends, turns)?;
    push_lines(out, ends, told.as_slice())
}
