//! The time that is drawn, and its dates.
ghost use Rattle.std.specs.Prelude.{◌≡◌, ◌≤◌, ◌++◌, OnOk, length};
ghost use Rattle.page_draw_plan_svg.specs.PlanPictures.{date_svg, dated_svg, dates_svg, scale_svg, step_before};
ghost use Rattle.page_draw_plan_svg.specs.PlanPictures.{step_count, tick_svg, time_svg};

use crate::dates::{date_length, is_dated, unit_for, unit_step};
use crate::places::{bars_height, push_line_words};
use crate::spans::start_column;
use book_scope_plan::Slice;
use key_table::LATEST;
use page_draw_plan_svg::DateUnit;
use page_svg::{Point, push_line, push_words};
use plan_texts::push_times;
use scope_texts::push_instant;
use std::alloc::AllocError;

/// An upright stroke at this column of a scale.
fn push_tick(out: &mut Vec<u8>, line: u32, column: u64) -> Result<(), AllocError>
    ensures { OnOk result (out.new.items ≡ out.old.items ++ tick_svg line column) }
{
    let y = bars_height(line);
    push_line(
        out,
        Point { x: column, y },
        Point {
            x: column,
            y: y + 12,
        },
        b" stroke=\"#999\"",
    )
}

/// A stroke at this column, and this date beside it, where that has room.
#[tactic(auto, unfolding(page_draw_plan_svg::specs::PlanPictures::date_svg))]
fn push_date(out: &mut Vec<u8>, line: u32, column: u64, date: &[u8]) -> Result<(), AllocError>
    requires column { column ≤ 780 }
    requires short { length date.now ≤ 16 }
    ensures { OnOk result (out.new.items ≡ out.old.items ++ date_svg line column date.now) }
{
    push_tick(out, line, column)?;
    if column + 8 * date.len() as u64 <= 790 {
        let at = Point {
            x: column + 4,
            y: bars_height(line) + 11,
        };
        push_words(out, at, false, date)?;
    }
    Ok(())
}

/// The same at a time of the time that is drawn, if it has a date.
fn push_time(
    out: &mut Vec<u8>,
    line: u32,
    time: &Slice,
    unit: DateUnit,
    at: u64,
) -> Result<(), AllocError>
    ensures { OnOk result (out.new.items ≡ out.old.items ++ time_svg line time.now unit at) }
{
    let mut text = Vec::new(*out.allocator());
    push_instant(&mut text, at)?;
    if time.first <= at && is_dated(unit, text.as_slice()) {
        text.truncate(date_length(unit));
        push_date(out, line, start_column(time, at), text.as_slice())?;
    }
    Ok(())
}

/// So many steps of dates, from a time on.
fn push_dates(
    out: &mut Vec<u8>,
    line: u32,
    time: &Slice,
    unit: DateUnit,
    count: u64,
    from: u64,
) -> Result<(), AllocError>
    ensures { OnOk result (out.new.items ≡ out.old.items ++ dates_svg line time.now unit count from) }
{
    let last = time.last.min(LATEST);
    let step = unit_step(unit);
    let mut at = from;
    for _done in 0..count {
        if at > last {
            return Ok(());
        }
        push_time(out, line, time, unit, at)?;
        at += step;
    }
    Ok(())
}

/// How many steps suffice for a time.
fn step_count(unit: DateUnit, time: &Slice) -> u64
    ensures { result ≡ step_count unit time.now }
{
    time.last.saturating_sub(time.first) / unit_step(unit) + 2
}

/// The last step of a unit before a time or at it.
fn step_before(unit: DateUnit, time: u64) -> u64
    ensures { result ≡ step_before unit time }
{
    time - time % unit_step(unit)
}

/// The words of a time, and its dates by this unit.
#[tactic(auto, unfolding(page_draw_plan_svg::specs::PlanPictures::dated_svg))]
fn push_dated(out: &mut Vec<u8>, line: u32, time: &Slice, unit: DateUnit) -> Result<(), AllocError>
    ensures { OnOk result (out.new.items ≡ out.old.items ++ dated_svg line time.now unit) }
{
    let mut words = Vec::new(*out.allocator());
    push_times(&mut words, time.first, time.last)?;
    push_line_words(out, line, words.as_slice())?;
    let count = step_count(unit, time);
    push_dates(out, line, time, unit, count, step_before(unit, time.first))?;
    out.push(b'\n')?;
    Ok(())
}

/// The words of a time, and its dates.
pub(crate) fn push_scale(out: &mut Vec<u8>, line: u32, time: &Slice) -> Result<(), AllocError>
    ensures { OnOk result (out.new.items ≡ out.old.items ++ scale_svg line time.now) }
{
    let unit = unit_for(time.last.saturating_sub(time.first));
    push_dated(out, line, time, unit)
}
