//! Where a time stands in the picture, and which seconds a bar shows.
ghost use Rattle.std.specs.Prelude.{◌≡◌, ◌≤◌, option_map};
ghost use Rattle.page_draw_plan_svg.specs.Spans.{bar_span, common_span, does_for, duty_lifetime, finding_span};
ghost use Rattle.page_draw_plan_svg.specs.Spans.{sending_span, span_width, time_column};
ghost use Rattle.book_scope_plan.specs.Bars.{pair_at};
ghost use Rattle.book_scope_plan.specs.CalendarTexts.{row_numbered, side_of};

use crate::wrong::Connected;
use book_base::{End, Pair};
use book_plans::Finding;
use book_scope_plan::{Duty, Slice};
use key_table::{Lifetime, Row};
use plan_texts::row_numbered;

/// The column of a moment, in seconds since 1970, of a time that is drawn.
#[tactic(auto, unfolding(page_draw_plan_svg::specs::Spans::time_column))]
fn time_column(time: &Slice, moment: u128) -> u64
    requires { moment ≤ 18446744073709551616 }
    ensures value { result ≡ time_column time.now moment }
    ensures range { result ≤ 780 }
{
    let past = moment.saturating_sub(time.first as u128);
    let seconds = time.last.saturating_sub(time.first) as u128 + 1;
    let columns = (past * 760 / seconds).min(760);
    20 + columns as u64
}

/// The column in which some of the seconds of a time begin.
pub(crate) fn start_column(time: &Slice, first: u64) -> u64
    ensures value { result ≡ time_column time.now first }
    ensures range { result ≤ 780 }
{
    time_column(time, first as u128)
}

/// How wide some of the seconds of a time are drawn.
#[tactic(auto, unfolding(page_draw_plan_svg::specs::Spans::span_width))]
pub(crate) fn span_width(time: &Slice, span: &Slice) -> u64
    ensures value { result ≡ span_width time.now span.now }
    ensures range { result ≤ 780 }
{
    let end = time_column(time, span.last as u128 + 1);
    end.saturating_sub(start_column(time, span.first)).max(1)
}

/// The lifetime for what a row does.
pub(crate) fn duty_lifetime(duty: Duty, row: &Row) -> Lifetime
    ensures { result ≡ duty_lifetime duty row.now }
{
    match duty {
        Duty::Accepts => row.accepting(),
        Duty::Sends => row.sending(),
    }
}

/// Whether the row does this for the pair, at whatever time.
fn does_for(pair: &Pair, duty: Duty, row: &Row) -> bool
    ensures { result ≡ does_for pair.now duty row.now }
{
    match duty {
        Duty::Accepts => row.matches(pair) && row.direction().receives(),
        Duty::Sends => row.matches(pair) && row.direction().sends(),
    }
}

/// The seconds that a lifetime and a slice have in common.
fn common_span(lifetime: &Lifetime, slice: &Slice) -> Option<Slice>
    ensures { result ≡ common_span lifetime.now slice.now }
{
    let first = lifetime.first.max(slice.first);
    let last = lifetime.last.min(slice.last);
    if first <= last {
        Some(Slice { first, last })
    } else {
        None
    }
}

/// The seconds of a time in which a row does this for the pair.
pub(crate) fn bar_span(pair: &Pair, duty: Duty, row: &Row, time: &Slice) -> Option<Slice>
    ensures { result ≡ bar_span pair.now duty row.now time.now }
{
    if does_for(pair, duty, row) {
        common_span(&duty_lifetime(duty, row), time)
    } else {
        None
    }
}

/// The seconds of a time in which the row that was found may send.
fn sending_span(pair: &Pair, time: &Slice, row: Option<&Row>) -> Option<Slice>
    ensures { result ≡ sending_span pair.now time.now (option_map (λ r. r.now) row.entry) }
{
    match row {
        None => None,
        Some(row) => bar_span(pair, Duty::Sends, row, time),
    }
}

/// The seconds of a time in which the row of this end and number may send.
fn numbered_span(ends: &Connected, time: &Slice, end: End, number: u8) -> Option<Slice>
    ensures { result ≡ sending_span (pair_at end ends.now.pair) time.now
        (row_numbered (side_of end ends.now.tables.a.now ends.now.tables.b.now).rows number) }
{
    let row = row_numbered(ends.table(end), number);
    sending_span(&ends.pair_at(end), time, row)
}

/// The seconds of a time at which the finding is so.
pub(crate) fn finding_span(ends: &Connected, time: &Slice, finding: Finding) -> Option<Slice>
    ensures { result ≡ finding_span ends.now.tables.a.now ends.now.tables.b.now ends.now.pair time.now finding }
{
    match finding {
        Finding::NoPeerRow(end, number) => numbered_span(ends, time, end, number),
        Finding::ShortAccept(end, number) => numbered_span(ends, time, end, number),
        Finding::Gap(_, first, last) => Some(Slice { first, last }),
    }
}
