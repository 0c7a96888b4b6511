//! At which times a scale has dates.
ghost use Rattle.std.specs.Prelude.{◌≡◌, ◌<◌, ◌≤◌, length};
ghost use Rattle.page_draw_plan_svg.specs.Dates.{date_length, has_date, is_dated, is_first_day, is_half_year};
ghost use Rattle.page_draw_plan_svg.specs.Dates.{is_new_year, is_tenth_day, unit_for, unit_step};

use page_draw_plan_svg::DateUnit;

/// The unit for a time of so many seconds.
#[tactic(auto, unfolding(page_draw_plan_svg::specs::Dates::unit_for))]
pub(crate) fn unit_for(seconds: u64) -> DateUnit
    ensures { result ≡ unit_for seconds }
{
    if seconds <= 21_600 {
        DateUnit::Hour
    } else if seconds <= 129_600 {
        DateUnit::SixHours
    } else if seconds <= 691_200 {
        DateUnit::Day
    } else if seconds <= 6_220_800 {
        DateUnit::TenDays
    } else if seconds <= 31_622_400 {
        DateUnit::Month
    } else if seconds <= 126_489_600 {
        DateUnit::HalfYear
    } else if seconds <= 379_468_800 {
        DateUnit::Year
    } else if seconds <= 3_794_688_000 {
        DateUnit::Decade
    } else if seconds <= 37_946_880_000 {
        DateUnit::Century
    } else {
        DateUnit::Millennium
    }
}

/// How many seconds apart the times are that may have a date.
pub(crate) fn unit_step(unit: DateUnit) -> u64
    ensures value { result ≡ unit_step unit }
    ensures some { 0 < result }
    ensures range { result ≤ 86400 }
{
    match unit {
        DateUnit::Hour => 3600,
        DateUnit::SixHours => 21_600,
        _ => 86_400,
    }
}

/// How many bytes of a time as text are its date.
pub(crate) fn date_length(unit: DateUnit) -> usize
    ensures { result ≡ date_length unit }
{
    match unit {
        DateUnit::Hour => 16,
        DateUnit::SixHours => 16,
        DateUnit::Day => 10,
        DateUnit::TenDays => 10,
        DateUnit::Month => 7,
        DateUnit::HalfYear => 7,
        _ => 4,
    }
}

fn is_tenth_day(text: &[u8]) -> bool
    requires { length text.now ≡ 20 }
    ensures { result ≡ is_tenth_day text.now }
{
    text[9] == b'1' && text[8] < b'3'
}

fn is_first_day(text: &[u8]) -> bool
    requires { length text.now ≡ 20 }
    ensures { result ≡ is_first_day text.now }
{
    text[9] == b'1' && text[8] == b'0'
}

fn is_new_year(text: &[u8]) -> bool
    requires { length text.now ≡ 20 }
    ensures { result ≡ is_new_year text.now }
{
    is_first_day(text) && (text[5] == b'0' && text[6] == b'1')
}

fn is_half_year(text: &[u8]) -> bool
    requires { length text.now ≡ 20 }
    ensures { result ≡ is_half_year text.now }
{
    is_first_day(text) && (text[5] == b'0' && (text[6] == b'1' || text[6] == b'7'))
}

/// Whether a time that a step leads to has a date, by its text.
fn has_date(unit: DateUnit, text: &[u8]) -> bool
    requires { length text.now ≡ 20 }
    ensures { result ≡ has_date unit text.now }
{
    match unit {
        DateUnit::TenDays => is_tenth_day(text),
        DateUnit::Month => is_first_day(text),
        DateUnit::HalfYear => is_half_year(text),
        DateUnit::Year => is_new_year(text),
        DateUnit::Decade => is_new_year(text) && text[3] == b'0',
        DateUnit::Century => is_new_year(text) && (text[3] == b'0' && text[2] == b'0'),
        DateUnit::Millennium => {
            is_new_year(text) && (text[3] == b'0' && (text[2] == b'0' && text[1] == b'0'))
        }
        _ => true,
    }
}

/// So it is, and the text is of the form that has a date.
pub(crate) fn is_dated(unit: DateUnit, text: &[u8]) -> bool
    ensures { result ≡ is_dated unit text.now }
{
    text.len() == 20 && has_date(unit, text)
}
