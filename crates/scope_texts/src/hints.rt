//! Why a value is no time.
ghost use Rattle.std.specs.Prelude.{◌≡◌, ◌+◌, ◌≤◌, ◌++◌, ◌&&◌, IsTrue, OnOk, length};
ghost use Rattle.toml_datetime.specs.Parse.{parse_datetime};
ghost use Rattle.book_keys.specs.Times.{two_digits_at};
ghost use Rattle.book_scope_texts.specs.Hints.{date_hint, digits_at, form_hint, has_digits_at, has_time_form};
ghost use Rattle.book_scope_texts.specs.Hints.{part_hint, range_hint, time_hint};

use crate::moments::{push_moment_hint, read_moment};
use ao_base::push_decimal;
use std::alloc::AllocError;

/// The number that two digits from an index on write.
#[tactic(auto, unfolding(book_keys::specs::Times::two_digits_at))]
fn two_digits(text: &[u8], at: usize) -> Option<u8>
    requires { at + 2 ≤ length text.now }
    ensures { result ≡ two_digits_at text.now at }
{
    let tens = text[at];
    let ones = text[at + 1];
    if tens >= b'0' && tens <= b'9' && ones >= b'0' && ones <= b'9' {
        Some(10 * (tens - b'0') + (ones - b'0'))
    } else {
        None
    }
}

fn digits_at(text: &[u8], at: usize) -> u8
    requires { at + 2 ≤ length text.now }
    ensures { result ≡ digits_at text.now at }
{
    two_digits(text, at).unwrap_or(0)
}

fn has_digits_at(text: &[u8], at: usize) -> bool
    requires { at + 2 ≤ length text.now }
    ensures { result ≡ has_digits_at text.now at }
{
    two_digits(text, at).is_some()
}

fn has_date(text: &[u8]) -> bool
    requires { length text.now ≡ 15 }
    ensures { result ≡ (has_digits_at text.now 0 && (has_digits_at text.now 2 && has_digits_at text.now 4)) }
{
    has_digits_at(text, 0) && (has_digits_at(text, 2) && has_digits_at(text, 4))
}

fn has_day_and_hour(text: &[u8]) -> bool
    requires { length text.now ≡ 15 }
    ensures { result ≡ (has_digits_at text.now 6 && has_digits_at text.now 8) }
{
    has_digits_at(text, 6) && has_digits_at(text, 8)
}

fn has_minute_and_second(text: &[u8]) -> bool
    requires { length text.now ≡ 15 }
    ensures { result ≡ (has_digits_at text.now 10 && has_digits_at text.now 12) }
{
    has_digits_at(text, 10) && has_digits_at(text, 12)
}

/// Whether a text has the form of a time, 14 digits and Z.
#[tactic(auto, unfolding(book_scope_texts::specs::Hints::has_time_form))]
fn has_time_form(text: &[u8]) -> bool
    ensures form { result ≡ has_time_form text.now }
    ensures length { IsTrue result → length text.now ≡ 15 }
{
    if text.len() == 15 && text[14] == b'Z' {
        has_date(text) && (has_day_and_hour(text) && has_minute_and_second(text))
    } else {
        false
    }
}

#[tactic(auto, unfolding(book_scope_texts::specs::Hints::part_hint))]
fn push_part(out: &mut Vec<u8>, part: &[u8], number: u64) -> Result<(), AllocError>
    ensures { OnOk result (out.new.items ≡ out.old.items ++ part_hint part.now number) }
{
    out.extend_from_slice(b", ")?;
    out.extend_from_slice(part)?;
    out.extend_from_slice(b" ")?;
    push_decimal(out, number)
}

#[tactic(auto, unfolding(book_scope_texts::specs::Hints::date_hint))]
fn push_date_hint(out: &mut Vec<u8>, year: u64, month: u64, day: u64) -> Result<(), AllocError>
    ensures { OnOk result (out.new.items ≡ out.old.items ++ date_hint year month day) }
{
    if year < 1970 {
        push_part(out, b"year", year)
    } else if 1 <= month && month <= 12 {
        push_part(out, b"day", day)
    } else {
        push_part(out, b"month", month)
    }
}

/// Puts behind `out` which part of 14 digits that are no time is out of its range.
#[tactic(auto, unfolding(book_scope_texts::specs::Hints::range_hint, book_scope_texts::specs::Hints::clock_hint))]
fn push_range_hint(out: &mut Vec<u8>, text: &[u8]) -> Result<(), AllocError>
    requires { length text.now ≡ 15 }
    ensures { OnOk result (out.new.items ≡ out.old.items ++ range_hint text.now) }
{
    let hour = u64::from(digits_at(text, 8));
    let minute = u64::from(digits_at(text, 10));
    let second = u64::from(digits_at(text, 12));
    if hour > 23 {
        return push_part(out, b"hour", hour);
    }
    if minute > 59 {
        return push_part(out, b"minute", minute);
    }
    if second > 59 {
        return push_part(out, b"second", second);
    }
    let year = 100 * u64::from(digits_at(text, 0)) + u64::from(digits_at(text, 2));
    let month = u64::from(digits_at(text, 4));
    push_date_hint(out, year, month, u64::from(digits_at(text, 6)))
}

fn push_form_hint(out: &mut Vec<u8>, text: &str) -> Result<(), AllocError>
    ensures { OnOk result (out.new.items ≡ out.old.items ++ form_hint (parse_datetime text.now)) }
{
    match read_moment(text) {
        Some(moment) => push_moment_hint(out, &moment),
        None => Ok(()),
    }
}

/// Puts behind `out` why a text is no time: a part of it that is out of its range, that it names no end, or
/// how a key file writes it where it is of another form. Where memory runs out a part of that may stand
/// there.
#[tactic(auto, unfolding(book_scope_texts::specs::Hints::time_hint))]
pub fn push_time_hint(out: &mut Vec<u8>, text: &str) -> Result<(), AllocError>
    ensures { OnOk result (out.new.items ≡ out.old.items ++ time_hint text.now) }
{
    let bytes = text.as_bytes();
    if has_time_form(bytes) {
        return push_range_hint(out, bytes);
    }
    if bytes == b"infinite".as_slice() {
        return out.extend_from_slice(b", without an end: leave the field out");
    }
    push_form_hint(out, text)
}
