//! The time for which a date and a time of the day of TOML stand, as a key file writes it.
ghost use Rattle.std.specs.Prelude.{◌≡◌, ◌<◌, ◌++◌, OnOk};
ghost use Rattle.toml_datetime.specs.Parse.{parse_datetime};
ghost use Rattle.book_scope_texts.specs.Moments.{behind_clock, earlier_by, in_utc, is_zoneless, later_by};
ghost use Rattle.book_scope_texts.specs.Moments.{moment_digits, moment_hint, moment_said, ones_digit, parts_moment};
ghost use Rattle.book_scope_texts.specs.Moments.{tens_digit};

use crate::instant::push_key_time;
use crate::instant_words::read_instant;
use book_keys::LATEST;
use std::alloc::AllocError;
use std::str::FromStr;
use toml_datetime::{Date, Datetime, Offset, Time};

fn tens_digit(number: u16) -> u8
    requires { number < 2000 }
    ensures { result ≡ tens_digit number }
{
    b'0' + (number / 10) as u8
}

fn ones_digit(number: u16) -> u8
    ensures { result ≡ ones_digit number }
{
    b'0' + (number % 10) as u8
}

/// A date and a time of the day in 14 digits, and Z.
fn moment_digits(date: Date, time: Time) -> [u8; 15]
    ensures { result ≡ moment_digits date time }
{
    let century = date.year / 100;
    let year = date.year % 100;
    let month = u16::from(date.month);
    let day = u16::from(date.day);
    let hour = u16::from(time.hour);
    let minute = u16::from(time.minute);
    let second = u16::from(time.second.unwrap_or(0));
    [
        tens_digit(century),
        ones_digit(century),
        tens_digit(year),
        ones_digit(year),
        tens_digit(month),
        ones_digit(month),
        tens_digit(day),
        ones_digit(day),
        tens_digit(hour),
        ones_digit(hour),
        tens_digit(minute),
        ones_digit(minute),
        tens_digit(second),
        ones_digit(second),
        b'Z',
    ]
}

fn later_by(time: u64, seconds: u64) -> Option<u64>
    requires { seconds < 10_000_000 }
    ensures { result ≡ later_by time seconds }
{
    if time <= LATEST && time + seconds <= LATEST {
        Some(time + seconds)
    } else {
        None
    }
}

fn earlier_by(time: u64, seconds: u64) -> Option<u64>
    ensures { result ≡ earlier_by time seconds }
{
    if seconds <= time {
        Some(time - seconds)
    } else {
        None
    }
}

/// The time in UTC that a clock which is so many minutes ahead of it shows.
fn behind_clock(minutes: i16, time: u64) -> Option<u64>
    ensures { result ≡ behind_clock minutes time }
{
    let seconds = 60 * u64::from(minutes.unsigned_abs());
    if minutes < 0 {
        later_by(time, seconds)
    } else {
        earlier_by(time, seconds)
    }
}

fn in_utc(offset: Offset, time: u64) -> Option<u64>
    ensures { result ≡ in_utc offset time }
{
    match offset {
        Offset::Z => Some(time),
        Offset::Custom { minutes } => behind_clock(minutes, time),
    }
}

fn moment_of(date: Date, time: Time, offset: Offset) -> Option<u64>
    ensures { result ≡ parts_moment (Some date) (Some time) (Some offset) }
{
    match read_instant(moment_digits(date, time).as_slice()) {
        Some(seconds) => in_utc(offset, seconds),
        None => None,
    }
}

/// The time for which a date, a time of the day and an offset stand, where all are there.
fn parts_moment(date: Option<Date>, time: Option<Time>, offset: Option<Offset>) -> Option<u64>
    ensures { result ≡ parts_moment date time offset }
{
    match (date, time, offset) {
        (Some(date), Some(time), Some(offset)) => moment_of(date, time, offset),
        _ => None,
    }
}

fn is_zoneless(moment: &Datetime) -> bool
    ensures { result ≡ is_zoneless moment.now }
{
    moment.date.is_some() && (moment.time.is_some() && !moment.offset.is_some())
}

fn push_written(out: &mut Vec<u8>, seconds: u64, zoneless: bool) -> Result<(), AllocError>
    ensures { OnOk result (out.new.items ≡ out.old.items ++ moment_said (Some seconds) zoneless) }
{
    out.extend_from_slice(b", which is written \"")?;
    push_key_time(out, seconds)?;
    out.extend_from_slice(b"\"")
}

fn zone_hint(zoneless: bool) -> &'static [u8]
    ensures { result.now ≡ moment_said None zoneless }
{
    if zoneless {
        b", of no zone: a time is in UTC"
    } else {
        b""
    }
}

/// Puts behind `out` how a key file writes a date or time of TOML, or why that isn't known. Where memory runs
/// out a part of it may stand there.
#[tactic(auto, unfolding(book_scope_texts::specs::Moments::moment_hint))]
pub fn push_moment_hint(out: &mut Vec<u8>, moment: &Datetime) -> Result<(), AllocError>
    ensures { OnOk result (out.new.items ≡ out.old.items ++ moment_hint moment.now) }
{
    let zoneless = is_zoneless(moment);
    match parts_moment(moment.date, moment.time, moment.offset) {
        Some(seconds) => push_written(out, seconds, zoneless),
        None => out.extend_from_slice(zone_hint(zoneless)),
    }
}

/// The date or time of TOML that a text writes.
pub(crate) fn read_moment(text: &str) -> Option<Datetime>
    ensures { result ≡ parse_datetime text.now }
{
    Datetime::from_str(text).ok()
}
