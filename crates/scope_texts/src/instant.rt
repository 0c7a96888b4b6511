//! Times as text.
ghost use Rattle.std.specs.Prelude.{◌≡◌, ◌<◌, ◌++◌, ◌∷◌, [], OnOk};
ghost use Rattle.book_scope_texts.specs.Instants.{calendar_day, clock_text, day_text, four_digits, instant_text};
ghost use Rattle.book_scope_texts.specs.Instants.{key_time_text, two_digits};

use ao_base::push_decimal;
use book_keys::LATEST;
use book_scope_texts::CalendarDay;
use jiff_core::civil::Date;
use std::alloc::AllocError;

/// The day so many days after the first of January of 1970.
fn calendar_day(number: u64) -> CalendarDay
    requires { number < 2_932_897 }
    ensures value { result ≡ calendar_day number }
    ensures year { result.year < 10000 }
    ensures month { result.month < 100 }
    ensures day { result.day < 100 }
{
    match Date::from_unix_epoch_day(number as i64) {
        Ok(date) => CalendarDay {
            year: date.year.unsigned_abs(),
            month: date.month,
            day: date.day,
        },
        Err(_) => unreachable!(),
    }
}

fn push_two(out: &mut Vec<u8>, number: u8) -> Result<(), AllocError>
    requires { number < 100 }
    ensures { OnOk result (out.new.items ≡ out.old.items ++ two_digits number) }
{
    out.push(b'0' + number / 10)?;
    out.push(b'0' + number % 10)?;
    Ok(())
}

fn push_four(out: &mut Vec<u8>, number: u16) -> Result<(), AllocError>
    requires { number < 10000 }
    ensures { OnOk result (out.new.items ≡ out.old.items ++ four_digits number) }
{
    push_two(out, (number / 100) as u8)?;
    push_two(out, (number % 100) as u8)
}

/// The day so many days after the first of January of 1970, with a text between year, month and day.
fn push_day(out: &mut Vec<u8>, number: u64, between: &[u8]) -> Result<(), AllocError>
    requires { number < 2_932_897 }
    ensures { OnOk result (out.new.items ≡ out.old.items ++ day_text between.now (calendar_day number)) }
{
    let day = calendar_day(number);
    push_four(out, day.year)?;
    out.extend_from_slice(between)?;
    push_two(out, day.month)?;
    out.extend_from_slice(between)?;
    push_two(out, day.day)
}

/// A second of the day, with a text between hour, minute and second.
fn push_clock(out: &mut Vec<u8>, second: u64, between: &[u8]) -> Result<(), AllocError>
    requires { second < 86400 }
    ensures { OnOk result (out.new.items ≡ out.old.items ++ clock_text between.now second) }
{
    push_two(out, (second / 3600) as u8)?;
    out.extend_from_slice(between)?;
    push_two(out, (second / 60 % 60) as u8)?;
    out.extend_from_slice(between)?;
    push_two(out, (second % 60) as u8)
}

/// Puts the time, in seconds since 1970 with leap seconds not counted, behind `out` as
/// `YYYY-MM-DDTHH:MM:SSZ` (RFC 3339); past the year 9999, the number of seconds. Where memory runs out a
/// part of it may stand there.
#[tactic(auto, unfolding(book_scope_texts::specs::Instants::instant_text))]
pub fn push_instant(out: &mut Vec<u8>, seconds: u64) -> Result<(), AllocError>
    ensures { OnOk result (out.new.items ≡ out.old.items ++ instant_text seconds) }
{
    if seconds > LATEST {
        return push_decimal(out, seconds);
    }
    push_day(out, seconds / 86400, b"-")?;
    out.push(b'T')?;
    push_clock(out, seconds % 86400, b":")?;
    out.push(b'Z')?;
    Ok(())
}

/// Puts the time, in seconds since 1970 with leap seconds not counted, behind `out` as `YYYYMMDDHHMMSSZ`,
/// the form of a key file; past the year 9999, the number of seconds. Where memory runs out a part of it
/// may stand there.
#[tactic(auto, unfolding(book_scope_texts::specs::Instants::key_time_text))]
pub fn push_key_time(out: &mut Vec<u8>, seconds: u64) -> Result<(), AllocError>
    ensures { OnOk result (out.new.items ≡ out.old.items ++ key_time_text seconds) }
{
    if seconds > LATEST {
        return push_decimal(out, seconds);
    }
    push_day(out, seconds / 86400, b"")?;
    push_clock(out, seconds % 86400, b"")?;
    out.push(b'Z')?;
    Ok(())
}
