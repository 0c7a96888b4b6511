//! Lengths of time as text.
ghost use Rattle.std.specs.Prelude.{◌≡◌, ◌-◌, length, slice_index};
ghost use Rattle.book_scope_texts.specs.Durations.{duration_of, unit_of, unit_seconds};

use ao_base::read_decimal;

fn unit_of(letter: u8) -> Option<u64>
    ensures { result ≡ unit_of letter }
{
    match letter {
        b's' => Some(1),
        b'm' => Some(60),
        b'h' => Some(3600),
        b'd' => Some(86400),
        _ => None,
    }
}

fn unit_seconds(unit: u64, count: Option<u64>) -> Option<u64>
    ensures { result ≡ unit_seconds unit count }
{
    count?.checked_mul(unit)
}

/// The seconds that a text writes: a decimal with `s`, `m`, `h` or `d` behind it for seconds, minutes,
/// hours and days, or a decimal alone. None exactly where it isn't so, or 2^64 seconds or more.
#[tactic(auto, unfolding(book_scope_texts::specs::Durations::duration_of))]
pub fn read_duration(text: &[u8]) -> Option<u64>
    ensures { result ≡ duration_of text.now }
{
    let last = text.len().saturating_sub(1);
    match unit_of(last_byte(text)) {
        Some(unit) => unit_seconds(unit, read_decimal(&text[..last])),
        None => read_decimal(text),
    }
}

fn last_byte(text: &[u8]) -> u8
    ensures { result ≡ slice_index text.now (length text.now - 1) }
{
    match text {
        [.., last] => *last,
        [] => 0,
    }
}
