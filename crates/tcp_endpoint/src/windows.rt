//! Whether a segment is in the window.
ghost use Rattle.std.specs.Prelude.{◌≡◌, ◌+◌, ◌-◌, ◌≤◌, ◌<◌, ◌^◌, ◌==◌, ◌&&◌, ◌||◌, ℕ, Some, true, false};
ghost use Rattle.tcp_segment.specs.Counter.{number as value_of};
ghost use Rattle.book_segments.specs.Meant.{meant};
ghost use Rattle.book_segments.specs.Segments.{has, SYN, segment_length};
ghost use Rattle.book_endpoint.specs.Hearing as hearing;

use tcp_segment::{Counter, Datagram, Flag, in_window};

/// Whether a number is from `low` to below `high`.
fn is_within(number: u64, low: u64, high: u64) -> bool
    ensures { result ≡ hearing.in_range number low high }
{
    low <= number && number < high
}

/// Whether a segment of a length is acceptable at a number (RFC 9293, section 3.4), by value.
fn fits_by_value(number: u64, length: u64, expected: u64, window: u64) -> bool
    requires expected { expected + window < 2 ^ 64 }
    requires end { number + length < 2 ^ 64 }
    ensures { result ≡ hearing.fits_window number length expected window }
{
    if length == 0 {
        if window == 0 {
            return number == expected;
        }
        return is_within(number, expected, expected + window);
    }
    if window == 0 {
        return false;
    }
    is_within(number, expected, expected + window)
        || is_within(number + (length - 1), expected, expected + window)
}

/// Whether the number that a sequence means is the one expected. They lie within half the ring of
/// one another, so that their low halves decide it.
fn is_expected(sequence: u32, expected: Counter) -> bool
    ensures { (n : ℕ) → meant sequence (value_of expected) ≡ Some n → result ≡ (n == value_of expected) }
{
    sequence == expected.low
}

/// Whether the number `ahead` past the one that a sequence means is from the one expected on below
/// the end of the window. It lies less than one lap from each number of the window, so that the
/// ring decides it.
fn is_in_window(sequence: u32, ahead: u32, expected: Counter, window: u16) -> bool
    requires { ahead ≤ 65537 }
    ensures { (n : ℕ) → meant sequence (value_of expected) ≡ Some n
        → result ≡ hearing.in_range (n + ahead) (value_of expected) (value_of expected + window) }
{
    in_window(
        sequence.wrapping_add(ahead),
        expected.low,
        u32::from(window),
    )
}

/// Whether a segment of a length is acceptable at the number that its sequence means (RFC 9293,
/// section 3.4), around the ring.
fn fits_around(sequence: u32, length: u32, expected: Counter, window: u16) -> bool
    requires { length ≤ 65537 }
    ensures { (n : ℕ) → meant sequence (value_of expected) ≡ Some n
        → result ≡ hearing.fits_window n length (value_of expected) window }
{
    if length == 0 {
        if window == 0 {
            return is_expected(sequence, expected);
        }
        return is_in_window(sequence, 0, expected, window);
    }
    is_in_window(sequence, 0, expected, window)
        || is_in_window(sequence, length - 1, expected, window)
}

/// Whether a segment at a number is acceptable where `expected` is the number expected and `window`
/// may be received (RFC 9293, section 3.4). Without SYN the number is the one that its sequence
/// means near the one expected, and the ring decides. With SYN it may lie far from the one
/// expected, and is compared by value.
pub(crate) fn is_acceptable(
    datagram: &Datagram<'_>,
    number: u64,
    expected: Counter,
    window: u16,
) -> bool
    requires near { has SYN datagram.now ≡ false → meant datagram.now.sequence (value_of expected) ≡ Some number }
    requires expected { value_of expected + window < 2 ^ 64 }
    requires end { number + segment_length datagram.now < 2 ^ 64 }
    ensures { result ≡ hearing.fits_window number (segment_length datagram.now) (value_of expected) window }
{
    let length = datagram.segment_length();
    if datagram.has(Flag::Syn) {
        return fits_by_value(number, length, expected.value(), u64::from(window));
    }
    fits_around(datagram.sequence(), length as u32, expected, window)
}
