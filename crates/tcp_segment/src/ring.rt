//! Numbers around the ring of 2^32.
ghost use Rattle.std.specs.Prelude.{◌≡◌, ◌+◌, ◌≤◌, ◌^◌, ◌↔◌, IsTrue, IfSome, IfNone, Some};
ghost use Rattle.book_segments.specs.Bytes.{ring};
ghost use Rattle.book_segments.specs.Meant.{meant, IsAhead, IsInWindow};
ghost use Rattle.tcp_segment.specs.Ring.{next_from};

/// The length of the ring: how many sequence numbers there are.
pub(crate) const LAP: u64 = 0x1_0000_0000;
/// Half of the ring: a field this far ahead or farther means a number behind.
const HALF: u32 = 0x8000_0000;

/// The number that the sequence field `seq` means near the `expected` one: with the field's
/// remainder modulo 2^32, from 2^31 below to below 2^31 above (RFC 5925, section 6.2). `None`
/// exactly where that integer is below 0 or above 2^64 - 1.
pub fn extend(seq: u32, expected: u64) -> Option<u64>
    ensures found { IfSome result (λ n. meant seq expected ≡ Some n) }
    ensures none { IfNone result (IfSome (meant seq expected) (λ n. 2 ^ 64 ≤ n)) }
{
    let ahead = seq.wrapping_sub((expected % LAP) as u32);
    if ahead < HALF {
        expected.checked_add(u64::from(ahead))
    } else {
        expected.checked_sub(u64::from(ahead.wrapping_neg()))
    }
}

/// How far `a` is ahead of `b` around the ring: the difference modulo 2^32, from -2^31 to below
/// 2^31; below 0 where `a` is behind (RFC 9293, section 3.4).
pub fn ahead(a: u32, b: u32) -> i64
    ensures { IsAhead a b result }
{
    i64::from(a.wrapping_sub(b).cast_signed())
}

/// Whether `seq` is one of the `size` numbers from `start` on, around the ring (RFC 9293, section
/// 3.4).
pub fn in_window(seq: u32, start: u32, size: u32) -> bool
    ensures { IsTrue result ↔ IsInWindow seq start size }
{
    seq.wrapping_sub(start) < size
}

/// The first number from `at` on whose low half is `low`; it is less than one lap past `at` (RFC
/// 9293, section 3.4). `at` is one lap below 2^64 at most.
pub fn next_from(low: u32, at: u64) -> u64
    requires { at + ring ≤ 2 ^ 64 }
    ensures { result ≡ next_from low at }
{
    at + u64::from(low.wrapping_sub((at % LAP) as u32))
}
