//! Decimals.
ghost use Rattle.std.specs.Prelude.{◌≡◌};
ghost use Rattle.std.specs.Char.{is_ascii_digit};
ghost use Rattle.std.specs.List.{list_all};
ghost use Rattle.book_base.specs.Decimals.{decimal_of};

/// The number that a word writes in decimal; None exactly where it isn't 1 to 20 digits or its
/// value is 2^64 or more. Leading zeros count as digits.
pub fn read_decimal(word: &[u8]) -> Option<u64>
    ensures { result ≡ decimal_of word.now }
{
    if word.len() > 20 {
        return None;
    }
    if !is_digits(word) {
        return None;
    }
    match std::str::from_utf8(word) {
        Ok(digits) => digits.parse().ok(),
        Err(_) => None,
    }
}

fn is_digits(word: &[u8]) -> bool
    ensures { result ≡ list_all is_ascii_digit word.now }
{
    word.iter().all(|byte| byte.is_ascii_digit())
}
