//! Pieces of printed text.
ghost use Rattle.std.specs.Prelude.{◌≡◌, ◌++◌, if◌then◌else◌, decimal};
ghost use Rattle.std.specs.Result.{is_ok};
ghost use Rattle.book_base.specs.Hexadecimal.{hex_of};

use itoa::Buffer;
use std::alloc::AllocError;

/// Puts the number in decimal behind `out`, or leaves it unchanged where memory runs out.
pub fn push_decimal(out: &mut Vec<u8>, number: u64) -> Result<(), AllocError>
    ensures { out.new.items ≡ (if is_ok result then out.old.items ++ decimal number else out.old.items) }
{
    let mut buffer = Buffer::new();
    out.extend_from_slice(buffer.format(number).as_bytes())
}

/// Puts the bytes in hexadecimal behind `out`, two digits each in lower case, or leaves it
/// unchanged where memory runs out.
pub fn push_hex(out: &mut Vec<u8>, bytes: &[u8]) -> Result<(), AllocError>
    ensures { out.new.items ≡ (if is_ok result then out.old.items ++ hex_of bytes.now else out.old.items) }
{
    let digits = hex::encode(*out.allocator(), bytes)?;
    out.extend_from_slice(digits.as_bytes())
}
