//! As many bytes in a buffer as are wanted.
ghost use Rattle.std.specs.Prelude.{◌≡◌, ℕ, ◌≤◌, List, length};
ghost use Rattle.std.specs.List.{All};
ghost use Rattle.book_base.specs.Hexadecimal.{IsByte};
ghost use Rattle.ao_base.specs.Outside.{Side};
ghost use Rattle.ao_base.specs.Fillings.{Fills};

use crate::buffer::Buffer;
use crate::outside::Source;

/// What came of filling a buffer.
#[derive(Clone, Copy, Debug)]
pub enum Filled {
    /// As many are kept as are wanted.
    Enough,
    /// The source is at its end before.
    Ended,
    /// A read failed.
    Fault,
}

/// How many bytes there are.
fn count(bytes: &[u8]) -> usize
    ensures count { result ≡ length bytes.now }
    ensures bytes { All IsByte bytes.now }
{
    bytes.len()
}

/// Takes bytes from the source until as many are kept as are wanted, which the buffer has room for;
/// or the source is at its end, or a read fails.
pub fn fill<S: Source>(buffer: &mut Buffer, src: &mut S, wanted: usize) -> Filled
    requires { wanted ≤ buffer.old.size }
    ensures { (given : List ℕ) × Fills wanted buffer.old buffer.new (S.side src.old) (S.side src.new) given result }
{
    'takes: loop {
        if count(buffer.kept()) >= wanted {
            return Filled::Enough;
        }
        match buffer.more(src) {
            Err(_failed) => return Filled::Fault,
            Ok(n) => {
                if n == 0 {
                    return Filled::Ended;
                }
            }
        }
    }
}
