//! The search for the next line among the bytes that are kept, which takes more where it needs them.
ghost use Rattle.std.specs.Prelude.{◌≡◌, ℕ, ◌<◌, ◌≤◌, List, length, take, MatchOption};
ghost use Rattle.std.specs.List.{position_or_len};
ghost use Rattle.ao_base.specs.Buffered.{Buffered};
ghost use Rattle.book_base.specs.Lines.{is_newline};
ghost use Rattle.ao_base.specs.Outside.{Side};
ghost use Rattle.ao_base.specs.Found.{Finds};

use crate::buffer::Buffer;
use crate::outside::Source;
use memchr::memchr;

/// What a search for the next line finds: its length, or why there is none.
#[derive(Clone, Copy)]
pub(crate) enum Found {
    Line(usize),
    End,
    Fault,
    TooLong,
    LongLine,
}

/// Takes bytes until a line is among those that are kept, of at most `longest` bytes and with its
/// newline at most `allowed`.
pub(crate) fn find_line<S: Source>(
    buffer: &mut Buffer,
    src: &mut S,
    longest: usize,
    allowed: u64,
) -> Found
    requires { longest < buffer.old.size }
    ensures { (given : List ℕ) × Finds longest allowed buffer.old buffer.new (S.side src.old) (S.side src.new) given
        result }
{
    let mut seen = 0;
    'takes: loop {
        if let Some(len) = newline_from(buffer.kept(), seen) {
            if len > longest {
                return Found::LongLine;
            }
            if len as u64 >= allowed {
                return Found::TooLong;
            }
            return Found::Line(len);
        }
        seen = buffer.kept().len();
        if seen > longest {
            return Found::LongLine;
        }
        if seen as u64 > allowed {
            return Found::TooLong;
        }
        match buffer.more(src) {
            Err(_failed) => return Found::Fault,
            Ok(n) => {
                if n == 0 {
                    if seen == 0 {
                        return Found::End;
                    }
                    return Found::Line(seen);
                }
            }
        }
    }
}

// The place of the first newline, where the first `from` bytes have none.
fn newline_from(bytes: &[u8], from: usize) -> Option<usize>
    requires within { from ≤ length bytes.now }
    requires none { position_or_len is_newline (take from bytes.now) ≡ from }
    ensures { MatchOption result (position_or_len is_newline bytes.now ≡ length bytes.now)
        (λ n. (n ≡ position_or_len is_newline bytes.now) × (n < length bytes.now)) }
{
    match memchr(b'\n', &bytes[from..]) {
        Some(n) => Some(from + n),
        None => None,
    }
}
