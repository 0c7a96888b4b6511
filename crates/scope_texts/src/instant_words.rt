//! Times read.
ghost use Rattle.std.specs.Prelude.{◌≡◌, length};
ghost use Rattle.book_keys.specs.Times.{time_of};
ghost use Rattle.book_scope_texts.specs.Instants.{has_marks, instant_of, without_marks};

use key_table::read_time;

/// Whether the marks of `YYYY-MM-DDTHH:MM:SSZ` stand where they do.
fn has_marks(text: &[u8]) -> bool
    ensures { result ≡ has_marks text.now }
{
    text.len() == 20
        && (text[4] == b'-'
            && (text[7] == b'-' && (text[10] == b'T' && (text[13] == b':' && text[16] == b':'))))
}

/// The digits of `YYYY-MM-DDTHH:MM:SSZ`, and its Z.
fn without_marks(text: &[u8]) -> [u8; 15]
    requires { length text.now ≡ 20 }
    ensures { result ≡ without_marks text.now }
{
    [
        text[0], text[1], text[2], text[3], text[5], text[6], text[8], text[9], text[11], text[12],
        text[14], text[15], text[17], text[18], text[19],
    ]
}

fn read_key_time(text: &[u8]) -> Option<u64>
    ensures { result ≡ time_of text.now }
{
    match std::str::from_utf8(text) {
        Ok(text) => read_time(text),
        Err(_) => None,
    }
}

/// Reads `YYYY-MM-DDTHH:MM:SSZ` (RFC 3339) or `YYYYMMDDHHMMSSZ` (the form of a key file), UTC, as seconds
/// since 1970, leap seconds not counted. `None` exactly where the text is of neither form, the year is
/// before 1970, the calendar has no such date, or hour, minute or second are past 23, 59 and 59.
#[tactic(auto, unfolding(book_scope_texts::specs::Instants::instant_of))]
pub fn read_instant(text: &[u8]) -> Option<u64>
    ensures { result ≡ instant_of text.now }
{
    if has_marks(text) {
        read_key_time(without_marks(text).as_slice())
    } else {
        read_key_time(text)
    }
}
