//! To which node and row of a key file a line belongs.
ghost use Rattle.std.specs.Prelude.{◌≡◌, ◌<◌, ◌≤◌, ◌+◌, ◌^◌, ◌==◌, drop, length, not, option_map};
ghost use Rattle.std.specs.List.{position, position_or_len, prefix_len};
ghost use Rattle.book_base.specs.Lines.{is_blank};
ghost use Rattle.book_scope_texts.specs.Places.{ends_key, is_header, is_spot, line_key_length, line_key, spot_past};
ghost use Rattle.book_scope_texts.specs.Places.{without_blanks};

use book_scope_texts::KeySpot;

fn ends_key(byte: u8) -> bool
    ensures { result ≡ ends_key byte }
{
    is_blank(byte) || (byte == b'=' || byte == b'#')
}

fn key_end(text: &[u8]) -> Option<usize>
    ensures { result ≡ position ends_key text.now }
{
    text.iter().position(|byte| ends_key(*byte))
}

/// How many bytes the key has with which a text begins.
pub(crate) fn line_key_length(text: &[u8]) -> usize
    ensures length { result ≡ line_key_length text.now }
    ensures within { result ≤ length text.now }
{
    key_end(text).unwrap_or(text.len())
}

/// A line without the blanks in front of it.
pub(crate) fn without_blanks(line: &[u8]) -> &[u8]
    ensures { result.now ≡ without_blanks line.now }
{
    &line[blanks_length(line)..]
}

/// The key of a line: what it begins with, up to a blank, an equals sign or a comment.
#[tactic(auto, unfolding(book_scope_texts::specs::Places::line_key))]
pub(crate) fn line_key(line: &[u8]) -> &[u8]
    ensures { result.now ≡ line_key line.now }
{
    let line = without_blanks(line);
    &line[..line_key_length(line)]
}

/// Whether a key is the header of a node or a row.
pub(crate) fn is_header(key: &[u8]) -> bool
    ensures { result ≡ is_header key.now }
{
    key == b"[[node]]".as_slice() || key == b"[[node.key]]".as_slice()
}

/// The spot of a line with this key, by that of the line before.
#[tactic(auto, unfolding(book_scope_texts::specs::Places::spot_past))]
pub(crate) fn spot_past(spot: KeySpot, key: &[u8]) -> KeySpot
    requires node { spot.node + 1 < 2 ^ 64 }
    requires row { spot.row + 1 < 2 ^ 64 }
    ensures spot { result ≡ spot_past spot key.now }
    ensures node { result.node ≤ spot.node + 1 }
    ensures row { result.row ≤ spot.row + 1 }
{
    if key == b"[[node]]".as_slice() {
        return KeySpot {
            node: spot.node + 1,
            row: 0,
        };
    }
    if key == b"[[node.key]]".as_slice() {
        return KeySpot {
            node: spot.node,
            row: spot.row + 1,
        };
    }
    spot
}

/// Whether a line of this spot and key is one that is looked for: a header, or a field.
pub(crate) fn is_spot(wanted: KeySpot, field: Option<&[u8]>, spot: KeySpot, key: &[u8]) -> bool
    ensures { result ≡ is_spot wanted (option_map (λ f. f.now) field.entry) spot key.now }
{
    match field {
        Some(field) => (spot.node == wanted.node && spot.row == wanted.row) && key == field,
        None => (spot.node == wanted.node && spot.row == wanted.row) && is_header(key),
    }
}

/// How many blanks a line begins with.
pub(crate) fn blanks_length(line: &[u8]) -> usize
    ensures length { result ≡ prefix_len is_blank line.now }
    ensures within { result ≤ length line.now }
{
    first_word_at(line).unwrap_or(line.len())
}

fn first_word_at(line: &[u8]) -> Option<usize>
    ensures { result ≡ position (λ byte. not (is_blank byte)) line.now }
{
    line.iter().position(|byte| !is_blank(*byte))
}

fn is_blank(byte: u8) -> bool
    ensures { result ≡ is_blank byte }
{
    byte == b' ' || byte == b'\t' || byte == b'\r'
}
