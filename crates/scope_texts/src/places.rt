//! Where in the text of a key file a field stands.
ghost use Rattle.std.specs.Prelude.{◌≡◌, ◌<◌, ◌≤◌, ◌+◌, ◌++◌, ◌∷◌, [], ◌^◌, OnOk, length, option_map};
ghost use Rattle.book_scope_texts.specs.Places.{finding_place, is_plain_text, key_finding_line, past_byte, place_if};
ghost use Rattle.book_scope_texts.specs.Places.{place_past, place_text, plain_place, spot_place, text_place};

use crate::plain::is_bare;
use crate::spots::{blanks_length, is_spot, line_key, spot_past};
use ao_base::{next_line, past_line, push_decimal};
use book_scope_texts::{KeyFinding, KeySpot, TextPlace};
use std::alloc::AllocError;

/// The place past a byte.
fn past_byte(place: TextPlace, byte: u8) -> TextPlace
    requires line { place.line + 1 < 2 ^ 64 }
    requires column { place.column + 1 < 2 ^ 64 }
    ensures place { result ≡ past_byte place byte }
    ensures line { result.line ≤ place.line + 1 }
    ensures column { result.column ≤ place.column + 1 }
{
    if byte == b'\n' {
        return TextPlace {
            line: place.line + 1,
            column: 1,
        };
    }
    TextPlace {
        line: place.line,
        column: place.column + 1,
    }
}

/// The place behind a text that begins a line.
fn place_behind(text: &[u8]) -> TextPlace
    ensures { result ≡ place_past (record { line = 1; column = 1 }) text.now }
{
    let mut place = TextPlace { line: 1, column: 1 };
    for byte in text {
        place = past_byte(place, *byte);
    }
    place
}

/// The place of the byte with this index, at most the length of the text: its line and column, both counted
/// from 1.
#[tactic(auto, unfolding(book_scope_texts::specs::Places::text_place))]
pub fn text_place(index: usize, text: &[u8]) -> TextPlace
    requires { index ≤ length text.now }
    ensures { result ≡ text_place index text.now }
{
    place_behind(&text[..index])
}

/// The header of the spot, or its first line with the key.
#[tactic(auto, unfolding(book_scope_texts::specs::Places::spot_place))]
fn spot_place(wanted: KeySpot, field: Option<&[u8]>, text: &[u8]) -> Option<TextPlace>
    ensures { result ≡ spot_place wanted (option_map (λ f. f.now) field.entry) text.now }
{
    let mut spot = KeySpot { node: 0, row: 0 };
    let mut from = 0;
    let mut number = 0;
    while let Some(cut) = next_line(text, from) {
        let line = &text[cut.first..cut.after];
        let key = line_key(line);
        spot = spot_past(spot, key);
        from = past_line(text, cut.after);
        number += 1;
        if is_spot(wanted, field, spot, key) {
            return Some(TextPlace {
                line: number,
                column: blanks_length(line) as u64 + 1,
            });
        }
    }
    None
}

/// The place of a finding in a plain text: that of its key, or of the header of its row or node.
fn plain_place(text: &[u8], finding: &KeyFinding) -> Option<TextPlace>
    ensures { result ≡ plain_place text.now finding.now }
{
    let spot = KeySpot {
        node: u64::from(finding.node),
        row: u64::from(finding.row),
    };
    spot_place(spot, Some(finding.field.as_slice()), text).or_else(|| spot_place(spot, None, text))
}

/// The place of a finding in a text of which it is known whether it is plain.
#[tactic(auto, unfolding(book_scope_texts::specs::Places::finding_place))]
fn finding_place(text: &[u8], text_is_plain: bool, finding: &KeyFinding) -> Option<TextPlace>
    requires { text_is_plain ≡ is_plain_text text.now }
    ensures { result ≡ finding_place text.now finding.now }
{
    if text_is_plain && is_bare(finding.field.as_slice()) {
        plain_place(text, finding)
    } else {
        None
    }
}

/// Puts the place behind `out`, with what stands between it and what is said there. Where memory runs out a
/// part of it may stand there.
#[tactic(auto, unfolding(book_scope_texts::specs::Places::place_text))]
pub fn push_place(out: &mut Vec<u8>, place: TextPlace) -> Result<(), AllocError>
    ensures { OnOk result (out.new.items ≡ out.old.items ++ place_text place) }
{
    out.extend_from_slice(b"line ")?;
    push_decimal(out, place.line)?;
    out.extend_from_slice(b", column ")?;
    push_decimal(out, place.column)?;
    out.extend_from_slice(b": ")
}

fn push_place_if(out: &mut Vec<u8>, place: Option<TextPlace>) -> Result<(), AllocError>
    ensures { OnOk result (out.new.items ≡ out.old.items ++ place_if place) }
{
    match place {
        Some(place) => push_place(out, place),
        None => Ok(()),
    }
}

/// Puts the line of a finding in this text behind `out`: its place, where that is found, its field and what
/// is said of it; `text_is_plain` tells whether the text is plain. Where memory runs out a part of it may stand
/// there.
#[tactic(auto, unfolding(book_scope_texts::specs::Places::key_finding_line))]
pub fn push_finding_line(
    out: &mut Vec<u8>,
    text: &[u8],
    text_is_plain: bool,
    finding: &KeyFinding,
) -> Result<(), AllocError>
    requires { text_is_plain ≡ is_plain_text text.now }
    ensures { OnOk result (out.new.items ≡ out.old.items ++ key_finding_line text.now finding.now) }
{
    push_place_if(out, finding_place(text, text_is_plain, finding))?;
    out.extend_from_slice(finding.field.as_slice())?;
    out.extend_from_slice(finding.said.as_slice())?;
    out.extend_from_slice(b"\n")
}
