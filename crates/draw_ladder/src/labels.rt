//! What is written on arrows.
ghost use Rattle.std.specs.Prelude.{◌≡◌, ◌++◌, ◌∷◌, [], List, OnOk, codes, decimal, nat_lt};
ghost use Rattle.book_lines.specs.Texts.{spaced};
ghost use Rattle.book_link.specs.Reports.{flags_text};
ghost use Rattle.book_draw.specs.declared.rung.Rung.{Rung as Step};
ghost use Rattle.book_draw.specs.Fates.{has_come, newest_at};
ghost use Rattle.book_draw.specs.Ladders.{arrival_label, length_label, number_label, sketch_label, word_if};
ghost use Rattle.draw_ladder.specs.Sights.{Saw};

use crate::fates::Seen;
use ao_base::push_decimal;
use book_base::End;
use book_draw::{Brought, Sketch};
use link_report::flags_word;
use std::alloc::AllocError;
use text_lines::{push_field, push_text};

fn push_name(out: &mut Vec<u8>, name: u32) -> Result<(), AllocError>
    ensures { OnOk result (out.new.items ≡ out.old.items ++ number_label name) }
{
    out.extend_from_slice(b" #")?;
    push_decimal(out, u64::from(name))
}

fn push_length(out: &mut Vec<u8>, length: u64) -> Result<(), AllocError>
    ensures { OnOk result (out.new.items ≡ out.old.items ++ length_label length) }
{
    if length != 0 {
        push_field(out, b"len", length)?;
    }
    Ok(())
}

/// The flags of a segment, and its two keys.
fn push_keys(out: &mut Vec<u8>, sketch: &Sketch) -> Result<(), AllocError>
    ensures { OnOk result (out.new.items ≡ out.old.items
        ++ spaced (flags_text sketch.now.flags ∷ codes "key" ∷ decimal sketch.now.key_id ∷ codes "asks"
        ∷ decimal sketch.now.rnext_key_id ∷ [])) }
{
    push_text(out, flags_word(sketch.flags))?;
    push_field(out, b"key", u64::from(sketch.key_id))?;
    push_field(out, b"asks", u64::from(sketch.rnext_key_id))
}

/// Puts what is written on the arrow of a segment behind `out`.
pub fn push_sketch(out: &mut Vec<u8>, sketch: &Sketch) -> Result<(), AllocError>
    ensures { OnOk result (out.new.items ≡ out.old.items ++ sketch_label sketch.now) }
{
    push_name(out, sketch.name)?;
    push_keys(out, sketch)?;
    push_length(out, sketch.length)
}

/// Puts the word behind `out`, where it holds.
fn push_if(out: &mut Vec<u8>, holds: bool, word: &[u8]) -> Result<(), AllocError>
    ensures { OnOk result (out.new.items ≡ out.old.items ++ word_if holds word.now) }
{
    if holds {
        out.extend_from_slice(word)?;
    }
    Ok(())
}

/// The number of a segment, whether it came before, and whether one that was made later did.
fn push_segment(out: &mut Vec<u8>, end: End, seen: &Seen, name: u32) -> Result<(), AllocError>
    ensures { OnOk result ((earlier : List Step) → Saw seen.now earlier → out.new.items ≡ out.old.items
        ++ (number_label name ++ (word_if (has_come name earlier) (codes " again")
        ++ word_if (nat_lt name (newest_at end earlier)) (codes " late")))) }
{
    push_name(out, name)?;
    push_if(out, seen.has_come(name), b" again")?;
    push_if(out, name < seen.newest(end), b" late")
}

fn push_altered(out: &mut Vec<u8>, name: u32) -> Result<(), AllocError>
    ensures { OnOk result (out.new.items ≡ out.old.items ++ (number_label name ++ codes " altered")) }
{
    push_name(out, name)?;
    out.extend_from_slice(b" altered")
}

/// Puts what is written on the arrow of what came, after what was seen, behind `out`.
pub fn push_arrival(
    out: &mut Vec<u8>,
    end: End,
    seen: &Seen,
    what: Brought,
) -> Result<(), AllocError>
    ensures { OnOk result ((earlier : List Step) → Saw seen.now earlier
        → out.new.items ≡ out.old.items ++ arrival_label end earlier what) }
{
    match what {
        Brought::Segment(name) => push_segment(out, end, seen, name),
        Brought::Altered(name) => push_altered(out, name),
        Brought::Injected => out.extend_from_slice(b" injected"),
    }
}
