//! The keys of a session, and the samples of their colours.
ghost use Rattle.std.specs.Prelude.{◌≡◌, ◌≤◌, ◌<◌, ◌++◌, IfOk, OnOk, codes};
ghost use Rattle.std.specs.List.{list_any};
ghost use Rattle.page_draw_svg.specs.SessionPictures.{and_key, key_name, key_sample_svg, key_samples_from};
ghost use Rattle.page_draw_svg.specs.SessionPictures.{keys_drawn};
ghost use Rattle.book_sessions.specs.Sessions.{same_id};
ghost use Rattle.page_svg.specs.Tags.{colour_text};

use crate::lines::key_id_of;
use ao_base::push_decimal;
use book_draw::SessionRung;
use page_svg::{Point, push_colour, push_line, push_words};
use std::alloc::{AllocError, Global};

/// How many samples stand side by side.
const MOST_SAMPLES: usize = 8;

fn is_same_id(one: Option<u8>, two: Option<u8>) -> bool
    ensures { result ≡ same_id one two }
{
    one == two
}

fn is_known(known: &[Option<u8>], key: Option<u8>) -> bool
    ensures { result ≡ list_any (same_id key) known.now }
{
    known.iter().any(|other| is_same_id(key, *other))
}

/// Puts the key of a segment behind those that are known, unless it is one of them.
fn push_key(known: &mut Vec<Option<u8>>, rung: &SessionRung) -> Result<(), AllocError>
    ensures { OnOk result (known.new.items ≡ and_key known.old.items rung.now) }
{
    let key = key_id_of(rung.ids);
    if is_known(known.as_slice(), key) {
        return Ok(());
    }
    known.push(key)?;
    Ok(())
}

/// The keys of segments, in the order of their first ones.
pub(crate) fn keys_drawn(
    alloc: Global,
    rungs: &[SessionRung],
) -> Result<Vec<Option<u8>>, AllocError>
    ensures { IfOk result (λ keys. keys.items ≡ keys_drawn rungs.now) }
{
    let mut known = Vec::new(alloc);
    for rung in rungs {
        push_key(&mut known, rung)?;
    }
    Ok(known)
}

/// The name of a key.
fn push_key_name(out: &mut Vec<u8>, key: Option<u8>) -> Result<(), AllocError>
    ensures { OnOk result (out.new.items ≡ out.old.items ++ key_name key) }
{
    match key {
        None => out.extend_from_slice(b"no key"),
        Some(id) => {
            out.extend_from_slice(b"key ")?;
            push_decimal(out, u64::from(id))
        }
    }
}

/// The attribute of a key's colour.
fn push_stroke(out: &mut Vec<u8>, key: Option<u8>) -> Result<(), AllocError>
    ensures { OnOk result (out.new.items ≡ out.old.items ++ (codes " stroke=\"" ++ (colour_text key ++ codes "\""))) }
{
    out.extend_from_slice(b" stroke=\"")?;
    push_colour(out, key)?;
    out.extend_from_slice(b"\"")
}

/// The sample of a key's colour, in this place, with its name.
#[tactic(auto, unfolding(page_draw_svg::specs::SessionPictures::key_sample_svg))]
fn push_key_sample(out: &mut Vec<u8>, place: u8, key: Option<u8>) -> Result<(), AllocError>
    ensures { OnOk result (out.new.items ≡ out.old.items ++ key_sample_svg place key) }
{
    let x = 96 * u64::from(place);
    let mut stroke = Vec::new(*out.allocator());
    push_stroke(&mut stroke, key)?;
    let mut name = Vec::new(*out.allocator());
    push_key_name(&mut name, key)?;
    let from = Point { x: x + 20, y: 44 };
    let to = Point { x: x + 50, y: 44 };
    push_line(out, from, to, stroke.as_slice())?;
    push_words(out, Point { x: x + 56, y: 48 }, false, name.as_slice())
}

/// The samples of keys, at most eight.
pub(crate) fn push_key_samples(out: &mut Vec<u8>, keys: &[Option<u8>]) -> Result<(), AllocError>
    ensures { OnOk result (out.new.items ≡ out.old.items ++ key_samples_from 0 keys.now) }
{
    for (place, key) in keys.iter().enumerate() {
        if place >= MOST_SAMPLES {
            return Ok(());
        }
        push_key_sample(out, place as u8, *key)?;
    }
    Ok(())
}
