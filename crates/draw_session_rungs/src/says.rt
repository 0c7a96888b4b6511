//! What segments say, and whether two say the same.
ghost use Rattle.std.specs.Prelude.{◌≡◌, ◌++◌, IfOk, OnOk};
ghost use Rattle.std.specs.Str.{bytes_eq};
ghost use Rattle.book_draw.specs.Folds.{key_words, rung_words, run_words};
ghost use Rattle.book_sessions.specs.SessionTexts.{id_text};

use crate::lines::{key_id_of, push_ids, push_label, push_outcome};
use ao_base::push_decimal;
use book_draw::SessionRung;
use std::alloc::{AllocError, Global};

fn is_same_text(one: &[u8], two: &[u8]) -> bool
    ensures { result ≡ bytes_eq one.now two.now }
{
    one == two
}

// What a segment says.
fn rung_words(alloc: Global, rung: &SessionRung) -> Result<Vec<u8>, AllocError>
    ensures { IfOk result (λ text. text.items ≡ rung_words rung.now) }
{
    let mut text = Vec::new(alloc);
    push_label(&mut text, rung)?;
    push_outcome(&mut text, rung.outcome)?;
    Ok(text)
}

// The keys that a segment names, and what is said of it.
fn key_words(alloc: Global, rung: &SessionRung) -> Result<Vec<u8>, AllocError>
    ensures { IfOk result (λ text. text.items ≡ key_words rung.now) }
{
    let mut text = Vec::new(alloc);
    push_ids(&mut text, rung.ids)?;
    push_outcome(&mut text, rung.outcome)?;
    Ok(text)
}

/// Puts the key that a segment is under, and what is said of it, behind `out`.
pub(crate) fn push_run_words(out: &mut Vec<u8>, rung: &SessionRung) -> Result<(), AllocError>
    ensures { OnOk result (out.new.items ≡ out.old.items ++ run_words rung.now) }
{
    out.extend_from_slice(b", key ")?;
    push_bare_id(out, key_id_of(rung.ids))?;
    out.push(b',')?;
    push_outcome(out, rung.outcome)
}

// Puts the KeyID behind `out`, or a dash where there is none.
fn push_bare_id(out: &mut Vec<u8>, id: Option<u8>) -> Result<(), AllocError>
    ensures { OnOk result (out.new.items ≡ out.old.items ++ id_text id) }
{
    match id {
        None => out.extend_from_slice(b"-"),
        Some(id) => push_decimal(out, u64::from(id)),
    }
}

// The same as a text of its own.
fn run_words(alloc: Global, rung: &SessionRung) -> Result<Vec<u8>, AllocError>
    ensures { IfOk result (λ text. text.items ≡ run_words rung.now) }
{
    let mut text = Vec::new(alloc);
    push_run_words(&mut text, rung)?;
    Ok(text)
}

/// Whether two segments say the same.
pub(crate) fn is_saying(
    alloc: Global,
    one: &SessionRung,
    two: &SessionRung,
) -> Result<bool, AllocError>
    ensures { IfOk result (λ same. same ≡ bytes_eq (rung_words one.now) (rung_words two.now)) }
{
    let first = rung_words(alloc, one)?;
    let second = rung_words(alloc, two)?;
    Ok(is_same_text(first.as_slice(), second.as_slice()))
}

/// Whether two segments name the same keys, and the same is said of them.
pub(crate) fn is_keyed(
    alloc: Global,
    one: &SessionRung,
    two: &SessionRung,
) -> Result<bool, AllocError>
    ensures { IfOk result (λ same. same ≡ bytes_eq (key_words one.now) (key_words two.now)) }
{
    let first = key_words(alloc, one)?;
    let second = key_words(alloc, two)?;
    Ok(is_same_text(first.as_slice(), second.as_slice()))
}

/// Whether two segments are under one key, and the same is said of them.
pub(crate) fn is_even(
    alloc: Global,
    one: &SessionRung,
    two: &SessionRung,
) -> Result<bool, AllocError>
    ensures { IfOk result (λ same. same ≡ bytes_eq (run_words one.now) (run_words two.now)) }
{
    let first = run_words(alloc, one)?;
    let second = run_words(alloc, two)?;
    Ok(is_same_text(first.as_slice(), second.as_slice()))
}
