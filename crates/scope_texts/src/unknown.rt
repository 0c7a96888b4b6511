//! What is found of the keys of a table that nobody knows.
ghost use Rattle.std.specs.Prelude.{◌≡◌, ◌++◌, OnOk, map, option_map};
ghost use Rattle.std.specs.List.{list_any};
ghost use Rattle.std.specs.Str.{bytes_eq};
ghost use Rattle.toml.specs.View.{table_view};
ghost use Rattle.book_scope_texts.specs.RowFindings.{key_finding, keys_in, meant_at, meant_text, unknown_findings};

use crate::field::push_finding;
use crate::shown::push_shown_text;
use crate::suggestions::meant_word;
use book_scope_texts::{KeyFinding, KeyPlace};
use std::alloc::AllocError;
use toml::Table;

fn is_word(key: &[u8], word: &str) -> bool
    ensures { result ≡ bytes_eq key.now word.now }
{
    key == word.as_bytes()
}

fn is_among(known: &[&str], key: &[u8]) -> bool
    ensures { result ≡ list_any (λ w. bytes_eq key.now w.now) known.now }
{
    known.iter().any(|word| is_word(key, word))
}

fn is_known(known: &[&str], key: &[u8]) -> bool
    ensures { result ≡ list_any (bytes_eq key.now) (map (λ w. w.now) known.now) }
{
    is_among(known, key)
}

fn push_meant(out: &mut Vec<u8>, word: Option<&str>) -> Result<(), AllocError>
    ensures { OnOk result (out.new.items ≡ out.old.items ++ meant_text (option_map (λ w. w.now) word.entry)) }
{
    match word {
        Some(word) => {
            out.extend_from_slice(b"no such field; did you mean ")?;
            out.extend_from_slice(word.as_bytes())?;
            out.extend_from_slice(b"?")
        }
        None => out.extend_from_slice(b"no such field"),
    }
}

/// The known key that is meant by another one at a place.
fn meant_at<'a>(place: &KeyPlace, known: &[&'a str], key: &[u8]) -> Option<&'a str>
    ensures { option_map (λ w. w.now) result ≡ meant_at place.now (map (λ w. w.now) known.now) key.now }
{
    if place.node == 0 && key == b"key".as_slice() {
        Some("[[node.key]]")
    } else {
        meant_word(known, key)
    }
}

#[tactic(auto, unfolding(book_scope_texts::specs::RowFindings::key_finding))]
fn push_key(
    findings: &mut Vec<KeyFinding>,
    known: &[&str],
    place: &KeyPlace,
    key: &[u8],
) -> Result<(), AllocError>
    ensures { OnOk result (findings.new.items ≡ findings.old.items
        ++ key_finding (map (λ w. w.now) known.now) place.now key.now) }
{
    if is_known(known, key) {
        return Ok(());
    }
    let mut shown = Vec::new(*findings.allocator());
    push_shown_text(&mut shown, key)?;
    let mut said = Vec::new(*findings.allocator());
    push_meant(&mut said, meant_at(place, known, key))?;
    push_finding(findings, place, shown.as_slice(), said.as_slice())
}

/// Puts the keys of a table that are none of the known ones behind the findings, each with the known one
/// that is meant, if one is like it. An error only for want of memory.
pub fn push_unknown(
    findings: &mut Vec<KeyFinding>,
    known: &[&str],
    place: &KeyPlace,
    table: &Table,
) -> Result<(), AllocError>
    ensures { OnOk result (findings.new.items ≡ findings.old.items
        ++ unknown_findings (map (λ w. w.now) known.now) place.now (keys_in (table_view table.now))) }
{
    for key in table.keys() {
        push_key(findings, known, place, key.as_bytes())?;
    }
    Ok(())
}
