//! What is found in the master key of a row, which is shown nowhere.
ghost use Rattle.std.specs.Prelude.{◌≡◌, ◌++◌, ◌∷◌, [], IfOk, OnOk, Some, codes, is_ok, option_map};
ghost use Rattle.toml.specs.Data.{string};
ghost use Rattle.toml.specs.View.{view};
ghost use Rattle.book_keys.specs.Columns.{master_of};
ghost use Rattle.book_scope_texts.specs.FieldTexts.{finding_at, hidden_said};
ghost use Rattle.book_scope_texts.specs.RowFindings.{secret_findings, secret_said, secret_wanted};

use crate::field::{push_finding, push_hidden};
use crate::secrets::push_shown_secret;
use ao_base::{HexProblem, read_hex};
use book_keys::LONGEST_MASTER_KEY;
use book_scope_texts::{KeyFinding, KeyPlace};
use std::alloc::{AllocError, Global};
use toml::Value;

/// What is wanted of a key.
const WANTED: &[u8] = b"a text of hexadecimal digits, two for each of 1 to 255 bytes";

/// Whether a text writes a master key. An error only for want of memory.
#[tactic(auto, unfolding(book_keys::specs::Columns::master_of))]
fn is_secret(alloc: Global, text: &[u8]) -> Result<bool, AllocError>
    ensures { IfOk result (λ is. is ≡ is_ok (master_of 0 0 (Some text.now))) }
{
    match read_hex(alloc, text) {
        Ok(bytes) => {
            let bytes = bytes.into_vec();
            Ok(!bytes.is_empty() && bytes.len() <= LONGEST_MASTER_KEY)
        }
        Err(HexProblem::NotHex) => Ok(false),
        Err(HexProblem::Memory) => Err(AllocError),
    }
}

#[tactic(auto, unfolding(book_scope_texts::specs::RowFindings::secret_said))]
fn push_said(out: &mut Vec<u8>, text: &[u8]) -> Result<(), AllocError>
    ensures { OnOk result (out.new.items ≡ out.old.items ++ secret_said text.now) }
{
    push_shown_secret(out, text)?;
    out.extend_from_slice(b"; wanted: ")?;
    out.extend_from_slice(WANTED)
}

#[tactic(auto, unfolding(book_scope_texts::specs::RowFindings::secret_findings))]
fn push_text(
    findings: &mut Vec<KeyFinding>,
    place: &KeyPlace,
    text: &[u8],
) -> Result<(), AllocError>
    ensures { OnOk result (findings.new.items ≡ findings.old.items
        ++ secret_findings place.now (Some (string text.now))) }
{
    if is_secret(*findings.allocator(), text)? {
        return Ok(());
    }
    let mut said = Vec::new(*findings.allocator());
    push_said(&mut said, text)?;
    push_finding(findings, place, b"Key", said.as_slice())
}

/// No text, or nothing.
fn push_no_text(
    findings: &mut Vec<KeyFinding>,
    place: &KeyPlace,
    value: Option<&Value>,
) -> Result<(), AllocError>
    ensures { OnOk result (findings.new.items ≡ findings.old.items
        ++ finding_at place.now (codes "Key") (hidden_said (option_map (λ v. view v.now) value.entry) secret_wanted)
        ∷ []) }
{
    push_hidden(findings, place, "Key", value, WANTED)
}

/// Puts what is found in Key behind the findings. An error only for want of memory.
#[tactic(auto, unfolding(book_scope_texts::specs::RowFindings::secret_findings))]
pub(crate) fn push_secret(
    findings: &mut Vec<KeyFinding>,
    place: &KeyPlace,
    value: Option<&Value>,
) -> Result<(), AllocError>
    ensures { OnOk result (findings.new.items ≡ findings.old.items
        ++ secret_findings place.now (option_map (λ v. view v.now) value.entry)) }
{
    match value {
        Some(value) => match value.as_str() {
            Some(text) => push_text(findings, place, text.as_bytes()),
            None => push_no_text(findings, place, Some(value)),
        },
        None => push_no_text(findings, place, None),
    }
}
