//! What is found in the peers of a row.
ghost use Rattle.std.specs.Prelude.{◌≡◌, ◌++◌, ◌∷◌, ◌&&◌, [], OnOk, Some, codes, length, nat_le, option_map};
ghost use Rattle.toml.specs.Data.{array};
ghost use Rattle.toml.specs.View.{items_view, view};
ghost use Rattle.book_keys.specs.Rows.{peer_limit};
ghost use Rattle.book_scope_texts.specs.FieldTexts.{field_said, finding_at};
ghost use Rattle.book_scope_texts.specs.RowFindings.{address_hint_of, count_said, each_peer_finding, peer_finding};
ghost use Rattle.book_scope_texts.specs.RowFindings.{peers_findings, peers_wanted};

use crate::addresses::push_address_hint;
use crate::field::{push_count, push_finding, push_misfit};
use crate::said::push_field_said;
use book_keys::PEER_LIMIT;
use book_scope_texts::{KeyFinding, KeyPlace};
use key_table::peer_of;
use std::alloc::AllocError;
use toml::Value;

/// What is wanted of peers.
const WANTED: &[u8] =
    b"an array of 1 to 16 texts: \"any\", or an address, 192.0.2.1 or 32 hexadecimal digits";

fn push_peer_said(out: &mut Vec<u8>, value: &Value) -> Result<(), AllocError>
    ensures { OnOk result (out.new.items ≡ out.old.items ++ field_said (Some (view value.now))
        (address_hint_of (Some (view value.now))) peers_wanted) }
{
    let mut hint = Vec::new(*out.allocator());
    push_address_hint(&mut hint, Some(value))?;
    push_field_said(out, Some(value), hint.as_slice(), WANTED)
}

#[tactic(auto, unfolding(book_scope_texts::specs::RowFindings::peer_finding))]
fn push_peer(
    findings: &mut Vec<KeyFinding>,
    place: &KeyPlace,
    value: &Value,
) -> Result<(), AllocError>
    ensures { OnOk result (findings.new.items ≡ findings.old.items ++ peer_finding place.now (view value.now)) }
{
    if peer_of(value).is_some() {
        return Ok(());
    }
    let mut said = Vec::new(*findings.allocator());
    push_peer_said(&mut said, value)?;
    push_finding(findings, place, b"Peers", said.as_slice())
}

/// Puts the values of an array that are no peers behind the findings. An error only for want of memory.
fn push_each_peer(
    findings: &mut Vec<KeyFinding>,
    place: &KeyPlace,
    values: &[Value],
) -> Result<(), AllocError>
    ensures { OnOk result (findings.new.items ≡ findings.old.items
        ++ each_peer_finding place.now (items_view values.now)) }
{
    for value in values {
        push_peer(findings, place, value)?;
    }
    Ok(())
}

fn are_few(values: &[Value]) -> bool
    ensures { result ≡ (nat_le 1 (length values.now) && nat_le (length values.now) peer_limit) }
{
    !values.is_empty() && values.len() <= PEER_LIMIT
}

/// An array of values, of which there are to be 1 to 16.
fn push_peer_array(
    findings: &mut Vec<KeyFinding>,
    place: &KeyPlace,
    values: &[Value],
) -> Result<(), AllocError>
    ensures { OnOk result (findings.new.items ≡ findings.old.items
        ++ peers_findings place.now (Some (array (items_view values.now)))) }
{
    if are_few(values) {
        return push_each_peer(findings, place, values);
    }
    push_count(findings, place, "Peers", values.len(), WANTED)
}

/// No array, or nothing.
fn push_no_peers(
    findings: &mut Vec<KeyFinding>,
    place: &KeyPlace,
    value: Option<&Value>,
) -> Result<(), AllocError>
    ensures { OnOk result (findings.new.items ≡ findings.old.items
        ++ finding_at place.now (codes "Peers") (field_said (option_map (λ v. view v.now) value.entry) [] peers_wanted)
        ∷ []) }
{
    push_misfit(findings, place, "Peers", value, WANTED)
}

/// Puts what is found in Peers behind the findings. An error only for want of memory.
#[tactic(auto, unfolding(book_scope_texts::specs::RowFindings::peers_findings))]
pub(crate) fn push_peers(
    findings: &mut Vec<KeyFinding>,
    place: &KeyPlace,
    value: Option<&Value>,
) -> Result<(), AllocError>
    ensures { OnOk result (findings.new.items ≡ findings.old.items
        ++ peers_findings place.now (option_map (λ v. view v.now) value.entry)) }
{
    match value {
        Some(value) => match value.as_array() {
            Some(values) => push_peer_array(findings, place, values.as_slice()),
            None => push_no_peers(findings, place, Some(value)),
        },
        None => push_no_peers(findings, place, None),
    }
}
