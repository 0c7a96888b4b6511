//! What is found in the fields of a node.
ghost use Rattle.std.specs.Prelude.{◌≡◌, ◌≤◌, ◌++◌, ◌∷◌, [], OnOk, Some, codes, length, option_map};
ghost use Rattle.toml.specs.Data.{array};
ghost use Rattle.toml.specs.View.{items_view, table_view, view};
ghost use Rattle.book_keys.specs.Rows.{row_limit};
ghost use Rattle.book_scope_texts.specs.FieldTexts.{finding_at, hidden_said};
ghost use Rattle.book_scope_texts.specs.FileFindings.{key_place, node_address_findings, node_fields_findings};
ghost use Rattle.book_scope_texts.specs.FileFindings.{node_name_findings, rows_findings, rows_findings_from};
ghost use Rattle.book_scope_texts.specs.FileFindings.{rows_wanted, used_hint};
ghost use Rattle.book_scope_texts.specs.RowFindings.{address_hint_of, count_said, row_findings};

use crate::node::NodeName;
use crate::seen::{Seen, address_at, name_at};
use book_keys::ROW_LIMIT;
use book_scope_texts::{KeyFinding, KeyPlace};
use key_table::member_at;
use scope_texts::{
    field_at, push_address_hint, push_count, push_hidden, push_row, push_unknown, push_unless,
};
use std::alloc::AllocError;
use toml::{Table, Value};

/// What is wanted of the rows of a node.
const ROWS_WANTED: &[u8] = b"at most 64 tables, [[node.key]]";

fn used_hint(is_used: bool) -> &'static [u8]
    ensures { result.now ≡ used_hint is_used }
{
    if is_used {
        b", which an earlier node has"
    } else {
        b""
    }
}

#[tactic(auto, unfolding(book_scope_texts::specs::FileFindings::node_name_findings))]
fn push_name(
    findings: &mut Vec<KeyFinding>,
    place: &KeyPlace,
    seen: &Seen,
    table: &Table,
) -> Result<(), AllocError>
    ensures { OnOk result (findings.new.items ≡ findings.old.items
        ++ node_name_findings place.now seen.now.names.items (table_view table.now)) }
{
    push_unless(
        findings,
        name_at(seen.names.as_slice(), table).is_some(),
        field_at(place, "name", table),
        used_hint(name_at(&[], table).is_some()),
        b"a text of 1 to 64 printed bytes without a space",
    )
}

fn push_address_said(
    out: &mut Vec<u8>,
    is_used: bool,
    value: Option<&Value>,
) -> Result<(), AllocError>
    ensures { OnOk result
        (out.new.items
        ≡ out.old.items ++ (used_hint is_used ++ address_hint_of (option_map (λ v. view v.now) value.entry))) }
{
    out.extend_from_slice(used_hint(is_used))?;
    push_address_hint(out, value)
}

#[tactic(auto, unfolding(book_scope_texts::specs::FileFindings::node_address_findings))]
fn push_address(
    findings: &mut Vec<KeyFinding>,
    place: &KeyPlace,
    seen: &Seen,
    table: &Table,
) -> Result<(), AllocError>
    ensures { OnOk result (findings.new.items ≡ findings.old.items
        ++ node_address_findings place.now seen.now.addresses.items (table_view table.now)) }
{
    let mut hint = Vec::new(*findings.allocator());
    push_address_said(
        &mut hint,
        address_at(&[], table).is_some(),
        member_at(table, "address"),
    )?;
    push_unless(
        findings,
        address_at(seen.addresses.as_slice(), table).is_some(),
        field_at(place, "address", table),
        hint.as_slice(),
        b"a text, an address, 192.0.2.1 or 32 hexadecimal digits",
    )
}

fn push_one_row(
    findings: &mut Vec<KeyFinding>,
    node: &NodeName,
    number: u8,
    value: &Value,
) -> Result<(), AllocError>
    ensures { OnOk result (findings.new.items ≡ findings.old.items
        ++ row_findings (key_place node.now.number number node.now.called) (view value.now)) }
{
    let place = node.place(*findings.allocator(), number)?;
    push_row(findings, &place, value)
}

fn push_each_row(
    findings: &mut Vec<KeyFinding>,
    node: &NodeName,
    values: &[Value],
) -> Result<(), AllocError>
    requires { length values.now ≤ row_limit }
    ensures { OnOk result (findings.new.items ≡ findings.old.items
        ++ rows_findings_from node.now.number 1 node.now.called (items_view values.now)) }
{
    for (i, value) in values.iter().enumerate() {
        push_one_row(findings, node, (i + 1) as u8, value)?;
    }
    Ok(())
}

fn push_row_count(
    findings: &mut Vec<KeyFinding>,
    node: &NodeName,
    count: usize,
) -> Result<(), AllocError>
    ensures { OnOk result (findings.new.items ≡ findings.old.items
        ++ finding_at (key_place node.now.number 0 node.now.called) (codes "key") (count_said count rows_wanted) ∷ []) }
{
    let place = node.place(*findings.allocator(), 0)?;
    push_count(findings, &place, "key", count, ROWS_WANTED)
}

fn push_no_rows(
    findings: &mut Vec<KeyFinding>,
    node: &NodeName,
    value: &Value,
) -> Result<(), AllocError>
    ensures { OnOk result (findings.new.items ≡ findings.old.items
        ++ finding_at (key_place node.now.number 0 node.now.called) (codes "key")
        (hidden_said (Some (view value.now)) rows_wanted) ∷ []) }
{
    let place = node.place(*findings.allocator(), 0)?;
    push_hidden(findings, &place, "key", Some(value), ROWS_WANTED)
}

#[tactic(auto, unfolding(book_scope_texts::specs::FileFindings::rows_findings), using(key_table::proofs::ItemLaws::count_view))]
fn push_row_array(
    findings: &mut Vec<KeyFinding>,
    node: &NodeName,
    values: &[Value],
) -> Result<(), AllocError>
    ensures { OnOk result (findings.new.items ≡ findings.old.items
        ++ rows_findings node.now.number node.now.called (Some (array (items_view values.now)))) }
{
    if values.len() <= ROW_LIMIT {
        return push_each_row(findings, node, values);
    }
    push_row_count(findings, node, values.len())
}

#[tactic(auto, unfolding(book_scope_texts::specs::FileFindings::rows_findings))]
fn push_rows(
    findings: &mut Vec<KeyFinding>,
    node: &NodeName,
    value: Option<&Value>,
) -> Result<(), AllocError>
    ensures { OnOk result (findings.new.items ≡ findings.old.items
        ++ rows_findings node.now.number node.now.called (option_map (λ v. view v.now) value.entry)) }
{
    match value {
        Some(value) => match value.as_array() {
            Some(values) => push_row_array(findings, node, values.as_slice()),
            None => push_no_rows(findings, node, value),
        },
        None => Ok(()),
    }
}

/// Puts what is found in the fields of a node behind the findings. An error only for want of memory.
#[tactic(auto, unfolding(book_scope_texts::specs::FileFindings::node_fields_findings))]
pub(crate) fn push_fields(
    findings: &mut Vec<KeyFinding>,
    node: &NodeName,
    seen: &Seen,
    table: &Table,
) -> Result<(), AllocError>
    ensures { OnOk result (findings.new.items ≡ findings.old.items
        ++ node_fields_findings node.now.number node.now.called seen.now.names.items seen.now.addresses.items
        (table_view table.now)) }
{
    let place = node.place(*findings.allocator(), 0)?;
    push_unknown(findings, &["name", "address", "key"], &place, table)?;
    push_name(findings, &place, seen, table)?;
    push_address(findings, &place, seen, table)?;
    push_rows(findings, node, member_at(table, "key"))?;
    Ok(())
}
