//! What is found in the nodes of a file.
ghost use Rattle.std.specs.Prelude.{◌≡◌, ◌≤◌, ◌++◌, ◌∷◌, [], OnOk, None, Some, codes, length, option_map};
ghost use Rattle.toml.specs.Data.{array};
ghost use Rattle.toml.specs.View.{items_view, table_view, view};
ghost use Rattle.book_keys.specs.Rows.{node_limit};
ghost use Rattle.book_scope_texts.specs.FieldTexts.{field_said, finding_at};
ghost use Rattle.book_scope_texts.specs.FileFindings.{called_by, field_findings, file_place, key_place, node_called};
ghost use Rattle.book_scope_texts.specs.FileFindings.{node_fields_findings, node_findings, nodes_findings};
ghost use Rattle.book_scope_texts.specs.FileFindings.{nodes_findings_from, nodes_wanted};
ghost use Rattle.book_scope_texts.specs.RowFindings.{count_said};

use crate::fields::push_fields;
use crate::node::{file_place, named, node_of};
use crate::seen::Seen;
use book_keys::NODE_LIMIT;
use book_scope_texts::KeyFinding;
use key_table::member_at;
use scope_texts::{push_count, push_misfit, push_unknown};
use std::alloc::AllocError;
use toml::{Table, Value};

/// What is wanted of the nodes of a file.
const NODES_WANTED: &[u8] = b"at most 16 tables, [[node]]";

fn push_table(
    findings: &mut Vec<KeyFinding>,
    seen: &Seen,
    number: u8,
    table: &Table,
) -> Result<(), AllocError>
    ensures { OnOk result (findings.new.items ≡ findings.old.items
        ++ node_fields_findings number (node_called number (table_view table.now)) seen.now.names.items
        seen.now.addresses.items (table_view table.now)) }
{
    let node = node_of(*findings.allocator(), number, table)?;
    push_fields(findings, &node, seen, table)
}

fn push_no_table(
    findings: &mut Vec<KeyFinding>,
    number: u8,
    value: &Value,
) -> Result<(), AllocError>
    ensures { OnOk result (findings.new.items ≡ findings.old.items
        ++ finding_at (key_place number 0 (called_by number None)) (codes "node")
        (field_said (Some (view value.now)) [] (codes "a table, [[node]]")) ∷ []) }
{
    let node = named(*findings.allocator(), number, None)?;
    let place = node.place(*findings.allocator(), 0)?;
    push_misfit(findings, &place, "node", Some(value), b"a table, [[node]]")
}

#[tactic(auto, unfolding(book_scope_texts::specs::FileFindings::node_findings))]
fn push_node(
    findings: &mut Vec<KeyFinding>,
    seen: &Seen,
    number: u8,
    value: &Value,
) -> Result<(), AllocError>
    ensures { OnOk result (findings.new.items ≡ findings.old.items
        ++ node_findings number seen.now.names.items seen.now.addresses.items (view value.now)) }
{
    match value.as_table() {
        Some(table) => push_table(findings, seen, number, table),
        None => push_no_table(findings, number, value),
    }
}

fn push_each_node(findings: &mut Vec<KeyFinding>, values: &[Value]) -> Result<(), AllocError>
    requires { length values.now ≤ node_limit }
    ensures { OnOk result (findings.new.items ≡ findings.old.items
        ++ nodes_findings_from 1 [] [] (items_view values.now)) }
{
    let mut seen = Seen::new(*findings.allocator());
    for (i, value) in values.iter().enumerate() {
        push_node(findings, &seen, (i + 1) as u8, value)?;
        seen.add(value)?;
    }
    Ok(())
}

fn push_node_count(findings: &mut Vec<KeyFinding>, count: usize) -> Result<(), AllocError>
    ensures { OnOk result (findings.new.items ≡ findings.old.items
        ++ finding_at file_place (codes "node") (count_said count nodes_wanted) ∷ []) }
{
    let place = file_place(*findings.allocator());
    push_count(findings, &place, "node", count, NODES_WANTED)
}

fn push_no_nodes(findings: &mut Vec<KeyFinding>, value: &Value) -> Result<(), AllocError>
    ensures { OnOk result (findings.new.items ≡ findings.old.items
        ++ finding_at file_place (codes "node") (field_said (Some (view value.now)) [] nodes_wanted) ∷ []) }
{
    let place = file_place(*findings.allocator());
    push_misfit(findings, &place, "node", Some(value), NODES_WANTED)
}

#[tactic(auto, unfolding(book_scope_texts::specs::FileFindings::nodes_findings), using(key_table::proofs::ItemLaws::count_view))]
fn push_node_array(findings: &mut Vec<KeyFinding>, values: &[Value]) -> Result<(), AllocError>
    ensures { OnOk result (findings.new.items ≡ findings.old.items
        ++ nodes_findings (Some (array (items_view values.now)))) }
{
    if values.len() <= NODE_LIMIT {
        return push_each_node(findings, values);
    }
    push_node_count(findings, values.len())
}

#[tactic(auto, unfolding(book_scope_texts::specs::FileFindings::nodes_findings))]
fn push_nodes(findings: &mut Vec<KeyFinding>, value: Option<&Value>) -> Result<(), AllocError>
    ensures { OnOk result (findings.new.items ≡ findings.old.items
        ++ nodes_findings (option_map (λ v. view v.now) value.entry)) }
{
    match value {
        Some(value) => match value.as_array() {
            Some(values) => push_node_array(findings, values.as_slice()),
            None => push_no_nodes(findings, value),
        },
        None => Ok(()),
    }
}

/// Puts what is found in the fields of a document behind the findings. An error only for want of memory.
#[tactic(auto, unfolding(book_scope_texts::specs::FileFindings::field_findings))]
pub(crate) fn push_document(
    findings: &mut Vec<KeyFinding>,
    document: &Table,
) -> Result<(), AllocError>
    ensures { OnOk result (findings.new.items ≡ findings.old.items ++ field_findings (table_view document.now)) }
{
    let place = file_place(*findings.allocator());
    push_unknown(findings, &["node"], &place, document)?;
    push_nodes(findings, member_at(document, "node"))
}
