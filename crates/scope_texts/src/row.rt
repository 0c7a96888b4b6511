//! What is found in a row.
ghost use Rattle.std.specs.Prelude.{◌≡◌, ◌++◌, ◌∷◌, [], OnOk, Some, codes};
ghost use Rattle.toml.specs.View.{table_view, view};
ghost use Rattle.book_scope_texts.specs.FieldTexts.{finding_at, hidden_said};
ghost use Rattle.book_scope_texts.specs.RowFindings.{column_findings, row_findings};

use crate::columns::{push_algorithm, push_names, push_port, push_protocol};
use crate::field::push_hidden;
use crate::peers::push_peers;
use crate::secret::push_secret;
use crate::times::push_terms;
use crate::unknown::push_unknown;
use book_scope_texts::{KeyFinding, KeyPlace};
use key_table::{ROW_KEYS, member_at};
use std::alloc::AllocError;
use toml::{Table, Value};

#[tactic(auto, unfolding(book_scope_texts::specs::RowFindings::column_findings))]
fn push_columns(
    findings: &mut Vec<KeyFinding>,
    place: &KeyPlace,
    table: &Table,
) -> Result<(), AllocError>
    ensures { OnOk result (findings.new.items ≡ findings.old.items
        ++ column_findings place.now (table_view table.now)) }
{
    push_names(findings, place, table)?;
    push_peers(findings, place, member_at(table, "Peers"))?;
    push_protocol(findings, place, table)?;
    push_algorithm(findings, place, table)?;
    push_secret(findings, place, member_at(table, "Key"))?;
    push_terms(findings, place, table)?;
    push_port(findings, place, "LocalPort", table)?;
    push_port(findings, place, "PeerPort", table)?;
    Ok(())
}

/// Puts what is found in a row behind the findings: keys that are unknown, and then the columns in their
/// order. Nothing is found exactly where `key_table` reads the row. An error only for want of memory; then a
/// part of it may stand there.
#[tactic(auto, unfolding(book_scope_texts::specs::RowFindings::row_findings))]
pub fn push_row(
    findings: &mut Vec<KeyFinding>,
    place: &KeyPlace,
    value: &Value,
) -> Result<(), AllocError>
    ensures { OnOk result (findings.new.items ≡ findings.old.items ++ row_findings place.now (view value.now)) }
{
    match value.as_table() {
        Some(table) => {
            push_unknown(findings, ROW_KEYS, place, table)?;
            push_columns(findings, place, table)
        }
        None => push_hidden(findings, place, "key", Some(value), b"a table"),
    }
}
