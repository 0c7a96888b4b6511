//! All that is found in a file, and its lines.
ghost use Rattle.std.specs.Prelude.{◌≡◌, ◌≤◌, ◌++◌, Err, IfOk, Ok, OnOk, flat_map, length};
ghost use Rattle.toml.specs.View.{table_view};
ghost use Rattle.book_keys.specs.Rows.{row_limit};
ghost use Rattle.book_scope_texts.specs.FileFindings.{field_findings, first_or_further, has_nodes, no_faults_line};
ghost use Rattle.book_scope_texts.specs.FileFindings.{refused_findings, row_total, syntax_line, tables_line};
ghost use Rattle.book_scope_texts.specs.Places.{key_finding_line};

use crate::nodes::push_document;
use crate::refused::push_refused;
use crate::toml_fault::toml_fault_text;
use ao_base::push_decimal;
use book_scope_texts::{KeyFinding, TomlFault};
use key_table::{Table, TableFault, Tables};
use scope_texts::{is_plain_text, push_finding_line, push_place, text_place};
use std::alloc::{AllocError, Global};

/// All that is found in a document that isn't read for this fault: what is wrong with its fields, or else, if nothing
/// is, the two rows that overlap. An error only if memory runs out.
pub fn findings(
    alloc: Global,
    document: &toml::Table,
    fault: TableFault,
) -> Result<Vec<KeyFinding>, AllocError>
    ensures { IfOk result (λ found. found.items ≡ first_or_further (field_findings (table_view document.now))
        (refused_findings (table_view document.now) (Err fault))) }
{
    let mut found = Vec::new(alloc);
    push_document(&mut found, document)?;
    match found.as_slice() {
        [] => refused(alloc, document, fault),
        [_, ..] => Ok(found),
    }
}

fn refused(
    alloc: Global,
    document: &toml::Table,
    fault: TableFault,
) -> Result<Vec<KeyFinding>, AllocError>
    ensures { IfOk result (λ found. found.items ≡ refused_findings (table_view document.now) (Err fault)) }
{
    let mut found = Vec::new(alloc);
    push_refused(&mut found, document, fault)?;
    Ok(found)
}

/// Puts the line of each finding in a text behind `out`. Where memory runs out a part of it may stand there.
pub(crate) fn push_lines(
    out: &mut Vec<u8>,
    text: &[u8],
    findings: &[KeyFinding],
) -> Result<(), AllocError>
    ensures { OnOk result (out.new.items ≡ out.old.items ++ flat_map (key_finding_line text.now) findings.now) }
{
    let text_is_plain = is_plain_text(text);
    for finding in findings {
        push_finding_line(out, text, text_is_plain, finding)?;
    }
    Ok(())
}

/// The line of a text that is no TOML from the byte with this index on, for this reason.
#[tactic(auto, unfolding(book_scope_texts::specs::FileFindings::syntax_line))]
pub(crate) fn push_syntax(
    out: &mut Vec<u8>,
    at: usize,
    why: TomlFault,
    text: &[u8],
) -> Result<(), AllocError>
    requires { at ≤ length text.now }
    ensures { OnOk result (out.new.items ≡ out.old.items ++ syntax_line at why text.now) }
{
    push_place(out, text_place(at, text))?;
    out.extend_from_slice(b"no TOML from here on: ")?;
    out.extend_from_slice(toml_fault_text(why))?;
    out.extend_from_slice(b"\n")
}

fn row_count(table: &Table) -> u64
    ensures value { result ≡ length table.now.rows }
    ensures limit { result ≤ row_limit }
{
    u64::from(table.rows())
}

/// How many rows the tables have.
fn row_total(tables: &Tables) -> u64
    ensures { result ≡ row_total tables.now }
{
    let mut total = 0u64;
    for i in 0..tables.nodes() {
        total += row_count(tables.node(i + 1));
    }
    total
}

fn node_total(tables: &Tables) -> u64
    ensures { result ≡ length tables.now }
{
    u64::from(tables.nodes())
}

/// The line of a file without a fault that has nodes.
#[tactic(auto, unfolding(book_scope_texts::specs::FileFindings::no_faults_line))]
fn push_no_faults(out: &mut Vec<u8>, tables: &Tables) -> Result<(), AllocError>
    ensures { OnOk result (out.new.items ≡ out.old.items ++ no_faults_line tables.now) }
{
    out.extend_from_slice(b"no faults: ")?;
    push_decimal(out, node_total(tables))?;
    out.extend_from_slice(b" nodes, ")?;
    push_decimal(out, row_total(tables))?;
    out.extend_from_slice(b" rows\n")
}

/// Whether the file has a node.
pub(crate) fn has_nodes(tables: &Tables) -> bool
    ensures { result ≡ has_nodes (Ok tables.now) }
{
    tables.nodes() != 0
}

/// The line of a file that is read.
pub(crate) fn push_tables(out: &mut Vec<u8>, tables: &Tables) -> Result<(), AllocError>
    ensures { OnOk result (out.new.items ≡ out.old.items ++ tables_line tables.now) }
{
    if has_nodes(tables) {
        return push_no_faults(out, tables);
    }
    out.extend_from_slice(b"no nodes: a key file has a table, [[node]], for each router\n")
}
