//! What is written of a key file.
ghost use Rattle.std.specs.Prelude.{◌≡◌, ◌≤◌, ◌↔◌, [], Err, IfOk, IsOk, None, Ok, Some, false, flat_map, length};
ghost use Rattle.std.specs.Prelude.{not, true};
ghost use Rattle.toml.specs.View.{table_view};
ghost use Rattle.book_keys.specs.Nodes.{document_of, tables_of};
ghost use Rattle.book_scope_texts.specs.FileFindings.{has_nodes, key_findings, syntax_line, tables_line};
ghost use Rattle.book_scope_texts.specs.Places.{key_finding_line};
ghost use Rattle.book_keys.specs.Reading.{Fails};
ghost use Rattle.scope_keys.specs.Reports.{IsKeyReport, is_memory};

use crate::file::{findings, has_nodes, push_lines, push_syntax, push_tables};
use crate::toml_fault::fault_of;
use book_base::Bytes;
use book_scope_texts::TomlFault;
use command_report::Report;
use key_table::{TableFault, Tables, Unread, read_document, tables_in};
use std::alloc::{AllocError, Global};
use toml::Table;

fn good_text(alloc: Global, tables: &Tables) -> Result<Bytes, AllocError>
    ensures { IfOk result (λ written. written ≡ tables_line tables.now) }
{
    let mut out = Vec::new(alloc);
    push_tables(&mut out, tables)?;
    Ok(Bytes::from_vec(out))
}

fn syntax_text(alloc: Global, at: usize, why: TomlFault, text: &[u8]) -> Result<Bytes, AllocError>
    requires { at ≤ length text.now }
    ensures { IfOk result (λ written. written ≡ syntax_line at why text.now) }
{
    let mut out = Vec::new(alloc);
    push_syntax(&mut out, at, why, text)?;
    Ok(Bytes::from_vec(out))
}

fn faulty_text(
    alloc: Global,
    text: &[u8],
    document: &Table,
    fault: TableFault,
) -> Result<Bytes, AllocError>
    requires document { document_of text.now ≡ Some (table_view document.now) }
    requires refused { tables_of text.now ≡ Err fault }
    ensures { IfOk result (λ written. written ≡ flat_map (key_finding_line text.now) (key_findings text.now)) }
{
    let found = findings(alloc, document, fault)?;
    let mut out = Vec::new(alloc);
    push_lines(&mut out, text, found.as_slice())?;
    Ok(Bytes::from_vec(out))
}

fn is_memory(fault: TableFault) -> bool
    ensures { result ≡ is_memory fault }
{
    matches!(fault, TableFault::Memory)
}

/// The report of a file that is read; without a node it is amiss.
fn good_report(alloc: Global, text: &[u8], tables: &Tables) -> Result<Report, AllocError>
    requires { tables_of text.now ≡ Ok tables.now }
    ensures text { IfOk result (λ report. IsKeyReport text.now report.text) }
    ensures amiss { IfOk result (λ report. report.is_amiss ≡ not (has_nodes (tables_of text.now))) }
{
    let written = good_text(alloc, tables)?;
    Ok(Report {
        text: written,
        is_amiss: !has_nodes(tables),
    })
}

/// The report of a file with this fault.
fn faulty_report(
    alloc: Global,
    text: &[u8],
    document: &Table,
    fault: TableFault,
) -> Result<Report, AllocError>
    requires document { document_of text.now ≡ Some (table_view document.now) }
    requires refused { tables_of text.now ≡ Err fault }
    ensures text { IfOk result (λ report. IsKeyReport text.now report.text) }
    ensures amiss { IfOk result (λ report. report.is_amiss ≡ not (has_nodes (tables_of text.now))) }
{
    let written = faulty_text(alloc, text, document, fault)?;
    Ok(Report {
        text: written,
        is_amiss: true,
    })
}

/// The report of a file that wasn't read for this fault.
fn refused_report(
    alloc: Global,
    text: &[u8],
    document: &Table,
    fault: TableFault,
) -> Result<Report, AllocError>
    requires document { document_of text.now ≡ Some (table_view document.now) }
    requires refused { Fails fault (tables_of text.now) }
    ensures text { IfOk result (λ report. IsKeyReport text.now report.text) }
    ensures amiss { IfOk result (λ report. report.is_amiss ≡ not (has_nodes (tables_of text.now))) }
{
    if is_memory(fault) {
        return Err(AllocError);
    }
    faulty_report(alloc, text, document, fault)
}

/// The report of a text that is a document.
fn document_report(alloc: Global, text: &[u8], document: &Table) -> Result<Report, AllocError>
    requires { document_of text.now ≡ Some (table_view document.now) }
    ensures text { IfOk result (λ report. IsKeyReport text.now report.text) }
    ensures amiss { IfOk result (λ report. report.is_amiss ≡ not (has_nodes (tables_of text.now))) }
{
    match tables_in(alloc, document) {
        Ok(tables) => good_report(alloc, text, &tables),
        Err(fault) => refused_report(alloc, text, document, fault),
    }
}

/// The report of a text that is no TOML from the byte with this index on, for this reason.
fn syntax_report(
    alloc: Global,
    at: usize,
    why: TomlFault,
    text: &[u8],
) -> Result<Report, AllocError>
    requires within { at ≤ length text.now }
    requires none { document_of text.now ≡ None }
    ensures text { IfOk result (λ report. IsKeyReport text.now report.text) }
    ensures amiss { IfOk result (λ report. report.is_amiss ≡ not (has_nodes (tables_of text.now))) }
{
    let written = syntax_text(alloc, at, why, text)?;
    Ok(Report {
        text: written,
        is_amiss: true,
    })
}

/// The report of a text, and whether it is refused.
fn report(alloc: Global, text: &[u8]) -> Result<Report, AllocError>
    ensures text { IfOk result (λ report. IsKeyReport text.now report.text) }
    ensures amiss { IfOk result (λ report. report.is_amiss ≡ not (has_nodes (tables_of text.now))) }
{
    match read_document(alloc, text) {
        Ok(document) => document_report(alloc, text, &document),
        Err(Unread::NotUtf8(at)) => syntax_report(alloc, at, TomlFault::Utf8, text),
        Err(Unread::NotToml(at, why)) => syntax_report(alloc, at, fault_of(why.message()), text),
        Err(Unread::Memory) => Err(AllocError),
    }
}

/// The answer of `keys` to the text of a key file: a line for each fault of it, of all nodes and rows, with
/// the place in the text, the field, whose it is, its value, and what is wanted; for a file without faults
/// the line `no faults: N nodes, N rows`, and for one that isn't TOML the line `no TOML from here on: ..` with
/// a place and one of the texts of `toml_fault_text`.
///
/// Nothing is amiss exactly where `key_table::read_tables` takes the text and it has a node. An error only for
/// want of memory.
pub fn answer_keys(alloc: Global, text: &[u8]) -> Result<Report, AllocError>
    ensures text { IfOk result (λ report. IsKeyReport text.now report.text) }
    ensures amiss { IfOk result (λ report. (report.is_amiss ≡ false) ↔ (has_nodes (tables_of text.now) ≡ true)) }
    ensures faultless { IfOk result (λ report. report.is_amiss ≡ false → key_findings text.now ≡ []) }
    ensures accepted { IfOk result (λ report. report.is_amiss ≡ false → IsOk (tables_of text.now)) }
{
    report(alloc, text)
}
