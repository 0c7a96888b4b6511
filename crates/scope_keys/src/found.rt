//! All that is wrong with a key file.
ghost use Rattle.std.specs.Prelude.{◌≡◌, ◌↔◌, ◌∷◌, [], Err, IfOk, IsOk, None, Ok, Some, codes};
ghost use Rattle.toml.specs.View.{table_view};
ghost use Rattle.book_keys.specs.declared.fault.TableFault.{TableFault as Fault};
ghost use Rattle.book_keys.specs.Nodes.{document_of, tables_of};
ghost use Rattle.book_keys.specs.Reading.{Fails};
ghost use Rattle.book_scope_texts.specs.FieldTexts.{finding_at};
ghost use Rattle.book_scope_texts.specs.FileFindings.{file_place, key_findings};
ghost use Rattle.scope_keys.specs.Reports.{is_memory};
ghost use Rattle.law_keys.specs.FirstFindings.{BeginsWith, IsFindingOf};

use crate::file::findings;
use book_base::Bytes;
use book_scope_texts::{KeyFinding, KeyPlace, findings_are_of_the_walk};
use key_table::{TableFault, Tables, Unread, read_document, tables_in};
use law_keys::first_finding_is_the_fault;
use scope_texts::push_finding;
use std::alloc::{AllocError, Global};
use toml::Table;

/// The finding of a file that is no TOML, alone.
fn syntax_finding(alloc: Global) -> Result<Vec<KeyFinding>, AllocError>
    ensures { IfOk result (λ found. found.items ≡ finding_at file_place (codes "file") (codes "no TOML") ∷ []) }
{
    let place = KeyPlace {
        node: 0,
        row: 0,
        name: Bytes::from_vec(Vec::new(alloc)),
    };
    let mut found = Vec::new(alloc);
    push_finding(&mut found, &place, b"file", b"no TOML")?;
    Ok(found)
}

/// What is found in a text that is no document.
fn undocumented(alloc: Global, text: &[u8]) -> Result<Vec<KeyFinding>, AllocError>
    requires { document_of text.now ≡ None }
    ensures { IfOk result (λ found. found.items ≡ key_findings text.now) }
{
    syntax_finding(alloc)
}

/// What is found in a text that is read.
fn none_found(alloc: Global, text: &[u8], tables: &Tables) -> Vec<KeyFinding>
    requires { tables_of text.now ≡ Ok tables.now }
    ensures { result.items ≡ key_findings text.now }
{
    Vec::new(alloc)
}

/// What is found in a document that has this fault.
fn faulty(
    alloc: Global,
    text: &[u8],
    document: &Table,
    fault: TableFault,
) -> Result<Vec<KeyFinding>, AllocError>
    requires document { document_of text.now ≡ Some (table_view document.now) }
    requires refused { tables_of text.now ≡ Err fault }
    ensures { IfOk result (λ found. found.items ≡ key_findings text.now) }
{
    findings(alloc, document, fault)
}

fn is_memory(fault: TableFault) -> bool
    ensures { result ≡ is_memory fault }
{
    matches!(fault, TableFault::Memory)
}

/// What is found in a document that wasn't read for this fault.
fn refused(
    alloc: Global,
    text: &[u8],
    document: &Table,
    fault: TableFault,
) -> Result<Vec<KeyFinding>, AllocError>
    requires document { document_of text.now ≡ Some (table_view document.now) }
    requires refused { Fails fault (tables_of text.now) }
    ensures { IfOk result (λ found. found.items ≡ key_findings text.now) }
{
    if is_memory(fault) {
        return Err(AllocError);
    }
    faulty(alloc, text, document, fault)
}

/// What is found in a text that is this document.
fn in_document(alloc: Global, text: &[u8], document: &Table) -> Result<Vec<KeyFinding>, AllocError>
    requires { document_of text.now ≡ Some (table_view document.now) }
    ensures { IfOk result (λ found. found.items ≡ key_findings text.now) }
{
    match tables_in(alloc, document) {
        Ok(tables) => Ok(none_found(alloc, text, &tables)),
        Err(fault) => refused(alloc, text, document, fault),
    }
}

fn all_findings(alloc: Global, text: &[u8]) -> Result<Vec<KeyFinding>, AllocError>
    ensures { IfOk result (λ found. found.items ≡ key_findings text.now) }
{
    match read_document(alloc, text) {
        Ok(document) => in_document(alloc, text, &document),
        Err(Unread::NotUtf8(_)) => undocumented(alloc, text),
        Err(Unread::NotToml(_, _)) => undocumented(alloc, text),
        Err(Unread::Memory) => Err(AllocError),
    }
}

/// All that is wrong with a key file, in the order in which it is read: nothing exactly if it is read without a fault.
/// Otherwise the first finding is of the fault that [`read_key_file`](crate::read_key_file) tells: of its node, its row
/// and its column. An error only if memory runs out.
pub fn findings_of(alloc: Global, text: &[u8]) -> Result<Vec<KeyFinding>, AllocError>
    ensures findings { IfOk result (λ found. found.items ≡ key_findings text.now) }
    ensures none { IfOk result (λ found. (found.items ≡ []) ↔ IsOk (tables_of text.now)) }
    ensures first { IfOk result (λ found. (fault : Fault) → tables_of text.now ≡ Err fault
        → BeginsWith (IsFindingOf (document_of text.now) fault) found.items) }
{
    findings_are_of_the_walk();
    first_finding_is_the_fault();
    all_findings(alloc, text)
}
