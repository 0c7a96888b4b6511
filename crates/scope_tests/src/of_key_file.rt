//! Key files that aren't read: the fault, and the first thing that is found.
use book_keys::{Column, TableFault};
use book_scope_texts::KeyFinding;
use scope_keys::{findings_of, read_key_file};
use std::alloc::Global;
use std::test::Fail;

/// A node whose address is a number, and whose rows are a text.
const FAULTY: &[u8] = b"[[node]]\nname = \"r1\"\naddress = 5\nkey = \"no rows\"\n";

/// A node without rows.
const GOOD: &[u8] = b"[[node]]\nname = \"r1\"\naddress = \"10.0.0.1\"\n";

/// No value stands after the equals sign.
const NO_TOML: &[u8] = b"node =\n";

// Functions without clauses: a goal then names the texts and does not spell them.
fn faulty() -> &'static [u8] {
    FAULTY
}

fn good() -> &'static [u8] {
    GOOD
}

fn no_toml() -> &'static [u8] {
    NO_TOML
}

fn is_at(finding: &KeyFinding, node: u8, row: u8, field: &[u8]) -> bool {
    finding.node == node && finding.row == row && finding.field.as_slice() == field
}

/// The fault of a text, if it isn't read.
fn fault_of(alloc: Global, text: &[u8]) -> Option<TableFault> {
    match read_key_file(alloc, text) {
        Ok(_) => None,
        Err(fault) => Some(fault),
    }
}

#[test]
fn the_first_finding_is_the_fault(rt: HostRuntime) -> Result<(), Fail> {
    let fault = fault_of(rt.alloc(), faulty());
    assert!(rt; fault == Some(TableFault::Field(1, 0, Column::Address)));
    let found = findings_of(rt.alloc(), faulty())?;
    assert!(rt; found.len() == 2);
    assert!(rt; found.first().is_some_and(|f| is_at(f, 1, 0, b"address")));
    assert!(rt; found.last().is_some_and(|f| is_at(f, 1, 0, b"key")));
    Ok(())
}

#[test]
fn a_file_of_no_toml_has_one_finding(rt: HostRuntime) -> Result<(), Fail> {
    assert!(rt; fault_of(rt.alloc(), no_toml()) == Some(TableFault::Syntax));
    let found = findings_of(rt.alloc(), no_toml())?;
    assert!(rt; found.len() == 1);
    assert!(rt; found.first().is_some_and(|f| is_at(f, 0, 0, b"file")));
    Ok(())
}

#[test]
fn nothing_is_found_in_a_file_that_is_read(rt: HostRuntime) -> Result<(), Fail> {
    let file = read_key_file(rt.alloc(), good())?;
    assert!(rt; file.tables.nodes() == 1);
    assert!(rt; file.document.contains_key("node"));
    assert!(rt; findings_of(rt.alloc(), good())?.is_empty());
    Ok(())
}
