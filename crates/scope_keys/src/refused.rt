//! What is found of a file that is refused though none of its fields is: two rows that overlap.
ghost use Rattle.std.specs.Prelude.{◌≡◌, ◌++◌, ◌∷◌, [], Err, OnOk, codes, option_map};
ghost use Rattle.toml.specs.Data.{get_member};
ghost use Rattle.toml.specs.View.{table_view, view};
ghost use Rattle.book_scope_texts.specs.FieldTexts.{finding_at};
ghost use Rattle.book_scope_texts.specs.FileFindings.{data_called, file_place, key_place, node_data, overlap_said};
ghost use Rattle.book_scope_texts.specs.FileFindings.{refused_findings};

use crate::node::{file_place, node_at};
use ao_base::push_decimal;
use book_scope_texts::KeyFinding;
use key_table::{TableFault, member_at};
use scope_texts::push_finding;
use std::alloc::AllocError;
use toml::{Table, Value};

/// The node of this number, from 1.
fn node_numbered(document: &Table, number: u8) -> Option<&Value>
    ensures { option_map (λ v. view v.now) result ≡ node_data number
        (get_member (codes "node") (table_view document.now)) }
{
    member_at(document, "node")?.get(usize::from(number).saturating_sub(1))
}

#[tactic(auto, unfolding(book_scope_texts::specs::FileFindings::overlap_said))]
fn push_overlap_said(out: &mut Vec<u8>, row: u8) -> Result<(), AllocError>
    ensures { OnOk result (out.new.items ≡ out.old.items ++ overlap_said row) }
{
    out.extend_from_slice(b"overlaps row ")?;
    push_decimal(out, u64::from(row))?;
    out.extend_from_slice(b": at some time both send, or both accept, for one peer under one KeyID")
}

fn push_overlap(
    findings: &mut Vec<KeyFinding>,
    document: &Table,
    number: u8,
    first: u8,
    second: u8,
) -> Result<(), AllocError>
    ensures { OnOk result (findings.new.items ≡ findings.old.items
        ++ finding_at
        (key_place number second
        (data_called number (node_data number (get_member (codes "node") (table_view document.now))))) (codes "key")
        (overlap_said first) ∷ []) }
{
    let node = node_at(
        *findings.allocator(),
        number,
        node_numbered(document, number),
    )?;
    let place = node.place(*findings.allocator(), second)?;
    let mut said = Vec::new(*findings.allocator());
    push_overlap_said(&mut said, first)?;
    push_finding(findings, &place, b"key", said.as_slice())
}

fn push_refusal(findings: &mut Vec<KeyFinding>) -> Result<(), AllocError>
    ensures { OnOk result (findings.new.items ≡ findings.old.items
        ++ finding_at file_place (codes "file") (codes "refused") ∷ []) }
{
    let place = file_place(*findings.allocator());
    push_finding(findings, &place, b"file", b"refused")
}

/// Puts why a file has this fault though no field of it is faulty behind the findings. An error only for
/// want of memory.
pub(crate) fn push_refused(
    findings: &mut Vec<KeyFinding>,
    document: &Table,
    fault: TableFault,
) -> Result<(), AllocError>
    ensures { OnOk result (findings.new.items ≡ findings.old.items
        ++ refused_findings (table_view document.now) (Err fault)) }
{
    match fault {
        TableFault::Overlap(node, first, second) => {
            push_overlap(findings, document, node, first, second)
        }
        TableFault::Syntax => push_refusal(findings),
        TableFault::Field(_, _, _) => push_refusal(findings),
        TableFault::TooMany(_) => push_refusal(findings),
        TableFault::Memory => push_refusal(findings),
    }
}
