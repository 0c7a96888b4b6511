//! The text of a key file's fault.
ghost use Rattle.std.specs.Prelude.{◌≡◌, ◌++◌, OnOk};
ghost use Rattle.book_cmd_link.specs.KeyTexts.{column_text, table_fault_line, table_fault_texts};
ghost use Rattle.book_lines.specs.Texts.{spaced};

use key_table::{Column, TableFault};
use std::alloc::AllocError;
use text_lines::{push_field, push_newline, push_number, push_text};

fn column_name(column: Column) -> &'static [u8]
    ensures { result.now ≡ column_text column }
{
    match column {
        Column::Other => b"other",
        Column::Name => b"name",
        Column::Address => b"address",
        Column::Rows => b"key",
        Column::AdminKeyName => b"AdminKeyName",
        Column::LocalKeyName => b"LocalKeyName",
        Column::PeerKeyName => b"PeerKeyName",
        Column::Peers => b"Peers",
        Column::Interfaces => b"Interfaces",
        Column::Protocol => b"Protocol",
        Column::ProtocolSpecificInfo => b"ProtocolSpecificInfo",
        Column::Kdf => b"KDF",
        Column::AlgId => b"AlgID",
        Column::Key => b"Key",
        Column::Direction => b"Direction",
        Column::SendLifetimeStart => b"SendLifetimeStart",
        Column::SendLifetimeEnd => b"SendLifetimeEnd",
        Column::AcceptLifetimeStart => b"AcceptLifetimeStart",
        Column::AcceptLifetimeEnd => b"AcceptLifetimeEnd",
        Column::LocalPort => b"LocalPort",
        Column::PeerPort => b"PeerPort",
    }
}

fn push_fault(out: &mut Vec<u8>, fault: TableFault) -> Result<(), AllocError>
    ensures { OnOk result (out.new.items ≡ out.old.items ++ spaced (table_fault_texts fault)) }
{
    match fault {
        TableFault::Memory => Ok(()),
        TableFault::Syntax => push_text(out, b"syntax"),
        TableFault::Field(node, row, column) => {
            push_field(out, b"node", u64::from(node))?;
            push_field(out, b"row", u64::from(row))?;
            push_text(out, b"column")?;
            push_text(out, column_name(column))
        }
        TableFault::TooMany(node) => push_field(out, b"too many in node", u64::from(node)),
        TableFault::Overlap(node, first, second) => {
            push_field(out, b"overlap node", u64::from(node))?;
            push_field(out, b"rows", u64::from(first))?;
            push_number(out, u64::from(second))
        }
    }
}

/// Puts the line of a key file's fault behind `out`: `keys: syntax`, `keys: node N row N column NAME`,
/// `keys: too many in node N` or `keys: overlap node N rows N N`, nodes and rows counted from 1. An error
/// only for want of memory; then a part of it may stand there.
pub fn push_key_fault(out: &mut Vec<u8>, fault: TableFault) -> Result<(), AllocError>
    ensures { OnOk result (out.new.items ≡ out.old.items ++ table_fault_line fault) }
{
    out.extend_from_slice(b"keys:")?;
    push_fault(out, fault)?;
    push_newline(out)
}
