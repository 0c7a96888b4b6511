//! How a node is called, and the places in it.
ghost use Rattle.std.specs.Prelude.{◌≡◌, ◌++◌, IfOk, OnOk, option_map};
ghost use Rattle.toml.specs.View.{table_view, view};
ghost use Rattle.book_scope_texts.specs.FileFindings.{called_by, data_called, file_place, key_place, node_called};

use ao_base::push_decimal;
use book_base::Bytes;
use book_scope_texts::KeyPlace;
use key_table::text_at;
use scope_texts::push_shown_text;
use std::alloc::{AllocError, Global};
use toml::{Table, Value};

/// A node: its number in the file, from 1, and how it is called in a text.
#[derive(Drop)]
pub(crate) struct NodeName {
    pub(crate) number: u8,
    pub(crate) called: Bytes,
}

impl NodeName {
    /// The place of a row of the node, and of the node itself for row 0. An error only for want of memory.
    pub(crate) fn place(&self, alloc: Global, row: u8) -> Result<KeyPlace, AllocError>
        ensures { IfOk result (λ place. place ≡ key_place self.now.number row self.now.called) }
    {
        let name = Vec::from_slice(alloc, self.called.as_slice())?;
        Ok(KeyPlace {
            node: self.number,
            row,
            name: Bytes::from_vec(name),
        })
    }
}

/// The place of the file itself.
pub(crate) fn file_place(alloc: Global) -> KeyPlace
    ensures { result ≡ file_place }
{
    KeyPlace {
        node: 0,
        row: 0,
        name: Bytes::from_vec(Vec::new(alloc)),
    }
}

fn push_called(out: &mut Vec<u8>, number: u8, name: Option<&str>) -> Result<(), AllocError>
    ensures { OnOk result (out.new.items ≡ out.old.items ++ called_by number (option_map (λ s. s.now) name.entry)) }
{
    match name {
        Some(text) => push_shown_text(out, text.as_bytes()),
        None => {
            out.extend_from_slice(b"node ")?;
            push_decimal(out, u64::from(number))
        }
    }
}

/// A node by its number, and by its name where it has one. An error only for want of memory.
pub(crate) fn named(alloc: Global, number: u8, name: Option<&str>) -> Result<NodeName, AllocError>
    ensures number { IfOk result (λ node. node.number ≡ number) }
    ensures called { IfOk result (λ node. node.called ≡ called_by number (option_map (λ s. s.now) name.entry)) }
{
    let mut called = Vec::new(alloc);
    push_called(&mut called, number, name)?;
    Ok(NodeName {
        number,
        called: Bytes::from_vec(called),
    })
}

/// The node that a table is. An error only for want of memory.
#[tactic(auto, unfolding(book_scope_texts::specs::FileFindings::node_called))]
pub(crate) fn node_of(alloc: Global, number: u8, table: &Table) -> Result<NodeName, AllocError>
    ensures number { IfOk result (λ node. node.number ≡ number) }
    ensures called { IfOk result (λ node. node.called ≡ node_called number (table_view table.now)) }
{
    named(alloc, number, text_at(table, "name"))
}

/// The node that a value is, if one stands there. An error only for want of memory.
pub(crate) fn node_at(
    alloc: Global,
    number: u8,
    value: Option<&Value>,
) -> Result<NodeName, AllocError>
    ensures number { IfOk result (λ node. node.number ≡ number) }
    ensures called { IfOk result (λ node. node.called ≡ data_called number (option_map (λ v. view v.now) value.entry)) }
{
    match value {
        Some(Value::Table(table)) => node_of(alloc, number, table),
        _ => named(alloc, number, None),
    }
}
