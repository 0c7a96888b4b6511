//! The names and addresses of the nodes that stand in front of a further one.
ghost use Rattle.std.specs.Prelude.{◌≡◌, ◌++◌, [], OnOk, map, option_map, option_to_list};
ghost use Rattle.std.specs.List.{list_any};
ghost use Rattle.std.specs.Str.{bytes_eq};
ghost use Rattle.toml.specs.View.{table_view, view};
ghost use Rattle.book_keys.specs.Nodes.{node_address_of, node_name_of};
ghost use Rattle.book_segments.specs.Sockets.{same_address};
ghost use Rattle.book_scope_texts.specs.FileFindings.{addresses_with, bare_table, names_with, new_address, new_name};
ghost use Rattle.book_scope_texts.specs.FileFindings.{table_named};

use ao_base::{is_same_address, read_address};
use book_base::{Address, Bytes};
use book_keys::LONGEST_NODE_NAME;
use key_table::{is_visible, text_at};
use std::alloc::{AllocError, Global};
use toml::{Table, Value};

/// The names and addresses that nodes in front have.
#[derive(Drop)]
pub(crate) struct Seen {
    pub(crate) names: Vec<Bytes>,
    pub(crate) addresses: Vec<Address>,
}

fn is_name(name: &Bytes, text: &[u8]) -> bool
    ensures { result ≡ bytes_eq name.now text.now }
{
    name.as_slice() == text
}

fn has_name(names: &[Bytes], text: &[u8]) -> bool
    ensures { result ≡ list_any (λ name. bytes_eq name text.now) names.now }
{
    names.iter().any(|name| is_name(name, text))
}

/// The text as a name that no node in front has.
#[tactic(auto, using(crate::proofs::SeenLaws::any_name))]
fn unused_name<'a>(names: &[Bytes], text: &'a str) -> Option<&'a str>
    ensures { option_map (λ s. s.now) result ≡ node_name_of (map table_named names.now) text.now }
{
    let bytes = text.as_bytes();
    if !bytes.is_empty()
        && bytes.len() <= LONGEST_NODE_NAME
        && is_visible(bytes)
        && !has_name(names, bytes)
    {
        Some(text)
    } else {
        None
    }
}

/// The name of a node, which no node in front has.
pub(crate) fn name_at<'a>(names: &[Bytes], table: &'a Table) -> Option<&'a str>
    ensures { option_map (λ s. s.now) result ≡ new_name names.now (table_view table.now) }
{
    unused_name(names, text_at(table, "name")?)
}

fn has_address(addresses: &[Address], address: &Address) -> bool
    ensures { result ≡ list_any (λ one. same_address one address.now) addresses.now }
{
    addresses.iter().any(|one| is_same_address(one, address))
}

/// The address that a text writes, which no node in front has.
#[tactic(auto, using(crate::proofs::SeenLaws::any_address))]
fn unused_address(addresses: &[Address], text: &str) -> Option<Address>
    ensures { result ≡ node_address_of (map bare_table addresses.now) text.now }
{
    let address = read_address(text.as_bytes())?;
    if has_address(addresses, &address) {
        return None;
    }
    Some(address)
}

/// The address of a node, which no node in front has.
pub(crate) fn address_at(addresses: &[Address], table: &Table) -> Option<Address>
    ensures { result ≡ new_address addresses.now (table_view table.now) }
{
    unused_address(addresses, text_at(table, "address")?)
}

fn add_name(names: &mut Vec<Bytes>, table: &Table) -> Result<(), AllocError>
    ensures { OnOk result (names.new.items ≡ names.old.items ++ option_to_list
        (new_name names.old.items (table_view table.now))) }
{
    match name_at(names.as_slice(), table) {
        Some(name) => {
            let text = Vec::from_slice(*names.allocator(), name.as_bytes())?;
            names.push(Bytes::from_vec(text))?;
            Ok(())
        }
        None => Ok(()),
    }
}

fn add_address(addresses: &mut Vec<Address>, table: &Table) -> Result<(), AllocError>
    ensures { OnOk result (addresses.new.items ≡ addresses.old.items
        ++ option_to_list (new_address addresses.old.items (table_view table.now))) }
{
    match address_at(addresses.as_slice(), table) {
        Some(address) => {
            addresses.push(address)?;
            Ok(())
        }
        None => Ok(()),
    }
}

impl Seen {
    /// No node is in front.
    pub(crate) fn new(alloc: Global) -> Seen
        ensures names { result.names.items ≡ [] }
        ensures addresses { result.addresses.items ≡ [] }
    {
        Seen {
            names: Vec::new(alloc),
            addresses: Vec::new(alloc),
        }
    }

    /// A further node is in front. An error only for want of memory.
    pub(crate) fn add(&mut self, node: &Value) -> Result<(), AllocError>
        ensures names { OnOk result (self.new.names.items ≡ names_with self.old.names.items (view node.now)) }
        ensures addresses { OnOk result (self.new.addresses.items
            ≡ addresses_with self.old.addresses.items (view node.now)) }
    {
        match node {
            Value::Table(table) => {
                add_name(&mut self.names, table)?;
                add_address(&mut self.addresses, table)
            }
            _ => Ok(()),
        }
    }
}
