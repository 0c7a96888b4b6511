//! The name that the operator gave a row, looked up in the document that a key file is.
ghost use Rattle.std.specs.Prelude.{◌≡◌, codes, option_map};
ghost use Rattle.toml.specs.Data.{get, get_member};
ghost use Rattle.toml.specs.View.{items_view, table_view, view};
ghost use Rattle.book_keys.specs.Columns.{is_word};
ghost use Rattle.book_scope_plan.specs.AdminNames.{admin_name, nodes_in, rows_named, text_in};

use toml::{Table, Value};

/// The text at a key of a value.
fn text_in<'a>(value: &'a Value, key: &str) -> Option<&'a str>
    ensures { option_map (λ s. s.now) result ≡ text_in key.now (view value.now) }
{
    value.get(key)?.as_str()
}

fn is_named(node: &Value, name: &[u8]) -> bool
    ensures { result ≡ is_word name.now (text_in (codes "name") (view node.now)) }
{
    text_in(node, "name").is_some_and(|text| text.as_bytes() == name)
}

/// What stands at a node's key `key`.
fn rows_in(node: &Value) -> Option<&Value>
    ensures { option_map (λ v. view v.now) result ≡ get (codes "key") (view node.now) }
{
    node.get("key")
}

/// The rows of the first of these nodes that has this name.
fn rows_named<'a>(nodes: &'a [Value], name: &[u8]) -> Option<&'a Value>
    ensures { option_map (λ v. view v.now) result ≡ rows_named name.now (items_view nodes.now) }
{
    for node in nodes {
        if is_named(node, name) {
            return rows_in(node);
        }
    }
    None
}

/// What stands at a document's key `node`.
fn node_value(document: &Table) -> Option<&Value>
    ensures { option_map (λ v. view v.now) result ≡ get_member (codes "node") (table_view document.now) }
{
    document.get("node")
}

/// The nodes that stand in a value.
fn nodes_in(value: Option<&Value>) -> &[Value]
    ensures { items_view result.now ≡ nodes_in (option_map (λ v. view v.now) value.entry) }
{
    match value.and_then(|node| node.as_array()) {
        Some(nodes) => nodes.as_slice(),
        None => &[],
    }
}

/// The AdminKeyName of the row of this number, from 1, of the node of this name; None where no row is
/// there.
#[tactic(auto, unfolding(book_scope_plan::specs::AdminNames::admin_name))]
pub fn admin_name<'a>(document: &'a Table, name: &[u8], number: u8) -> Option<&'a str>
    ensures { option_map (λ s. s.now) result ≡ admin_name (table_view document.now) name.now number }
{
    let rows = rows_named(nodes_in(node_value(document)), name)?;
    let row = rows.get(usize::from(number).saturating_sub(1))?;
    text_in(row, "AdminKeyName")
}
