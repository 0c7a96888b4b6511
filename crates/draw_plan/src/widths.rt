//! How wide a picture is.
ghost use Rattle.std.specs.Prelude.{◌≡◌, ◌≤◌, IfOk, length};
ghost use Rattle.toml.specs.View.{table_view};
ghost use Rattle.page_draw_plan_svg.specs.RowNames.{longest_name, longest_row, picture_width};
ghost use Rattle.book_keys.specs.Rows.{row_limit};

use crate::names::named_row;
use key_table::{Row, Table, Tables};
use std::alloc::{AllocError, Global};

/// The greatest length of the names of these rows of a node, where others are so long.
fn longest_row(
    alloc: Global,
    document: &toml::Table,
    name: &[u8],
    so_far: u64,
    rows: &[Row],
) -> Result<u64, AllocError>
    requires { length rows.now ≤ row_limit }
    ensures { IfOk result (λ most. most ≡ longest_row (table_view document.now) name.now so_far 1 rows.now) }
{
    let mut most = so_far;
    for (i, _row) in rows.iter().enumerate() {
        let text = named_row(alloc, document, name, (i + 1) as u8)?;
        most = most.max(text.len() as u64);
    }
    Ok(most)
}

/// The same of the rows of a node.
fn longest_of(
    alloc: Global,
    document: &toml::Table,
    so_far: u64,
    node: &Table,
) -> Result<u64, AllocError>
    ensures { IfOk result (λ most. most ≡ longest_row (table_view document.now) node.now.name so_far 1 node.now.rows) }
{
    // It tells that a table has at most 64 rows, so that each number fits.
    let _count = node.rows();
    longest_row(alloc, document, node.name(), so_far, node.entries())
}

/// The greatest length of the names of the rows of all nodes.
fn longest_name(alloc: Global, document: &toml::Table, tables: &Tables) -> Result<u64, AllocError>
    ensures { IfOk result (λ most. most ≡ longest_name (table_view document.now) 0 tables.now) }
{
    let mut most = 0;
    for i in 0..tables.nodes() {
        most = longest_of(alloc, document, most, tables.node(i + 1))?;
    }
    Ok(most)
}

/// How wide the picture of plans of these tables of a document is: 800, or so wide that each name of a row has
/// room with what stands after it. An error only when out of memory.
#[tactic(auto, unfolding(page_draw_plan_svg::specs::RowNames::picture_width))]
pub fn picture_width(
    alloc: Global,
    document: &toml::Table,
    tables: &Tables,
) -> Result<u64, AllocError>
    ensures { IfOk result
        (λ width. width ≡ picture_width (record { document = table_view document.now; tables = tables.now })) }
{
    let longest = longest_name(alloc, document, tables)?;
    Ok((200 + 8 * longest.min(65_536)).max(800))
}
