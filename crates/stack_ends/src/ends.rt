//! Ends, their table and their clock.
ghost use Rattle.std.specs.Prelude.{◌≤◌};
ghost use Rattle.book_keys.specs.Lifetimes.{greatest_time};
ghost use Rattle.stack_ends.specs.Held.{FitsAll};

use crate::node::Node;
use key_table::Table;

/// The ends of a stack, the table of their keys, and the second that they were told last. It stands for
/// nodes of the definitions under the table's rows: each call says that it stands for the next one
/// after.
#[derive(Drop)]
pub struct Ends {
    pub(crate) table: Table,
    pub(crate) node: Node,
    pub(crate) clock: u64,
    ghost fits: { FitsAll table.rows node },
    ghost time: { clock ≤ greatest_time },
}
