//! Rows are added and withdrawn while ends live.
ghost use Rattle.std.specs.Prelude.{◌≡◌, List};
ghost use Rattle.book_keys.specs.Rows.{Row};
ghost use Rattle.book_keys.specs.Tables.{IsNewRow, adding, row_of_new, withdrawn};
ghost use Rattle.book_cmd_node.specs.NodeRuns.{NodeState};
ghost use Rattle.stack_ends.specs.Rows.{RowAdded, RowWithdrawn};
ghost use Rattle.stack_ends.specs.Stands.{Stands, most_of};

use crate::ends::Ends;
use book_keys::{AddRefusal, NewRow, NoRow};
use std::alloc::Global;
use tcp_endpoint::{end_fits_once_added, end_fits_once_withdrawn};

impl Ends {
    /// Adds a row behind the last one of the table, for any peer and any ports, and gives its number; all
    /// ends go on under the new table. `TooMany` exactly where there are 64 rows, else `Overlap` exactly
    /// where a row overlaps the new one, with the least such; `Memory` only for want of memory. After each
    /// of these it stands for what it stood for. No lifetime ends before it begins or after `LATEST`.
    pub fn add(&mut self, alloc: Global, row: NewRow) -> Result<u8, AddRefusal>
        requires row { IsNewRow row }
        ensures added { (rows : List Row) (n : NodeState) → Stands self.old rows n
            → RowAdded self.new n rows result (adding rows (row_of_new row)) }
        ensures most { most_of self.new ≡ most_of self.old }
    {
        end_fits_once_added();
        self.table.add(alloc, row)
    }

    /// Takes row `n` out of use: it keeps its number, and neither sends nor accepts from now on; all ends
    /// go on under the new table. `NoRow` exactly where there is no row of that number; then it stands for
    /// what it stood for.
    pub fn withdraw(&mut self, n: u8) -> Result<(), NoRow>
        ensures withdrawn { (rows : List Row) (m : NodeState) → Stands self.old rows m
            → RowWithdrawn self.new m rows result (withdrawn rows n) }
        ensures most { most_of self.new ≡ most_of self.old }
    {
        end_fits_once_withdrawn();
        self.table.withdraw(n)
    }
}
