//! Rows are added and withdrawn while connections live.
ghost use Rattle.book_stack.specs.Counters.{StackCounts};
ghost use Rattle.book_keys.specs.Tables.{IsNewRow};
ghost use Rattle.book_stack.specs.Calls.{Withdraw};
ghost use Rattle.book_stack.specs.Stacks.{StackState};
ghost use Rattle.ao_stack.specs.Answers.{IsWithdrawn};
ghost use Rattle.ao_stack.specs.CountersAnswers.{AddsAs, Follows};
ghost use Rattle.ao_stack.specs.CountersStands.{Stands};

use crate::counted_stack::CountedStack;
use book_keys::{AddRefusal, NewRow, NoRow};
use std::alloc::Global;

impl CountedStack {
    /// Adds a row behind the last one of the table, for any peer and any ports, and gives its number; all
    /// connections go on under the new table. `TooMany` exactly where there are 64 rows, else `Overlap`
    /// exactly where a row overlaps the new one, with the least such; `Memory` only for want of memory.
    /// After each of these the stack is as it was. No lifetime ends before it begins or after `LATEST`.
    pub fn add(&mut self, alloc: Global, row: NewRow) -> Result<u8, AddRefusal>
        requires row { IsNewRow row }
        ensures { (s : StackState) (n : StackCounts) → Stands self.old s n → AddsAs self.new row s n result }
    {
        self.stack.add(alloc, row)
    }

    /// Takes row `number` out of use: it keeps its number, and neither sends nor accepts from now on; all
    /// connections go on under the new table. `NoRow` exactly where there is no row of that number; then
    /// the stack is as it was.
    pub fn withdraw(&mut self, number: u8) -> Result<(), NoRow>
        ensures { (s : StackState) (n : StackCounts) → Stands self.old s n
            → Follows self.new (Withdraw number) s n (IsWithdrawn result) }
    {
        self.stack.withdraw(number)
    }
}
