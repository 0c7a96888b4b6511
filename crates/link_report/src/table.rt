//! The events at an end's table.
ghost use Rattle.std.specs.Prelude.{◌≡◌, OnErr, IfOk};
ghost use Rattle.book_keys.specs.Tables.{IsNewRow};
ghost use Rattle.book_link.specs.declared.event.Action.TheVariants.{AddRow, Withdraw};
ghost use Rattle.book_link.specs.Worlds.{LinkSide as EndSide};
ghost use Rattle.link_report.specs.Sides.{StandsSide, sockets_of};
ghost use Rattle.link_report.specs.Steps.{Steps};

use crate::answer::Answer;
use crate::side::Side;
use book_base::Bytes;
use key_table::{AddRefusal, NewRow};
use std::alloc::{AllocError, Global};

/// The row once more, with a master key of its own.
fn copied(alloc: Global, row: &NewRow) -> Result<NewRow, AllocError>
    ensures { IfOk result (λ r. r ≡ row.now) }
{
    Ok(NewRow {
        recv_id: row.recv_id,
        send_id: row.send_id,
        algorithm: row.algorithm,
        master: Bytes::from_vec(Vec::from_slice(alloc, row.master.as_slice())?),
        with_options: row.with_options,
        direction: row.direction,
        sending: row.sending,
        accepting: row.accepting,
    })
}

impl Side {
    /// A row is added behind the last one of the end's table, unless it has 64, or one of them
    /// overlaps it; the live session goes on under the new table. The master key and the lifetimes are
    /// as for `Table::add`. Out of memory all is as it was.
    pub fn add_row(&mut self, alloc: Global, row: &NewRow) -> Result<Answer, AllocError>
        requires row { IsNewRow row.now }
        ensures pair { sockets_of self.new ≡ sockets_of self.old }
        ensures step { IfOk result (λ told. Steps self.old self.new (AddRow row.now) told) }
        ensures same { OnErr result ((m : EndSide) → StandsSide self.old m → StandsSide self.new m) }
    {
        let row = copied(alloc, row)?;
        match self.table.add(alloc, row) {
            Ok(number) => Ok(Answer::Added(number)),
            Err(AddRefusal::Memory) => Err(AllocError),
            Err(AddRefusal::TooMany) => Ok(Answer::TooManyRows),
            Err(AddRefusal::Overlap(number)) => Ok(Answer::Overlap(number)),
        }
    }

    /// The row of this number becomes Disabled, where there is one; the live session goes on under the
    /// new table.
    pub fn withdraw(&mut self, number: u8) -> Answer
        ensures pair { sockets_of self.new ≡ sockets_of self.old }
        ensures step { Steps self.old self.new (Withdraw number) result }
    {
        match self.table.withdraw(number) {
            Ok(()) => Answer::Done,
            Err(_) => Answer::NoRow,
        }
    }
}
