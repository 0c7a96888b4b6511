//! A judge of stored segments, which says a line of each.
ghost use Rattle.std.specs.Prelude.{◌≡◌, ◌≤◌, ◌+◌, [], List, IfOk};
ghost use Rattle.book_cmd_check.specs.Captures.{Stored};
ghost use Rattle.cmd_check.specs.Judges.{Gathers, HasHeard};

use ao_base::Steps;
use capture_check::{Checker, push_check_line};
use key_table::Tables;
use std::alloc::{AllocError, Global};
use std::marker::Model;
use std::sync::ledger::Ledger;

/// A judge of stored segments, seen as what its checker knows and whether a segment was no pass.
#[derive(Drop)]
pub(crate) struct Judge {
    checker: Checker,
    // the line of the last segment, kept for its memory
    line: Vec<u8>,
    amiss: bool,
}

impl Model for Judge {
    ghost use Rattle.cmd_check.specs.Judges.{Judging};

    ghost Value = { Judging };

    ghost view = { λ j. record { checking = j.checker; amiss = j.amiss } };
}

impl Judge {
    /// A judge that has heard no segment.
    pub(crate) fn new(alloc: Global, tables: Tables) -> Result<Judge, AllocError>
        ensures tables { IfOk result (λ j. j.checking.tables ≡ tables) }
        ensures heard { IfOk result (λ j. HasHeard j []) }
    {
        let checker = Checker::new(alloc, tables)?;
        Ok(Judge {
            checker,
            line: Vec::new(alloc),
            amiss: false,
        })
    }

    /// Judges the bytes that were stored at a time, in seconds since 1970, by the segments heard
    /// before, and puts the line of it, which begins with this number, behind `lines`. Where memory
    /// runs out these stay as they were, and no call may follow. At most one key is derived.
    pub(crate) fn hear<L: Ledger>(
        &mut self,
        alloc: Global,
        steps: &mut Steps<L>,
        number: u64,
        time: u64,
        bytes: &[u8],
        lines: &mut Vec<u8>,
    ) -> Result<(), AllocError>
        ensures gathers { (stored : List Stored) → HasHeard self.old stored →
            Gathers self.old self.new stored (record { number = number; time = time; bytes = bytes.now })
            lines.old.items lines.new.items result }
        ensures least { steps.old ≤ steps.new }
        ensures most { steps.new ≤ steps.old + 1 }
    {
        let answer = match self.checker.next(alloc, time, bytes, steps) {
            Ok(answer) => answer,
            Err(error) => return Err(error),
        };
        self.line.clear();
        match push_check_line(&mut self.line, number, &answer) {
            Ok(()) => {}
            Err(error) => return Err(error),
        }
        self.amiss |= !answer.is_pass();
        match lines.extend_from_slice(self.line.as_slice()) {
            Ok(()) => Ok(()),
            Err(error) => Err(error),
        }
    }

    /// Whether some segment that was heard is no pass.
    pub(crate) fn is_amiss(&self) -> bool
        ensures { result ≡ self.now.amiss }
    {
        self.amiss
    }
}
