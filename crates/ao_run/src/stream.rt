//! The commands that write as they read: `check KEYS` and `check --pcap KEYS`.
ghost use Rattle.std.specs.Prelude.{◌≡◌, ℕ, List, Some};
ghost use Rattle.ao_run.specs.Ended.{EndedBehind};
ghost use Rattle.ao_run.specs.Jobs.{check_command};

use crate::stop::Stop;
use crate::told::status_of;
use ao_base::{Sink, Source};
use cmd_check::{Form, answer};
use key_table::Tables;
use std::alloc::Global;

/// Judges the stored segments of an input of this form one by one; the answer is the status of the
/// program.
pub(crate) fn check<I: Source, O: Sink>(
    alloc: Global,
    form: Form,
    tables: Tables,
    input: &mut I,
    out: &mut O,
) -> Result<u8, Stop>
    ensures { (i : List ℕ) × EndedBehind (check_command form) (Some tables) i (I.side input.old) (I.side input.new)
        (O.side out.old) (O.side out.new) result }
{
    match answer(alloc, tables, form, input, out) {
        Ok(amiss) => Ok(status_of(amiss)),
        Err(halt) => Err(Stop::of_check(alloc, halt)),
    }
}
