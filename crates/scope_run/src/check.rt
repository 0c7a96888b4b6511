//! The word `check`.
ghost use Rattle.std.specs.Prelude.{◌≡◌, ℕ, List};
ghost use Rattle.ao_base.specs.Outside.{Side};
ghost use Rattle.scope_run.specs.Acts.{Checks, ReadsAndChecks};
ghost use Rattle.scope_run.specs.Sides.{Flow, Given, Sides};

use crate::asked::CheckAsked;
use crate::halt::halt_of_walk;
use crate::reading::judged_from;
use ao_base::{Sink, Source};
use book_scope_run::Halt;
use book_sessions::GivenIsns;
use packet_check::check_capture;
use scope_keys::KeyFile;
use std::alloc::Global;

fn write_lines<I: Source, O: Sink>(
    alloc: Global,
    all: bool,
    file: KeyFile,
    isns: &[GivenIsns],
    input: &mut I,
    out: &mut O,
) -> Result<bool, Halt>
    ensures { (i : List ℕ) × Checks all file.tables isns.now
        (record {
          given = i;
          input_before = I.side input.old;
          input_now = I.side input.new;
          out_before = O.side out.old;
          out_now = O.side out.new;
        }) result }
{
    match check_capture(alloc, all, file.tables, isns, input, out) {
        Ok(is_amiss) => Ok(is_amiss),
        Err(halt) => Err(halt_of_walk(halt)),
    }
}

/// Writes what the check says of each packet of the capture.
pub(crate) fn act<K: Source, J: Source, I: Source, O: Sink>(
    alloc: Global,
    asked: CheckAsked,
    keys: &mut K,
    isns: &mut J,
    input: &mut I,
    out: &mut O,
) -> Result<bool, Halt>
    ensures { (g : Given) × ReadsAndChecks asked.has_isns asked.all g
        (record { keys = K.side keys.old; isns = J.side isns.old; input = I.side input.old; out = O.side out.old })
        (record { keys = K.side keys.new; isns = J.side isns.new; input = I.side input.new; out = O.side out.new })
        result }
{
    match judged_from(alloc, asked.has_isns, keys, isns) {
        Ok(judged) => write_lines(
            alloc,
            asked.all,
            judged.file,
            judged.isns.as_slice(),
            input,
            out,
        ),
        Err(why) => Err(why),
    }
}
