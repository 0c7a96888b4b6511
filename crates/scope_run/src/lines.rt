//! The word `lines`.
ghost use Rattle.std.specs.Prelude.{◌≡◌, ℕ, List};
ghost use Rattle.ao_base.specs.Outside.{Side};
ghost use Rattle.scope_run.specs.Acts.{Lists};

use crate::halt::halt_of_lines;
use ao_base::{Sink, Source};
use book_scope_run::Halt;
use scope_lines::write_lines;
use std::alloc::Global;

/// Writes the lines of a capture; nothing is amiss then.
pub(crate) fn act<I: Source, O: Sink>(
    alloc: Global,
    input: &mut I,
    out: &mut O,
) -> Result<bool, Halt>
    ensures { (i : List ℕ) × Lists
        (record {
          given = i;
          input_before = I.side input.old;
          input_now = I.side input.new;
          out_before = O.side out.old;
          out_now = O.side out.new;
        }) result }
{
    match write_lines(alloc, input, out) {
        Ok(()) => Ok(false),
        Err(halt) => Err(halt_of_lines(halt)),
    }
}
