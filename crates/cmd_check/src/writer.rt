//! The lines that are gathered, and how they are written.
ghost use Rattle.cmd_check.specs.Gatherings.{RunsOut, WritesLines};

use crate::halt::Halt;
use ao_base::{Failed, Sink, write_all};

/// Writes the lines that are gathered; then there is none.
pub(crate) fn write_lines<O: Sink>(lines: &mut Vec<u8>, out: &mut O) -> Result<(), Failed>
    ensures { WritesLines lines.old.items lines.new.items (O.side out.old) (O.side out.new) result }
{
    match write_all(out, lines.as_slice()) {
        Ok(()) => {
            lines.clear();
            Ok(())
        }
        Err(failed) => Err(failed),
    }
}

/// Why a check ends for want of memory: the lines that are gathered are still written.
pub(crate) fn run_out<O: Sink>(lines: &mut Vec<u8>, out: &mut O) -> Halt
    ensures { RunsOut lines.old.items (O.side out.old) (O.side out.new) result }
{
    match write_lines(lines, out) {
        Ok(()) => Halt::Memory,
        Err(_) => Halt::Write,
    }
}
