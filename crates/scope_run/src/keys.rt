//! The word `keys`.
ghost use Rattle.std.specs.Prelude.{◌≡◌, ℕ, List};
ghost use Rattle.ao_base.specs.Outside.{Side};
ghost use Rattle.scope_run.specs.Acts.{JudgesKeys};
ghost use Rattle.scope_run.specs.Answers.{MakesKeyReport};

use crate::reading::read_whole;
use crate::report::write_report;
use ao_base::{Sink, Source};
use book_scope_run::{Halt, Origin};
use command_report::Report;
use scope_keys::answer_keys;
use std::alloc::Global;

/// What is wrong with a key file.
fn key_report(alloc: Global, keys: &[u8]) -> Result<Report, Halt>
    ensures { MakesKeyReport keys.now result }
{
    match answer_keys(alloc, keys) {
        Ok(report) => Ok(report),
        Err(_) => Err(Halt::Memory),
    }
}

/// Writes what is wrong with the key file.
pub(crate) fn act<K: Source, O: Sink>(
    alloc: Global,
    keys: &mut K,
    out: &mut O,
) -> Result<bool, Halt>
    ensures { (given : List ℕ) ×
        JudgesKeys given (K.side keys.old) (K.side keys.new) (O.side out.old) (O.side out.new) result }
{
    let keys = match read_whole(alloc, Origin::KeyFile, keys) {
        Ok(keys) => keys,
        Err(why) => return Err(why),
    };
    write_report(key_report(alloc, keys.as_slice()), out)
}
