//! `sessions --retire`: whether the keys that a word names may go.
ghost use Rattle.std.specs.Prelude.{◌≡◌, ℕ, List, Option, Some, option_map};
ghost use Rattle.ao_base.specs.Outside.{Side};
ghost use Rattle.scope_keys.specs.KeyFiles.{key_file_of};
ghost use Rattle.scope_run.specs.Acts.{ReadsAndRetires, Retires, SessionsBy};
ghost use Rattle.scope_run.specs.Halts.{retiring_end};
ghost use Rattle.scope_run.specs.Requests.{retiring_wanted};
ghost use Rattle.scope_run.specs.Sides.{Flow, Given, Sides};

use crate::asked::SessionsAsked;
use crate::halt::halt_of_walk;
use crate::reading::judged_from;
use crate::words::{laps_asked, retired_alone};
use ao_base::{Sink, Source};
use book_scope_run::Halt;
use book_sessions::GivenIsns;
use capture_walk::WalkHalt;
use scope_keys::KeyFile;
use scope_sessions::{Retiring, write_retiring};
use std::alloc::Global;

fn retiring_wanted(asked: &SessionsAsked<'_>) -> Result<u32, Halt>
    ensures { result ≡ retiring_wanted asked.now }
{
    retired_alone(
        asked.json,
        asked.all,
        asked.every.is_some(),
        asked.draw.is_some(),
    )?;
    laps_asked(asked.laps)
}

fn retiring_end(told: Result<Retiring, WalkHalt>) -> Result<bool, Halt>
    ensures { result ≡ retiring_end told }
{
    match told {
        Ok(Retiring::Yes) => Ok(false),
        Ok(Retiring::NotYes) => Ok(true),
        Ok(Retiring::NoSuchRow) => Err(Halt::NoSuchKey),
        Err(halt) => Err(halt_of_walk(halt)),
    }
}

fn write_lines<I: Source, O: Sink>(
    alloc: Global,
    word: &[u8],
    laps: u32,
    file: KeyFile,
    isns: &[GivenIsns],
    input: &mut I,
    out: &mut O,
) -> Result<bool, Halt>
    ensures { (i : List ℕ) × Retires word.now laps (key_file_of file) isns.now
        (record {
          given = i;
          input_before = I.side input.old;
          input_now = I.side input.new;
          out_before = O.side out.old;
          out_now = O.side out.new;
        }) result }
{
    retiring_end(write_retiring(alloc, word, laps, file, isns, input, out))
}

fn read_and_write<K: Source, J: Source, I: Source, O: Sink>(
    alloc: Global,
    word: &[u8],
    laps: u32,
    has_isns: bool,
    keys: &mut K,
    isns: &mut J,
    input: &mut I,
    out: &mut O,
) -> Result<bool, Halt>
    ensures { (g : Given) × ReadsAndRetires has_isns word.now laps g
        (record { keys = K.side keys.old; isns = J.side isns.old; input = I.side input.old; out = O.side out.old })
        (record { keys = K.side keys.new; isns = J.side isns.new; input = I.side input.new; out = O.side out.new })
        result }
{
    match judged_from(alloc, has_isns, keys, isns) {
        Ok(judged) => write_lines(
            alloc,
            word,
            laps,
            judged.file,
            judged.isns.as_slice(),
            input,
            out,
        ),
        Err(why) => Err(why),
    }
}

/// Writes whether the keys that the word names may go; one that may not, or isn't known to, is amiss.
pub(crate) fn act<K: Source, J: Source, I: Source, O: Sink>(
    alloc: Global,
    word: &[u8],
    asked: &SessionsAsked<'_>,
    keys: &mut K,
    isns: &mut J,
    input: &mut I,
    out: &mut O,
) -> Result<bool, Halt>
    ensures { (draw : Option (List ℕ)) → (g : Given) × SessionsBy (Some word.now) draw asked.now g
        (record { keys = K.side keys.old; isns = J.side isns.old; input = I.side input.old; out = O.side out.old })
        (record { keys = K.side keys.new; isns = J.side isns.new; input = I.side input.new; out = O.side out.new })
        result }
{
    match retiring_wanted(asked) {
        Ok(laps) => read_and_write(alloc, word, laps, asked.has_isns, keys, isns, input, out),
        Err(why) => Err(why),
    }
}
