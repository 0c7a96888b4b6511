//! The word `why`.
ghost use Rattle.std.specs.Prelude.{◌≡◌, ℕ, List};
ghost use Rattle.ao_base.specs.Outside.{Side};
ghost use Rattle.scope_keys.specs.KeyFiles.{key_file_of};
ghost use Rattle.scope_run.specs.Acts.{Explains, ExplainsBy, ReadsAndExplains};
ghost use Rattle.scope_run.specs.Requests.{why_wanted};
ghost use Rattle.scope_run.specs.Sides.{Flow, Given, Sides};

use crate::asked::PacketAsked;
use crate::halt::halt_of_walk;
use crate::reading::judged_from;
use crate::words::numbered_packet;
use ao_base::{Sink, Source};
use book_scope_run::Halt;
use book_sessions::GivenIsns;
use scope_keys::KeyFile;
use scope_why::{WhyRequest, write_why};
use std::alloc::Global;

fn why_wanted(asked: &PacketAsked<'_>) -> Result<WhyRequest, Halt>
    ensures { result ≡ why_wanted asked.now }
{
    let number = numbered_packet(asked.number)?;
    Ok(WhyRequest {
        number,
        with_key: asked.with_key,
    })
}

fn explain<I: Source, O: Sink>(
    alloc: Global,
    wanted: WhyRequest,
    file: KeyFile,
    isns: &[GivenIsns],
    input: &mut I,
    out: &mut O,
) -> Result<bool, Halt>
    ensures { (i : List ℕ) × Explains wanted (key_file_of file) isns.now
        (record {
          given = i;
          input_before = I.side input.old;
          input_now = I.side input.new;
          out_before = O.side out.old;
          out_now = O.side out.new;
        }) result }
{
    match write_why(alloc, wanted, file, isns, input, out) {
        Ok(passes) => Ok(!passes),
        Err(halt) => Err(halt_of_walk(halt)),
    }
}

fn read_and_explain<K: Source, J: Source, I: Source, O: Sink>(
    alloc: Global,
    wanted: WhyRequest,
    has_isns: bool,
    keys: &mut K,
    isns: &mut J,
    input: &mut I,
    out: &mut O,
) -> Result<bool, Halt>
    ensures { (g : Given) × ReadsAndExplains has_isns wanted g
        (record { keys = K.side keys.old; isns = J.side isns.old; input = I.side input.old; out = O.side out.old })
        (record { keys = K.side keys.new; isns = J.side isns.new; input = I.side input.new; out = O.side out.new })
        result }
{
    match judged_from(alloc, has_isns, keys, isns) {
        Ok(judged) => explain(
            alloc,
            wanted,
            judged.file,
            judged.isns.as_slice(),
            input,
            out,
        ),
        Err(why) => Err(why),
    }
}

/// Writes the answer on the packet that the words ask for; one that doesn't pass is amiss.
pub(crate) fn act<K: Source, J: Source, I: Source, O: Sink>(
    alloc: Global,
    asked: &PacketAsked<'_>,
    keys: &mut K,
    isns: &mut J,
    input: &mut I,
    out: &mut O,
) -> Result<bool, Halt>
    ensures { (g : Given) × ExplainsBy asked.now g
        (record { keys = K.side keys.old; isns = J.side isns.old; input = I.side input.old; out = O.side out.old })
        (record { keys = K.side keys.new; isns = J.side isns.new; input = I.side input.new; out = O.side out.new })
        result }
{
    match why_wanted(asked) {
        Ok(wanted) => read_and_explain(alloc, wanted, asked.has_isns, keys, isns, input, out),
        Err(why) => Err(why),
    }
}
