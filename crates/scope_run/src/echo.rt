//! The word `echo`.
ghost use Rattle.std.specs.Prelude.{◌≡◌, ℕ, List};
ghost use Rattle.ao_base.specs.Outside.{Side};
ghost use Rattle.scope_run.specs.Acts.{EchoesBy, Echoes, EchoesShared};
ghost use Rattle.scope_run.specs.Sides.{Given, Sides};

use crate::asked::EchoAsked;
use crate::reading::{read_whole, tables_from};
use crate::report::{made, write_report};
use ao_base::{Sink, Source};
use book_scope_run::{Halt, Origin};
use key_table::Tables;
use scope_draw::{answer_echo, answer_echo_keys};
use std::alloc::Global;

/// Echoes a link file over these tables.
fn echo_over<I: Source, O: Sink>(
    alloc: Global,
    tables: Tables,
    input: &mut I,
    out: &mut O,
) -> Result<bool, Halt>
    ensures { (i : List ℕ) × Echoes tables
        (record {
          given = i;
          input_before = I.side input.old;
          input_now = I.side input.new;
          out_before = O.side out.old;
          out_now = O.side out.new;
        }) result }
{
    let text = match read_whole(alloc, Origin::Input, input) {
        Ok(text) => text,
        Err(why) => return Err(why),
    };
    let answer = answer_echo_keys(alloc, tables, text.as_slice());
    write_report(made(answer), out)
}

/// Echoes a link file that names the key that both ends share.
fn echo_shared<I: Source, O: Sink>(alloc: Global, input: &mut I, out: &mut O) -> Result<bool, Halt>
    ensures { (i : List ℕ) × EchoesShared
        (record {
          given = i;
          input_before = I.side input.old;
          input_now = I.side input.new;
          out_before = O.side out.old;
          out_now = O.side out.new;
        }) result }
{
    let text = match read_whole(alloc, Origin::Input, input) {
        Ok(text) => text,
        Err(why) => return Err(why),
    };
    let answer = answer_echo(alloc, text.as_slice());
    write_report(made(answer), out)
}

/// Echoes a link file, over the tables of the key file, where the words ask for it.
pub(crate) fn act<K: Source, I: Source, O: Sink>(
    alloc: Global,
    asked: EchoAsked,
    keys: &mut K,
    input: &mut I,
    out: &mut O,
) -> Result<bool, Halt>
    ensures { (isns : Side) → (g : Given) × EchoesBy asked.has_keys g
        (record { keys = K.side keys.old; isns = isns; input = I.side input.old; out = O.side out.old })
        (record { keys = K.side keys.new; isns = isns; input = I.side input.new; out = O.side out.new })
        result }
{
    if !asked.has_keys {
        return echo_shared(alloc, input, out);
    }
    match tables_from(alloc, keys) {
        Ok(tables) => echo_over(alloc, tables, input, out),
        Err(why) => Err(why),
    }
}
