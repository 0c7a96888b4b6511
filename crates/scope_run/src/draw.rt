//! The word `draw`.
ghost use Rattle.std.specs.Prelude.{◌≡◌, ℕ, List};
ghost use Rattle.ao_base.specs.Outside.{Side};
ghost use Rattle.scope_run.specs.Acts.{Draws, DrawsRun, DrawsSharedRun};
ghost use Rattle.scope_run.specs.Requests.{form_of};
ghost use Rattle.scope_run.specs.Sides.{Given, Sides};

use crate::asked::DrawAsked;
use crate::reading::{read_whole, tables_from};
use crate::report::{made, write_report};
use ao_base::{Sink, Source};
use book_scope_run::{Halt, Origin};
use key_table::Tables;
use page_draw_svg::Form;
use scope_draw::{answer_draw, answer_draw_keys};
use std::alloc::Global;

fn form_of(asked: DrawAsked) -> Form
    ensures { result ≡ form_of asked }
{
    if asked.svg { Form::Svg } else { Form::Text }
}

/// Draws the run of a link file over these tables.
fn draw_over<I: Source, O: Sink>(
    alloc: Global,
    form: Form,
    tables: Tables,
    input: &mut I,
    out: &mut O,
) -> Result<bool, Halt>
    ensures { (i : List ℕ) × DrawsRun form tables
        (record {
          given = i;
          input_before = I.side input.old;
          input_now = I.side input.new;
          out_before = O.side out.old;
          out_now = O.side out.new;
        }) result }
{
    let text = match read_whole(alloc, Origin::Input, input) {
        Ok(text) => text,
        Err(why) => return Err(why),
    };
    let answer = answer_draw_keys(alloc, form, tables, text.as_slice());
    write_report(made(answer), out)
}

/// Draws the run of a link file that names the key that both ends share.
fn draw_shared<I: Source, O: Sink>(
    alloc: Global,
    form: Form,
    input: &mut I,
    out: &mut O,
) -> Result<bool, Halt>
    ensures { (i : List ℕ) × DrawsSharedRun form
        (record {
          given = i;
          input_before = I.side input.old;
          input_now = I.side input.new;
          out_before = O.side out.old;
          out_now = O.side out.new;
        }) result }
{
    let text = match read_whole(alloc, Origin::Input, input) {
        Ok(text) => text,
        Err(why) => return Err(why),
    };
    let answer = answer_draw(alloc, form, text.as_slice());
    write_report(made(answer), out)
}

/// Draws the run of a link file, over the tables of the key file, where the words ask for it.
pub(crate) fn act<K: Source, I: Source, O: Sink>(
    alloc: Global,
    asked: DrawAsked,
    keys: &mut K,
    input: &mut I,
    out: &mut O,
) -> Result<bool, Halt>
    ensures { (isns : Side) → (g : Given) × Draws asked.has_keys (form_of asked) g
        (record { keys = K.side keys.old; isns = isns; input = I.side input.old; out = O.side out.old })
        (record { keys = K.side keys.new; isns = isns; input = I.side input.new; out = O.side out.new })
        result }
{
    let form = form_of(asked);
    if !asked.has_keys {
        return draw_shared(alloc, form, input, out);
    }
    match tables_from(alloc, keys) {
        Ok(tables) => draw_over(alloc, form, tables, input, out),
        Err(why) => Err(why),
    }
}
