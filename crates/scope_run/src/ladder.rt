//! `sessions --draw`: a session of a capture as a ladder.
ghost use Rattle.std.specs.Prelude.{◌≡◌, ℕ, List, None, Some};
ghost use Rattle.ao_base.specs.Outside.{Side};
ghost use Rattle.scope_run.specs.Acts.{DrawsBy, ReadsAndDraws, SessionsBy};
ghost use Rattle.scope_run.specs.Requests.{ladder_form_of, ladder_wanted};
ghost use Rattle.scope_run.specs.Sides.{Flow, Given, Sides};

use crate::asked::SessionsAsked;
use crate::halt::halt_of_ladder;
use crate::reading::judged_from;
use crate::words::{drawn_alone, laps_asked, session_asked, within_asked};
use ao_base::{Sink, Source};
use book_scope_run::Halt;
use book_sessions::GivenIsns;
use page_draw_svg::LadderForm;
use scope_keys::KeyFile;
use scope_ladder::{LadderRequest, draw_session};
use std::alloc::Global;

fn form_of(is_svg: bool) -> LadderForm
    ensures { result ≡ ladder_form_of is_svg }
{
    if is_svg {
        LadderForm::Picture
    } else {
        LadderForm::Text
    }
}

fn ladder_wanted(asked: &SessionsAsked<'_>, text: &[u8]) -> Result<LadderRequest, Halt>
    ensures { result ≡ ladder_wanted asked.now text.now }
{
    drawn_alone(asked.json, asked.every.is_some(), asked.all)?;
    let laps = laps_asked(asked.laps)?;
    let number = session_asked(text)?;
    let within = within_asked(asked.from, asked.to)?;
    Ok(LadderRequest {
        form: form_of(asked.svg),
        laps,
        number,
        within,
    })
}

fn draw_by<I: Source, O: Sink>(
    alloc: Global,
    wanted: LadderRequest,
    file: KeyFile,
    isns: &[GivenIsns],
    input: &mut I,
    out: &mut O,
) -> Result<bool, Halt>
    ensures { (i : List ℕ) × DrawsBy wanted file.tables isns.now
        (record {
          given = i;
          input_before = I.side input.old;
          input_now = I.side input.new;
          out_before = O.side out.old;
          out_now = O.side out.new;
        }) result }
{
    match draw_session(alloc, wanted, file.tables, isns, input, out) {
        Ok(()) => Ok(false),
        Err(halt) => Err(halt_of_ladder(wanted.number, halt)),
    }
}

fn read_and_draw<K: Source, J: Source, I: Source, O: Sink>(
    alloc: Global,
    wanted: LadderRequest,
    has_isns: bool,
    keys: &mut K,
    isns: &mut J,
    input: &mut I,
    out: &mut O,
) -> Result<bool, Halt>
    ensures { (g : Given) × ReadsAndDraws has_isns wanted g
        (record { keys = K.side keys.old; isns = J.side isns.old; input = I.side input.old; out = O.side out.old })
        (record { keys = K.side keys.new; isns = J.side isns.new; input = I.side input.new; out = O.side out.new })
        result }
{
    match judged_from(alloc, has_isns, keys, isns) {
        Ok(judged) => draw_by(
            alloc,
            wanted,
            judged.file,
            judged.isns.as_slice(),
            input,
            out,
        ),
        Err(why) => Err(why),
    }
}

/// Draws the session that the text numbers; nothing is amiss then.
pub(crate) fn act<K: Source, J: Source, I: Source, O: Sink>(
    alloc: Global,
    text: &[u8],
    asked: &SessionsAsked<'_>,
    keys: &mut K,
    isns: &mut J,
    input: &mut I,
    out: &mut O,
) -> Result<bool, Halt>
    ensures { (g : Given) × SessionsBy None (Some text.now) asked.now g
        (record { keys = K.side keys.old; isns = J.side isns.old; input = I.side input.old; out = O.side out.old })
        (record { keys = K.side keys.new; isns = J.side isns.new; input = I.side input.new; out = O.side out.new })
        result }
{
    match ladder_wanted(asked, text) {
        Ok(wanted) => read_and_draw(alloc, wanted, asked.has_isns, keys, isns, input, out),
        Err(why) => Err(why),
    }
}
