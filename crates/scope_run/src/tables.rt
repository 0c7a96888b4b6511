//! `sessions`: the tables of a capture.
ghost use Rattle.std.specs.Prelude.{◌≡◌, ℕ, List, None};
ghost use Rattle.ao_base.specs.Outside.{Side};
ghost use Rattle.scope_keys.specs.KeyFiles.{key_file_of};
ghost use Rattle.scope_run.specs.Acts.{ReadsAndTabulates, SessionsBy, Tabulates};
ghost use Rattle.scope_run.specs.Requests.{table_form_of, tables_wanted};
ghost use Rattle.scope_run.specs.Sides.{Flow, Given, Sides};

use crate::asked::SessionsAsked;
use crate::halt::halt_of_walk;
use crate::reading::judged_from;
use crate::words::{every_asked, laps_asked};
use ao_base::{Sink, Source};
use book_scope_run::Halt;
use book_sessions::GivenIsns;
use scope_keys::KeyFile;
use scope_sessions::{TableForm, TableRequest, write_sessions};
use std::alloc::Global;

/// The tables that the words ask for, and over how many laps is searched.
#[derive(Clone, Copy)]
pub(crate) struct TablesWanted {
    pub(crate) request: TableRequest,
    pub(crate) laps: u32,
}

fn form_of(is_json: bool) -> TableForm
    ensures { result ≡ table_form_of is_json }
{
    if is_json {
        TableForm::Json
    } else {
        TableForm::Lines
    }
}

fn tables_wanted(asked: &SessionsAsked<'_>) -> Result<TablesWanted, Halt>
    ensures { result ≡ tables_wanted asked.now }
{
    let every = every_asked(asked.every)?;
    let laps = laps_asked(asked.laps)?;
    let request = TableRequest {
        form: form_of(asked.json),
        all: asked.all,
        every,
    };
    Ok(TablesWanted { request, laps })
}

fn write_tables<I: Source, O: Sink>(
    alloc: Global,
    wanted: TablesWanted,
    file: KeyFile,
    isns: &[GivenIsns],
    input: &mut I,
    out: &mut O,
) -> Result<bool, Halt>
    ensures { (i : List ℕ) × Tabulates wanted (key_file_of file) isns.now
        (record {
          given = i;
          input_before = I.side input.old;
          input_now = I.side input.new;
          out_before = O.side out.old;
          out_now = O.side out.new;
        }) result }
{
    match write_sessions(alloc, wanted.request, wanted.laps, file, isns, input, out) {
        Ok(is_amiss) => Ok(is_amiss),
        Err(halt) => Err(halt_of_walk(halt)),
    }
}

fn read_and_write<K: Source, J: Source, I: Source, O: Sink>(
    alloc: Global,
    wanted: TablesWanted,
    has_isns: bool,
    keys: &mut K,
    isns: &mut J,
    input: &mut I,
    out: &mut O,
) -> Result<bool, Halt>
    ensures { (g : Given) × ReadsAndTabulates has_isns wanted g
        (record { keys = K.side keys.old; isns = J.side isns.old; input = I.side input.old; out = O.side out.old })
        (record { keys = K.side keys.new; isns = J.side isns.new; input = I.side input.new; out = O.side out.new })
        result }
{
    match judged_from(alloc, has_isns, keys, isns) {
        Ok(judged) => write_tables(
            alloc,
            wanted,
            judged.file,
            judged.isns.as_slice(),
            input,
            out,
        ),
        Err(why) => Err(why),
    }
}

/// Writes the tables that the words ask for.
pub(crate) fn act<K: Source, J: Source, I: Source, O: Sink>(
    alloc: Global,
    asked: &SessionsAsked<'_>,
    keys: &mut K,
    isns: &mut J,
    input: &mut I,
    out: &mut O,
) -> Result<bool, Halt>
    ensures { (g : Given) × SessionsBy None None asked.now g
        (record { keys = K.side keys.old; isns = J.side isns.old; input = I.side input.old; out = O.side out.old })
        (record { keys = K.side keys.new; isns = J.side isns.new; input = I.side input.new; out = O.side out.new })
        result }
{
    match tables_wanted(asked) {
        Ok(wanted) => read_and_write(alloc, wanted, asked.has_isns, keys, isns, input, out),
        Err(why) => Err(why),
    }
}
