//! What stands in the way of the keys that a word names, written when a capture is read.
ghost use Rattle.std.specs.Prelude.{◌≡◌, ℕ, List};
ghost use Rattle.toml.specs.View.{table_view};
ghost use Rattle.ao_base.specs.Outside.{Side};
ghost use Rattle.scope_sessions.specs.Reading.{series_of};
ghost use Rattle.scope_sessions.specs.Writing.{Writes, WritesCounted, at_end, retire_report};

use crate::count::{Counted, count_capture};
use crate::named_keys::push_retiring;
use ao_base::{Failed, Sink, Source, write_all};
use book_sessions::{GivenIsns, Retiring};
use capture_walk::WalkHalt;
use page_sessions_json::{TableForm, TableRequest};
use scope_keys::KeyFile;
use std::alloc::Global;

/// No table is asked for in front of a packet.
const AT_END: TableRequest = TableRequest {
    form: TableForm::Lines,
    all: false,
    every: None,
};

// Writes the lines of the rows that the word names, by what was counted.
fn write_counted<O: Sink>(
    alloc: Global,
    word: &[u8],
    document: &toml::Table,
    counted: &Counted,
    out: &mut O,
) -> Result<Retiring, WalkHalt>
    ensures { WritesCounted (retire_report word.now) (table_view document.now) counted.now (O.side out.old)
        (O.side out.new) result }
{
    let tables = counted.listener.tables();
    let mut text = Vec::new(alloc);
    let told = match push_retiring(alloc, &mut text, word, document, tables, &counted.index) {
        Ok(told) => told,
        Err(_) => return Err(WalkHalt::Memory),
    };
    match write_all(out, text.as_slice()) {
        Ok(()) => {}
        Err(Failed) => return Err(WalkHalt::Write),
    }
    match counted.fault {
        None => Ok(told),
        Some(fault) => Err(WalkHalt::Broken(fault)),
    }
}

/// Writes what a table of the sessions of a capture says of the rows of a key file that a word names: the
/// AdminKeyName of a row, or its SendID or RecvID in decimal. The capture is judged, and all ends early, as with
/// [`write_sessions`](crate::write_sessions) where no table is asked for in front of a packet. Ok at the capture's
/// end, and whether there are such rows, and all of them may go.
pub fn write_retiring<I: Source, O: Sink>(
    alloc: Global,
    word: &[u8],
    laps: u32,
    file: KeyFile,
    isns: &[GivenIsns],
    input: &mut I,
    out: &mut O,
) -> Result<Retiring, WalkHalt>
    ensures { (given : List ℕ) × Writes (retire_report word.now)
        (series_of (table_view file.document) file.tables laps isns.now at_end) given (I.side input.old)
        (I.side input.new) (O.side out.old) (O.side out.new) result }
{
    let KeyFile { document, tables } = file;
    match count_capture(alloc, tables, laps, isns, &document, AT_END, input, out) {
        Ok(counted) => write_counted(alloc, word, &document, &counted, out),
        Err(halt) => Err(halt),
    }
}
