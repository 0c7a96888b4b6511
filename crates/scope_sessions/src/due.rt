//! When a table is due in front of a packet, and what is written then.
ghost use Rattle.std.specs.Prelude.{◌≡◌, ◌++◌, ◌+◌, ◌/◌, OnOk, nat_le, option_map};
ghost use Rattle.toml.specs.View.{table_view};
ghost use Rattle.ao_base.specs.Outside.{Side};
ghost use Rattle.page_sessions_json.specs.Forms.{written_as};
ghost use Rattle.page_sessions_json.specs.TableSeries.{counted_since, due_table, is_table_due, time_line};
ghost use Rattle.scope_keys.specs.KeyFiles.{keys_at};
ghost use Rattle.scope_sessions.specs.Texts.{WritesText};

use crate::json_table::push_json;
use crate::session_texts::push_time;
use crate::table_text::push_table;
use ao_base::{Failed, Sink, write_all};
use capture_listener::SessionIndex;
use capture_walk::HearHalt;
use key_table::Tables;
use page_sessions_json::{TableForm, TableRequest};
use std::alloc::{AllocError, Global};
use text_lines::push_newline;

/// How many nanoseconds a second has.
const NANOSECONDS: u64 = 1_000_000_000;

/// The second of a time in nanoseconds.
pub(crate) fn second_of(time: Option<u64>) -> Option<u64>
    ensures { result ≡ option_map (λ nanoseconds. nanoseconds / 1000000000) time }
{
    time.map(|time| time / NANOSECONDS)
}

fn is_past(every: u64, since: u64, now: u64) -> bool
    ensures { result ≡ nat_le (since + every) now }
{
    since.checked_add(every).is_some_and(|due| due <= now)
}

/// Whether a table is due now.
pub(crate) fn is_due(every: Option<u64>, since: Option<u64>, now: Option<u64>) -> bool
    ensures { result ≡ is_table_due every since now }
{
    match (every, since, now) {
        (Some(every), Some(since), Some(now)) => is_past(every, since, now),
        _ => false,
    }
}

/// Since when the seconds are counted behind a packet that was seen now.
pub(crate) fn counted_since(every: Option<u64>, since: Option<u64>, now: Option<u64>) -> Option<u64>
    ensures { result ≡ counted_since every since now }
{
    match now {
        None => since,
        Some(now) => match since {
            None => Some(now),
            Some(since) => {
                if is_due(every, Some(since), Some(now)) {
                    Some(now)
                } else {
                    Some(since)
                }
            }
        },
    }
}

/// Puts the table of what was counted behind `text`, as it is asked for.
pub(crate) fn push_form(
    alloc: Global,
    request: TableRequest,
    text: &mut Vec<u8>,
    document: &toml::Table,
    tables: &Tables,
    index: &SessionIndex,
) -> Result<(), AllocError>
    ensures { OnOk result (text.new.items ≡ text.old.items ++ written_as request
        (keys_at (table_view document.now) tables.now) index.now) }
{
    match request.form {
        TableForm::Lines => push_table(alloc, request.all, text, document, tables, index),
        TableForm::Json => push_json(alloc, request.all, text, document, tables, index),
    }
}

// Puts the line that ends a table behind `text`.
fn push_end(text: &mut Vec<u8>, form: TableForm, now: Option<u64>) -> Result<(), AllocError>
    ensures { OnOk result (text.new.items ≡ text.old.items ++ time_line form now) }
{
    match form {
        TableForm::Json => Ok(()),
        TableForm::Lines => match now {
            None => Ok(()),
            Some(now) => {
                text.extend_from_slice(b"at")?;
                push_time(text, now)?;
                push_newline(text)
            }
        },
    }
}

// Puts a table and the line that ends it behind `text`.
fn push_due(
    alloc: Global,
    request: TableRequest,
    text: &mut Vec<u8>,
    document: &toml::Table,
    tables: &Tables,
    index: &SessionIndex,
    now: Option<u64>,
) -> Result<(), AllocError>
    ensures { OnOk result
        (text.new.items ≡ text.old.items ++ (written_as request (keys_at (table_view document.now) tables.now) index.now
        ++ time_line request.form now)) }
{
    push_form(alloc, request, text, document, tables, index)?;
    push_end(text, request.form, now)
}

// Writes this text.
fn write_text<O: Sink>(text: &[u8], out: &mut O) -> Result<(), HearHalt>
    ensures { WritesText text.now (O.side out.old) (O.side out.new) result }
{
    match write_all(out, text) {
        Ok(()) => Ok(()),
        Err(Failed) => Err(HearHalt::Write),
    }
}

// Writes a table and the line that ends it.
fn write_table<O: Sink>(
    alloc: Global,
    request: TableRequest,
    document: &toml::Table,
    tables: &Tables,
    index: &SessionIndex,
    now: Option<u64>,
    out: &mut O,
) -> Result<(), HearHalt>
    ensures { WritesText (written_as request (keys_at (table_view document.now) tables.now) index.now
        ++ time_line request.form now) (O.side out.old) (O.side out.new) result }
{
    let mut text = Vec::new(alloc);
    match push_due(alloc, request, &mut text, document, tables, index, now) {
        Ok(()) => write_text(text.as_slice(), out),
        Err(_) => Err(HearHalt::Memory),
    }
}

/// Writes the table of what was counted, if one is due now.
pub(crate) fn write_due<O: Sink>(
    alloc: Global,
    request: TableRequest,
    document: &toml::Table,
    tables: &Tables,
    index: &SessionIndex,
    since: Option<u64>,
    now: Option<u64>,
    out: &mut O,
) -> Result<(), HearHalt>
    ensures { WritesText (due_table request (keys_at (table_view document.now) tables.now) index.now since now)
        (O.side out.old) (O.side out.new) result }
{
    if is_due(request.every, since, now) {
        write_table(alloc, request, document, tables, index, now, out)
    } else {
        Ok(())
    }
}
