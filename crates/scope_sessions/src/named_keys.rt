//! The lines of the keys that a word names, and whether all of them may go.
ghost use Rattle.std.specs.Prelude.{◌≡◌, ◌++◌, ◌∷◌, [], ◌||◌, IfOk, OnOk, option_map};
ghost use Rattle.std.specs.List.{list_all};
ghost use Rattle.toml.specs.View.{table_view};
ghost use Rattle.book_keys.specs.Columns.{is_word};
ghost use Rattle.book_sessions.specs.NamedKeys.{all_told, by_nodes, by_rows, is_named_so, is_yes, naming};
ghost use Rattle.book_sessions.specs.NamedKeys.{retire_answer, retire_answers, retire_line, retire_lines};
ghost use Rattle.book_sessions.specs.NamedKeys.{retire_status, retiring_of};
ghost use Rattle.book_sessions.specs.KeyLines.{key_line};
ghost use Rattle.book_sessions.specs.Retiring.{evidence_of, is_id, may_go};
ghost use Rattle.scope_keys.specs.KeyFiles.{keys_at};

use crate::key_texts::push_key;
use ao_base::read_decimal;
use book_sessions::{MayGo, Retiring};
use capture_listener::{Evidence, SessionIndex, may_go};
use key_table::{Row, Table, Tables};
use plan_texts::admin_name;
use std::alloc::{AllocError, Global};

fn is_called(word: &[u8], name: Option<&str>) -> bool
    ensures { result ≡ is_word word.now (option_map (λ s. s.now) name.entry) }
{
    match name {
        None => false,
        Some(name) => name.as_bytes() == word,
    }
}

fn is_id(id: Option<u64>, key_id: u8) -> bool
    ensures { result ≡ is_id id key_id }
{
    match id {
        None => false,
        Some(id) => id == u64::from(key_id),
    }
}

fn has_id(id: Option<u64>, row: &Row) -> bool
    ensures { result ≡ (is_id id row.now.send_id || is_id id row.now.recv_id) }
{
    is_id(id, row.send_id()) || is_id(id, row.recv_id())
}

// Whether the word is the name of the row, or a KeyID of it.
fn is_named_so(word: &[u8], document: &toml::Table, table: &Table, number: u8, row: &Row) -> bool
    ensures { result ≡ is_named_so word.now (table_view document.now) table.now number row.now }
{
    is_called(word, admin_name(document, table.name(), number)) || has_id(read_decimal(word), row)
}

// Puts the lines of the row behind `out`, and whether it may go behind `answers`.
fn push_row(
    alloc: Global,
    out: &mut Vec<u8>,
    answers: &mut Vec<MayGo>,
    document: &toml::Table,
    evidence: &Evidence,
    tables: &Tables,
    table: &Table,
    number: u8,
    row: &Row,
) -> Result<(), AllocError>
    ensures lines { OnOk result (out.new.items ≡ out.old.items
        ++ key_line (keys_at (table_view document.now) tables.now) evidence.now table.now number row.now) }
    ensures answers { OnOk result (answers.new.items ≡ answers.old.items
        ++ may_go evidence.now tables.now table.now number row.now ∷ []) }
{
    let may = may_go(evidence, tables, table, u64::from(number), row);
    push_key(alloc, out, document, evidence, tables, table, number, row)?;
    answers.push(may)?;
    Ok(())
}

// The same, if the word names the row.
fn push_named(
    alloc: Global,
    out: &mut Vec<u8>,
    answers: &mut Vec<MayGo>,
    word: &[u8],
    document: &toml::Table,
    evidence: &Evidence,
    tables: &Tables,
    table: &Table,
    number: u8,
    row: &Row,
) -> Result<(), AllocError>
    ensures lines { OnOk result (out.new.items ≡ out.old.items
        ++ retire_line (naming word.now (keys_at (table_view document.now) tables.now)) evidence.now table.now number
        row.now) }
    ensures answers { OnOk result (answers.new.items ≡ answers.old.items
        ++ retire_answer (naming word.now (keys_at (table_view document.now) tables.now)) evidence.now table.now number
        row.now) }
{
    if !is_named_so(word, document, table, number, row) {
        return Ok(());
    }
    push_row(
        alloc, out, answers, document, evidence, tables, table, number, row,
    )
}

fn push_rows(
    alloc: Global,
    out: &mut Vec<u8>,
    answers: &mut Vec<MayGo>,
    word: &[u8],
    document: &toml::Table,
    evidence: &Evidence,
    tables: &Tables,
    table: &Table,
) -> Result<(), AllocError>
    ensures lines { OnOk result (out.new.items ≡ out.old.items
        ++ by_rows (retire_line (naming word.now (keys_at (table_view document.now) tables.now)) evidence.now table.now)
        1 table.now.rows) }
    ensures answers { OnOk result (answers.new.items ≡ answers.old.items
        ++ by_rows (retire_answer (naming word.now (keys_at (table_view document.now) tables.now)) evidence.now
        table.now) 1 table.now.rows) }
{
    // It tells that a table has at most 64 rows, so that each number fits.
    let _count = table.rows();
    let rows = table.entries();
    for (i, row) in rows.iter().enumerate() {
        push_named(
            alloc,
            out,
            answers,
            word,
            document,
            evidence,
            tables,
            table,
            (i + 1) as u8,
            row,
        )?;
    }
    Ok(())
}

fn push_all_named(
    alloc: Global,
    out: &mut Vec<u8>,
    answers: &mut Vec<MayGo>,
    word: &[u8],
    document: &toml::Table,
    evidence: &Evidence,
    tables: &Tables,
) -> Result<(), AllocError>
    ensures lines { OnOk result (out.new.items ≡ out.old.items
        ++ retire_lines word.now (keys_at (table_view document.now) tables.now) evidence.now) }
    ensures answers { OnOk result (answers.new.items ≡ answers.old.items
        ++ retire_answers word.now (keys_at (table_view document.now) tables.now) evidence.now) }
{
    for i in 0..tables.nodes() {
        let table = tables.node(i + 1);
        push_rows(alloc, out, answers, word, document, evidence, tables, table)?;
    }
    Ok(())
}

fn is_yes(may: MayGo) -> bool
    ensures { result ≡ is_yes may }
{
    match may {
        MayGo::Yes => true,
        MayGo::No => false,
        MayGo::Unknown => false,
    }
}

fn are_yes(answers: &[MayGo]) -> bool
    ensures { result ≡ list_all is_yes answers.now }
{
    answers.iter().all(|may| is_yes(*may))
}

fn all_told(answers: &[MayGo]) -> Retiring
    ensures { result ≡ all_told answers.now }
{
    match answers {
        [] => Retiring::NoSuchRow,
        [_first, _others @ ..] => {
            if are_yes(answers) {
                Retiring::Yes
            } else {
                Retiring::NotYes
            }
        }
    }
}

/// Puts the lines of the rows that the word names behind `out`, and answers whether all of them may go. An error for
/// want of memory alone; then a part of the lines may stand there.
pub(crate) fn push_retiring(
    alloc: Global,
    out: &mut Vec<u8>,
    word: &[u8],
    document: &toml::Table,
    tables: &Tables,
    index: &SessionIndex,
) -> Result<Retiring, AllocError>
    ensures lines { OnOk result (out.new.items ≡ out.old.items
        ++ retire_lines word.now (keys_at (table_view document.now) tables.now) (evidence_of index.now)) }
    ensures told { IfOk result (λ told. told ≡ retiring_of word.now (keys_at (table_view document.now) tables.now)
        (evidence_of index.now)) }
{
    let evidence = Evidence::of(alloc, index)?;
    let mut answers = Vec::new(alloc);
    push_all_named(alloc, out, &mut answers, word, document, &evidence, tables)?;
    Ok(all_told(answers.as_slice()))
}

/// The status of what is told of the rows that a word names: 0 exactly where there are some, and all of them may go; 1
/// where one may not, or isn't known to; 2 where there are none.
pub fn retire_status(retiring: Retiring) -> u8
    ensures { result ≡ retire_status retiring }
{
    match retiring {
        Retiring::Yes => 0,
        Retiring::NotYes => 1,
        Retiring::NoSuchRow => 2,
    }
}
