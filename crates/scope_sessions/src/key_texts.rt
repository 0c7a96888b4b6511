//! The lines of the keys of a key file.
ghost use Rattle.std.specs.Prelude.{◌≡◌, ◌++◌, ◌∷◌, [], OnOk, Some, codes, decimal};
ghost use Rattle.toml.specs.View.{table_view};
ghost use Rattle.book_lines.specs.Texts.{spaced};
ghost use Rattle.book_scope_texts.specs.Addresses.{usual_address_text};
ghost use Rattle.book_scope_texts.specs.Instants.{instant_text};
ghost use Rattle.scope_keys.specs.KeyFiles.{keys_at};
ghost use Rattle.scope_sessions.specs.KeyRows.{found_line};
ghost use Rattle.book_sessions.specs.KeyLines.{asking_texts, called_row, key_line, key_lines, keys_lines, last_texts};
ghost use Rattle.book_sessions.specs.KeyLines.{may_go_text, peers_word, seen_peers_text};

use crate::obstacles::push_obstacles;
use crate::session_texts::{push_host, push_time};
use crate::users::{first_asking, last_carrying};
use book_sessions::{KeyUse, MayGo};
use capture_listener::{Evidence, may_go, peers_told};
use key_table::{Row, Table, Tables};
use plan_texts::{admin_name, push_admin};
use std::alloc::{AllocError, Global};
use text_lines::{push_field, push_newline, push_number, push_text};

// Puts the time and the packet of the last use of a row behind `out`.
fn push_seen(out: &mut Vec<u8>, last: &KeyUse) -> Result<(), AllocError>
    ensures { OnOk result (out.new.items ≡ out.old.items ++ spaced (codes "last used" ∷ instant_text last.now.last
        ∷ codes "packet" ∷ decimal last.now.packet ∷ [])) }
{
    push_text(out, b"last used")?;
    push_time(out, last.last)?;
    push_field(out, b"packet", last.packet)
}

// Puts the session and the sender of the last use of a row behind `out`.
fn push_from(out: &mut Vec<u8>, last: &KeyUse) -> Result<(), AllocError>
    ensures { OnOk result (out.new.items ≡ out.old.items ++ spaced (codes "session" ∷ decimal last.now.session
        ∷ codes "from" ∷ usual_address_text last.now.source.address ∷ [])) }
{
    push_field(out, b"session", last.session)?;
    push_text(out, b"from")?;
    push_host(out, &last.source.address)
}

// Puts the last use of a row behind `out`.
fn push_used(out: &mut Vec<u8>, last: &KeyUse) -> Result<(), AllocError>
    ensures { OnOk result (out.new.items ≡ out.old.items ++ spaced (last_texts (Some last.now) [])) }
{
    push_seen(out, last)?;
    push_from(out, last)
}

fn push_last(out: &mut Vec<u8>, last: Option<KeyUse>) -> Result<(), AllocError>
    ensures { OnOk result (out.new.items ≡ out.old.items ++ spaced (last_texts last [])) }
{
    match last {
        None => push_text(out, b"never used"),
        Some(last) => push_used(out, &last),
    }
}

fn push_asking(out: &mut Vec<u8>, asking: Option<KeyUse>) -> Result<(), AllocError>
    ensures { OnOk result (out.new.items ≡ out.old.items ++ spaced (asking_texts asking [])) }
{
    match asking {
        None => push_text(out, b"asked for by nobody"),
        Some(asking) => {
            push_text(out, b"asked for by")?;
            push_host(out, &asking.source.address)?;
            push_field(out, b"session", asking.session)
        }
    }
}

fn may_go_word(may: MayGo) -> &'static [u8]
    ensures { result.now ≡ may_go_text may }
{
    match may {
        MayGo::Yes => b"may go yes",
        MayGo::No => b"may go no",
        MayGo::Unknown => b"may go unknown",
    }
}

fn peers_word(count: u64) -> &'static [u8]
    ensures { result.now ≡ peers_word count }
{
    if count == 1 {
        b"peer seen"
    } else {
        b"peers seen"
    }
}

// Puts behind `out` how many peers were seen, if the row is for any.
fn push_peers(out: &mut Vec<u8>, peers: Option<u64>) -> Result<(), AllocError>
    ensures { OnOk result (out.new.items ≡ out.old.items ++ spaced (seen_peers_text peers)) }
{
    match peers {
        None => Ok(()),
        Some(count) => {
            push_field(out, b"of the", count)?;
            push_text(out, peers_word(count))
        }
    }
}

// Puts a space behind `out`, the name of a node, and what the document calls its row of this number.
fn push_called(
    out: &mut Vec<u8>,
    document: &toml::Table,
    table: &Table,
    number: u8,
) -> Result<(), AllocError>
    ensures { OnOk result (out.new.items ≡ out.old.items ++ 32
        ∷ called_row (table_view document.now) table.now number) }
{
    push_text(out, table.name())?;
    push_admin(out, admin_name(document, table.name(), number))
}

// Puts the ids of a row behind `out`.
fn push_ids(out: &mut Vec<u8>, row: &Row) -> Result<(), AllocError>
    ensures { OnOk result (out.new.items ≡ out.old.items
        ++ spaced (codes "send-id" ∷ decimal row.now.send_id ∷ codes "recv-id" ∷ decimal row.now.recv_id ∷ [])) }
{
    push_field(out, b"send-id", u64::from(row.send_id()))?;
    push_field(out, b"recv-id", u64::from(row.recv_id()))
}

// Puts the front of the line of a row behind `out`: its number, its node, its name and its ids.
fn push_row(
    out: &mut Vec<u8>,
    document: &toml::Table,
    table: &Table,
    number: u8,
    row: &Row,
) -> Result<(), AllocError>
    ensures { OnOk result (out.new.items ≡ out.old.items ++ (codes "key" ++ spaced (decimal number ∷ codes "of"
        ∷ called_row (table_view document.now) table.now number
        ∷ codes "send-id" ∷ decimal row.now.send_id ∷ codes "recv-id" ∷ decimal row.now.recv_id ∷ []))) }
{
    out.extend_from_slice(b"key")?;
    push_number(out, u64::from(number))?;
    push_text(out, b"of")?;
    push_called(out, document, table, number)?;
    push_ids(out, row)
}

// Puts the end of the line of a row behind `out`: who used it last, who asks for it, whether it may go, and
// of how many peers that holds.
fn push_state(
    out: &mut Vec<u8>,
    last: Option<KeyUse>,
    asking: Option<KeyUse>,
    may: &[u8],
    peers: Option<u64>,
) -> Result<(), AllocError>
    ensures { OnOk result
        (out.new.items ≡ out.old.items
        ++ (spaced (last_texts last (asking_texts asking (may.now ∷ seen_peers_text peers))) ++ 10 ∷ [])) }
{
    push_last(out, last)?;
    push_asking(out, asking)?;
    push_text(out, may)?;
    push_peers(out, peers)?;
    push_newline(out)?;
    Ok(())
}

// Puts the line of a row behind `out`, of which this was found.
fn push_found(
    out: &mut Vec<u8>,
    document: &toml::Table,
    table: &Table,
    number: u8,
    row: &Row,
    last: Option<KeyUse>,
    asking: Option<KeyUse>,
    may: MayGo,
    peers: Option<u64>,
) -> Result<(), AllocError>
    ensures { OnOk result (out.new.items ≡ out.old.items ++ found_line (table_view document.now) table.now number
        row.now last asking may peers) }
{
    push_row(out, document, table, number, row)?;
    push_state(out, last, asking, may_go_word(may), peers)
}

/// Puts the line of a row behind `out`, and the lines of all that stands in its way.
pub(crate) fn push_key(
    alloc: Global,
    out: &mut Vec<u8>,
    document: &toml::Table,
    evidence: &Evidence,
    tables: &Tables,
    table: &Table,
    row_number: u8,
    row: &Row,
) -> Result<(), AllocError>
    ensures { OnOk result (out.new.items ≡ out.old.items ++ key_line (keys_at (table_view document.now) tables.now)
        evidence.now table.now row_number row.now) }
{
    let number = u64::from(row_number);
    let last = last_carrying(evidence.uses(), table, number, row);
    let asked = first_asking(evidence, table, number, row);
    let may = may_go(evidence, tables, table, number, row);
    let peers = peers_told(alloc, evidence, table, row)?;
    push_found(
        out, document, table, row_number, row, last, asked, may, peers,
    )?;
    push_obstacles(out, evidence, tables, table, number, row)
}

fn push_rows(
    alloc: Global,
    out: &mut Vec<u8>,
    document: &toml::Table,
    evidence: &Evidence,
    tables: &Tables,
    table: &Table,
) -> Result<(), AllocError>
    ensures { OnOk result (out.new.items ≡ out.old.items ++ key_lines (keys_at (table_view document.now) tables.now)
        evidence.now table.now 1 table.now.rows) }
{
    // It tells that a table has at most 64 rows, so that each number fits.
    let _count = table.rows();
    let rows = table.entries();
    for (i, row) in rows.iter().enumerate() {
        push_key(
            alloc,
            out,
            document,
            evidence,
            tables,
            table,
            (i + 1) as u8,
            row,
        )?;
    }
    Ok(())
}

/// Puts the lines of the rows of all nodes behind `out`.
pub(crate) fn push_keys(
    alloc: Global,
    out: &mut Vec<u8>,
    document: &toml::Table,
    evidence: &Evidence,
    tables: &Tables,
) -> Result<(), AllocError>
    ensures { OnOk result (out.new.items ≡ out.old.items ++ keys_lines (keys_at (table_view document.now) tables.now)
        evidence.now) }
{
    for i in 0..tables.nodes() {
        let table = tables.node(i + 1);
        push_rows(alloc, out, document, evidence, tables, table)?;
    }
    Ok(())
}
