//! The keys of a key file in JSON.
ghost use Rattle.std.specs.Prelude.{◌≡◌, ◌++◌, ◌∷◌, [], ℕ, IfOk, List, OnOk, Some, codes, decimal, false, option_map};
ghost use Rattle.std.specs.Prelude.{true};
ghost use Rattle.toml.specs.View.{table_view};
ghost use Rattle.page_sessions_json.specs.Json.{json_items, json_member};
ghost use Rattle.page_sessions_json.specs.SessionJson.{asked_for_json, key_json, keys_json, last_used_json};
ghost use Rattle.page_sessions_json.specs.SessionJson.{may_go_json, name_json, peers_json, rows_json};
ghost use Rattle.scope_keys.specs.KeyFiles.{keys_at};
ghost use Rattle.scope_sessions.specs.JsonParts.{from_members, id_members, node_members, seen_members, state_members};
ghost use Rattle.scope_sessions.specs.JsonParts.{told_members};

use crate::json_values::{push_address_text, push_comma, push_name, push_string, push_time};
use crate::users::{first_asking, last_carrying};
use ao_base::push_decimal;
use book_sessions::{KeyUse, MayGo};
use capture_listener::{Evidence, may_go, peers_told};
use key_table::{Row, Table, Tables};
use plan_texts::admin_name;
use std::alloc::{AllocError, Global};

// Puts the first members of a use of a row behind `out`: its time and its packet.
fn push_seen(alloc: Global, out: &mut Vec<u8>, last: &KeyUse) -> Result<(), AllocError>
    ensures { OnOk result (out.new.items ≡ out.old.items ++ 123 ∷ json_items true (seen_members last.now)) }
{
    push_name(out, b'{', b"at")?;
    push_time(alloc, out, last.last)?;
    push_name(out, b',', b"packet")?;
    push_decimal(out, last.packet)
}

// Puts the last members of a use of a row behind `out`: its session and its sender.
fn push_from(alloc: Global, out: &mut Vec<u8>, last: &KeyUse) -> Result<(), AllocError>
    ensures { OnOk result (out.new.items ≡ out.old.items ++ (json_items false (from_members last.now) ++ 125 ∷ [])) }
{
    push_name(out, b',', b"session")?;
    push_decimal(out, last.session)?;
    push_name(out, b',', b"from")?;
    push_address_text(alloc, out, &last.source.address)?;
    out.push(b'}')?;
    Ok(())
}

// Puts a use of a row behind `out`.
#[tactic(auto, unfolding(page_sessions_json::specs::SessionJson::last_used_json))]
fn push_used(alloc: Global, out: &mut Vec<u8>, last: &KeyUse) -> Result<(), AllocError>
    ensures { OnOk result (out.new.items ≡ out.old.items ++ last_used_json (Some last.now)) }
{
    push_seen(alloc, out, last)?;
    push_from(alloc, out, last)
}

#[tactic(auto, unfolding(page_sessions_json::specs::SessionJson::last_used_json))]
fn push_last(alloc: Global, out: &mut Vec<u8>, last: Option<KeyUse>) -> Result<(), AllocError>
    ensures { OnOk result (out.new.items ≡ out.old.items ++ last_used_json last) }
{
    match last {
        None => out.extend_from_slice(b"null"),
        Some(last) => push_used(alloc, out, &last),
    }
}

#[tactic(auto, unfolding(page_sessions_json::specs::SessionJson::asked_for_json))]
fn push_asking(alloc: Global, out: &mut Vec<u8>, asking: Option<KeyUse>) -> Result<(), AllocError>
    ensures { OnOk result (out.new.items ≡ out.old.items ++ asked_for_json asking) }
{
    match asking {
        None => out.extend_from_slice(b"null"),
        Some(asking) => {
            push_name(out, b'{', b"by")?;
            push_address_text(alloc, out, &asking.source.address)?;
            push_name(out, b',', b"session")?;
            push_decimal(out, asking.session)?;
            out.push(b'}')?;
            Ok(())
        }
    }
}

fn may_go_word(may: MayGo) -> &'static [u8]
    ensures { result.now ≡ may_go_json may }
{
    match may {
        MayGo::Yes => b"true",
        MayGo::No => b"false",
        MayGo::Unknown => b"null",
    }
}

// Puts what the operator calls a row behind `out`, or that it isn't named.
fn push_admin(out: &mut Vec<u8>, name: Option<&str>) -> Result<(), AllocError>
    ensures { OnOk result (out.new.items ≡ out.old.items ++ name_json (option_map (λ s. s.now) name.entry)) }
{
    match name {
        None => out.extend_from_slice(b"null"),
        Some(text) => push_string(out, text.as_bytes()),
    }
}

// Puts the first members of a row behind `out`: its node, its number, and what the operator calls it.
fn push_node(
    out: &mut Vec<u8>,
    document: &toml::Table,
    table: &Table,
    number: u8,
) -> Result<(), AllocError>
    ensures { OnOk result (out.new.items ≡ out.old.items ++ 123
        ∷ json_items true (node_members (table_view document.now) table.now number)) }
{
    push_name(out, b'{', b"node")?;
    push_string(out, table.name())?;
    push_name(out, b',', b"row")?;
    push_decimal(out, u64::from(number))?;
    push_name(out, b',', b"name")?;
    push_admin(out, admin_name(document, table.name(), number))
}

// Puts the next members of a row behind `out`: its ids.
fn push_ids(out: &mut Vec<u8>, row: &Row) -> Result<(), AllocError>
    ensures { OnOk result (out.new.items ≡ out.old.items ++ json_items false (id_members row.now)) }
{
    push_name(out, b',', b"send_id")?;
    push_decimal(out, u64::from(row.send_id()))?;
    push_name(out, b',', b"recv_id")?;
    push_decimal(out, u64::from(row.recv_id()))
}

// Puts the next members of a row behind `out`: who used it last, who asks for it, whether it may go.
fn push_state(
    alloc: Global,
    out: &mut Vec<u8>,
    last: Option<KeyUse>,
    asking: Option<KeyUse>,
    may: &[u8],
) -> Result<(), AllocError>
    ensures { OnOk result (out.new.items ≡ out.old.items ++ json_items false (state_members last asking may.now)) }
{
    push_name(out, b',', b"last_used")?;
    push_last(alloc, out, last)?;
    push_name(out, b',', b"asked_for")?;
    push_asking(alloc, out, asking)?;
    push_name(out, b',', b"may_go")?;
    out.extend_from_slice(may)
}

fn push_count(out: &mut Vec<u8>, peers: Option<u64>) -> Result<(), AllocError>
    ensures { OnOk result (out.new.items ≡ out.old.items ++ peers_json peers) }
{
    match peers {
        None => out.extend_from_slice(b"null"),
        Some(count) => push_decimal(out, count),
    }
}

// Puts how many peers were seen behind `out`, as the last member.
fn push_peers(out: &mut Vec<u8>, peers: Option<u64>) -> Result<(), AllocError>
    ensures { OnOk result
        (out.new.items ≡ out.old.items ++ (44 ∷ json_member (codes "peers_seen") (peers_json peers) ++ 125 ∷ [])) }
{
    push_name(out, b',', b"peers_seen")?;
    push_count(out, peers)?;
    out.push(b'}')?;
    Ok(())
}

// Puts the last members of a row behind `out`: what is told of it.
fn push_told(
    alloc: Global,
    out: &mut Vec<u8>,
    last: Option<KeyUse>,
    asking: Option<KeyUse>,
    may: &[u8],
    peers: Option<u64>,
) -> Result<(), AllocError>
    ensures { OnOk result
        (out.new.items ≡ out.old.items ++ (json_items false (told_members last asking may.now peers) ++ 125 ∷ [])) }
{
    push_state(alloc, out, last, asking, may)?;
    push_peers(out, peers)?;
    Ok(())
}

fn push_key(
    alloc: Global,
    out: &mut Vec<u8>,
    document: &toml::Table,
    evidence: &Evidence,
    tables: &Tables,
    table: &Table,
    row_number: u8,
    row: &Row,
) -> Result<(), AllocError>
    ensures { OnOk result (out.new.items ≡ out.old.items ++ key_json (keys_at (table_view document.now) tables.now)
        evidence.now table.now row_number row.now) }
{
    let number = u64::from(row_number);
    let last = last_carrying(evidence.uses(), table, number, row);
    let asked = first_asking(evidence, table, number, row);
    let may = may_go_word(may_go(evidence, tables, table, number, row));
    let peers = peers_told(alloc, evidence, table, row)?;
    push_node(out, document, table, row_number)?;
    push_ids(out, row)?;
    push_told(alloc, out, last, asked, may, peers)?;
    Ok(())
}

// Puts the rows of a node behind `out`, a comma between each two; behind others also one in front.
// Answers whether what follows is the first.
fn push_rows(
    alloc: Global,
    out: &mut Vec<u8>,
    first: bool,
    document: &toml::Table,
    evidence: &Evidence,
    tables: &Tables,
    table: &Table,
) -> Result<bool, AllocError>
    ensures { (others : List (List ℕ)) → IfOk result (λ still. out.new.items ++ json_items still others
        ≡ out.old.items ++ json_items first (rows_json (keys_at (table_view document.now) tables.now) evidence.now
        table.now 1 table.now.rows ++ others)) }
{
    // It tells that a table has at most 64 rows, so that each number fits.
    let _count = table.rows();
    let rows = table.entries();
    let mut still = first;
    for (i, row) in rows.iter().enumerate() {
        push_comma(out, still)?;
        push_key(
            alloc,
            out,
            document,
            evidence,
            tables,
            table,
            (i + 1) as u8,
            row,
        )?;
        still = false;
    }
    Ok(still)
}

/// Puts the rows of all nodes behind `out`, a comma between each two.
pub(crate) fn push_keys(
    alloc: Global,
    out: &mut Vec<u8>,
    document: &toml::Table,
    evidence: &Evidence,
    tables: &Tables,
) -> Result<(), AllocError>
    ensures { OnOk result (out.new.items ≡ out.old.items ++ json_items true
        (keys_json (keys_at (table_view document.now) tables.now) evidence.now)) }
{
    let mut first = true;
    for i in 0..tables.nodes() {
        let table = tables.node(i + 1);
        let still = push_rows(alloc, out, first, document, evidence, tables, table)?;
        first = still;
    }
    Ok(())
}
