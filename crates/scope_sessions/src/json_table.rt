//! The whole table in JSON.
ghost use Rattle.std.specs.Prelude.{◌≡◌, ◌++◌, ◌∷◌, [], OnOk, codes, decimal, map};
ghost use Rattle.toml.specs.View.{table_view};
ghost use Rattle.book_sessions.specs.Retiring.{evidence_of};
ghost use Rattle.page_sessions_json.specs.Json.{json_array, json_bool, json_member, json_object};
ghost use Rattle.page_sessions_json.specs.SessionJson.{foreign_json, keys_json, packets_json, session_json};
ghost use Rattle.page_sessions_json.specs.SessionJson.{sessions_json};
ghost use Rattle.scope_keys.specs.KeyFiles.{keys_at};

use crate::foreign::{Numbers, numbers_of, segments_of};
use crate::json_keys::push_keys;
use crate::json_packets::push_packets;
use crate::json_sessions::push_sessions;
use crate::json_values::{push_bool, push_name};
use crate::table_text::has_amiss;
use ao_base::push_decimal;
use capture_listener::{Evidence, SessionIndex};
use key_table::Tables;
use std::alloc::{AllocError, Global};

fn push_counts(out: &mut Vec<u8>, sessions: u64, segments: u64) -> Result<(), AllocError>
    ensures { OnOk result (out.new.items ≡ out.old.items ++ json_object
        (json_member (codes "sessions") (decimal sessions)
        ∷ json_member (codes "segments") (decimal segments) ∷ [])) }
{
    push_name(out, b'{', b"sessions")?;
    push_decimal(out, sessions)?;
    push_name(out, b',', b"segments")?;
    push_decimal(out, segments)?;
    out.push(b'}')?;
    Ok(())
}

// Puts how many sessions are foreign behind `out`, of these numbers, and how many segments they have.
#[tactic(auto, unfolding(page_sessions_json::specs::SessionJson::foreign_json))]
fn push_foreign(
    alloc: Global,
    out: &mut Vec<u8>,
    index: &SessionIndex,
    numbers: &[u64],
) -> Result<(), AllocError>
    ensures { OnOk result (out.new.items ≡ out.old.items ++ foreign_json index.now.uses numbers.now) }
{
    let segments = segments_of(alloc, index, numbers)?;
    push_counts(out, numbers.len() as u64, segments)
}

// Puts how many sessions are foreign behind `out`, as a member.
fn push_all_foreign(
    alloc: Global,
    out: &mut Vec<u8>,
    index: &SessionIndex,
    numbers: &[u64],
) -> Result<(), AllocError>
    ensures { OnOk result
        (out.new.items ≡ out.old.items
        ++ (44 ∷ json_member (codes "foreign") (foreign_json index.now.uses numbers.now))) }
{
    push_name(out, b',', b"foreign")?;
    push_foreign(alloc, out, index, numbers)
}

// Puts the sessions of these numbers behind `out`, as a member.
fn push_all_sessions(
    alloc: Global,
    out: &mut Vec<u8>,
    index: &SessionIndex,
    numbers: &[u64],
) -> Result<(), AllocError>
    ensures { OnOk result
        (out.new.items ≡ out.old.items
        ++ (44 ∷ json_member (codes "sessions") (json_array (map (session_json index.now.uses) numbers.now)))) }
{
    push_name(out, b',', b"sessions")?;
    out.push(b'[')?;
    push_sessions(alloc, out, index, numbers)?;
    out.push(b']')?;
    Ok(())
}

// Puts what is told of foreign sessions behind `out`, and the sessions that are listed, as members.
fn push_told(
    alloc: Global,
    out: &mut Vec<u8>,
    index: &SessionIndex,
    numbers: &Numbers,
) -> Result<(), AllocError>
    ensures { OnOk result
        (out.new.items ≡ out.old.items
        ++ (44 ∷ json_member (codes "foreign") (foreign_json index.now.uses numbers.now.foreign.items)
        ++ (44 ∷ json_member (codes "sessions")
        (json_array (map (session_json index.now.uses) numbers.now.listed.items))))) }
{
    push_all_foreign(alloc, out, index, numbers.foreign.as_slice())?;
    push_all_sessions(alloc, out, index, numbers.listed.as_slice())
}

// Puts the rows of all nodes behind `out`, as a member.
fn push_all_keys(
    alloc: Global,
    out: &mut Vec<u8>,
    document: &toml::Table,
    index: &SessionIndex,
    tables: &Tables,
) -> Result<(), AllocError>
    ensures { OnOk result
        (out.new.items ≡ out.old.items
        ++ (44 ∷ json_member (codes "keys")
        (json_array (keys_json (keys_at (table_view document.now) tables.now) (evidence_of index.now))))) }
{
    let evidence = Evidence::of(alloc, index)?;
    push_name(out, b',', b"keys")?;
    out.push(b'[')?;
    push_keys(alloc, out, document, &evidence, tables)?;
    out.push(b']')?;
    Ok(())
}

// Puts whether anything is amiss behind `out`, as the last member.
fn push_amiss(out: &mut Vec<u8>, amiss: bool) -> Result<(), AllocError>
    ensures { OnOk result
        (out.new.items ≡ out.old.items ++ (44 ∷ json_member (codes "amiss") (json_bool amiss) ++ 125 ∷ 10 ∷ [])) }
{
    push_name(out, b',', b"amiss")?;
    push_bool(out, amiss)?;
    out.extend_from_slice(b"}\n")
}

/// Puts a table in JSON behind `out`, with the keys of these tables. An error for want of memory, or
/// where more than 2^64 - 1 packets are counted; then a part of it may stand there.
#[tactic(auto, unfolding(page_sessions_json::specs::SessionJson::sessions_json))]
pub(crate) fn push_json(
    alloc: Global,
    all: bool,
    out: &mut Vec<u8>,
    document: &toml::Table,
    tables: &Tables,
    index: &SessionIndex,
) -> Result<(), AllocError>
    ensures { OnOk result (out.new.items ≡ out.old.items ++ sessions_json all
        (keys_at (table_view document.now) tables.now) index.now) }
{
    let numbers = numbers_of(alloc, all, tables, index)?;
    let amiss = has_amiss(alloc, tables, index)?;
    push_name(out, b'{', b"packets")?;
    push_packets(alloc, out, index)?;
    push_told(alloc, out, index, &numbers)?;
    push_all_keys(alloc, out, document, index, tables)?;
    push_amiss(out, amiss)
}
