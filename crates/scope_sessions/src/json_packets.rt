//! The packets of a capture in JSON.
ghost use Rattle.std.specs.Prelude.{◌≡◌, ◌++◌, ◌∷◌, [], OnOk, codes, decimal, map, true};
ghost use Rattle.book_sessions.specs.OutcomeTexts.{passed_text};
ghost use Rattle.page_sessions_json.specs.Json.{json_array, json_items, json_member, json_string};
ghost use Rattle.page_sessions_json.specs.SessionJson.{first_json, last_json, packets_json, passed_json};

use crate::json_values::{push_comma, push_name, push_string, push_time};
use crate::passed_texts::push_passed;
use crate::session_texts::earliest_seen;
use crate::table_text::{all_counted, all_passed};
use ao_base::push_decimal;
use book_sessions::{KeyUse, PassedCount, PassedOver};
use capture_listener::{SessionIndex, latest_seen};
use std::alloc::{AllocError, Global};

// Puts why packets are passed over behind `out`.
fn push_reason(alloc: Global, out: &mut Vec<u8>, why: PassedOver) -> Result<(), AllocError>
    ensures { OnOk result (out.new.items ≡ out.old.items ++ json_string (passed_text why)) }
{
    let mut text = Vec::new(alloc);
    push_passed(&mut text, why)?;
    push_string(out, text.as_slice())
}

#[tactic(auto, unfolding(page_sessions_json::specs::SessionJson::passed_json))]
fn push_count(alloc: Global, out: &mut Vec<u8>, count: &PassedCount) -> Result<(), AllocError>
    ensures { OnOk result (out.new.items ≡ out.old.items ++ passed_json count.now) }
{
    push_name(out, b'{', b"packets")?;
    push_decimal(out, count.packets)?;
    push_name(out, b',', b"reason")?;
    push_reason(alloc, out, count.why)?;
    out.push(b'}')?;
    Ok(())
}

fn push_counts(alloc: Global, out: &mut Vec<u8>, passed: &[PassedCount]) -> Result<(), AllocError>
    ensures { OnOk result (out.new.items ≡ out.old.items ++ json_items true (map passed_json passed.now)) }
{
    for (i, count) in passed.iter().enumerate() {
        push_comma(out, i == 0)?;
        push_count(alloc, out, count)?;
    }
    Ok(())
}

// Puts why packets are passed over, and how many, behind `out`.
fn push_reasons(alloc: Global, out: &mut Vec<u8>, passed: &[PassedCount]) -> Result<(), AllocError>
    ensures { OnOk result (out.new.items ≡ out.old.items ++ json_array (map passed_json passed.now)) }
{
    out.push(b'[')?;
    push_counts(alloc, out, passed)?;
    out.push(b']')?;
    Ok(())
}

// Puts when the first of these segments was seen behind `out`.
fn push_first(alloc: Global, out: &mut Vec<u8>, uses: &[KeyUse]) -> Result<(), AllocError>
    ensures { OnOk result (out.new.items ≡ out.old.items ++ first_json uses.now) }
{
    match uses {
        [] => out.extend_from_slice(b"null"),
        [first, others @ ..] => push_time(alloc, out, earliest_seen(first.first, others)),
    }
}

// Puts when the last of these segments was seen behind `out`.
fn push_last(alloc: Global, out: &mut Vec<u8>, uses: &[KeyUse]) -> Result<(), AllocError>
    ensures { OnOk result (out.new.items ≡ out.old.items ++ last_json uses.now) }
{
    match uses {
        [] => out.extend_from_slice(b"null"),
        [first, others @ ..] => push_time(alloc, out, latest_seen(first.last, others)),
    }
}

// Puts how many packets are segments, and from when to when these were seen, behind `out`.
fn push_seen(
    alloc: Global,
    out: &mut Vec<u8>,
    segments: u64,
    uses: &[KeyUse],
) -> Result<(), AllocError>
    ensures { OnOk result (out.new.items ≡ out.old.items ++ (123 ∷ json_member (codes "segments") (decimal segments)
        ++ (44 ∷ json_member (codes "first") (first_json uses.now)
        ++ (44 ∷ json_member (codes "last") (last_json uses.now))))) }
{
    push_name(out, b'{', b"segments")?;
    push_decimal(out, segments)?;
    push_name(out, b',', b"first")?;
    push_first(alloc, out, uses)?;
    push_name(out, b',', b"last")?;
    push_last(alloc, out, uses)
}

// Puts how many packets are no segments, and why, behind `out`.
fn push_others(
    alloc: Global,
    out: &mut Vec<u8>,
    others: u64,
    passed: &[PassedCount],
) -> Result<(), AllocError>
    ensures { OnOk result (out.new.items ≡ out.old.items ++ (44 ∷ json_member (codes "other") (decimal others)
        ++ (44 ∷ json_member (codes "reasons") (json_array (map passed_json passed.now))))) }
{
    push_name(out, b',', b"other")?;
    push_decimal(out, others)?;
    push_name(out, b',', b"reasons")?;
    push_reasons(alloc, out, passed)
}

// Puts how many segments have no header checksum behind `out`.
fn push_unset(out: &mut Vec<u8>, unset: u64) -> Result<(), AllocError>
    ensures { OnOk result (out.new.items ≡ out.old.items ++ (44 ∷ json_member (codes "ip_checksum") (decimal unset))) }
{
    push_name(out, b',', b"ip_checksum")?;
    push_decimal(out, unset)
}

/// Puts the packets of a capture behind `out`. An error for want of memory, or where more than
/// 2^64 - 1 are counted.
#[tactic(auto, unfolding(page_sessions_json::specs::SessionJson::packets_json))]
pub(crate) fn push_packets(
    alloc: Global,
    out: &mut Vec<u8>,
    index: &SessionIndex,
) -> Result<(), AllocError>
    ensures { OnOk result (out.new.items ≡ out.old.items ++ packets_json index.now) }
{
    let segments = all_counted(index.uses()).ok_or(AllocError)?;
    let others = all_passed(index.passed()).ok_or(AllocError)?;
    push_seen(alloc, out, segments, index.uses())?;
    push_others(alloc, out, others, index.passed())?;
    push_unset(out, index.unset())?;
    out.push(b'}')?;
    Ok(())
}
