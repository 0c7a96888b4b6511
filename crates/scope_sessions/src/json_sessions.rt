//! The sessions of a capture in JSON.
ghost use Rattle.std.specs.Prelude.{◌≡◌, ◌++◌, ◌∷◌, [], IfOk, List, OnOk, codes, decimal, false, filter, map, true};
ghost use Rattle.std.specs.List.{find, list_any};
ghost use Rattle.book_sessions.specs.declared.uses.KeyUse.{KeyUse as Use};
ghost use Rattle.book_sessions.specs.SessionTexts.{is_of_session, opens_session};
ghost use Rattle.page_sessions_json.specs.Json.{json_array, json_bool, json_items, json_member};
ghost use Rattle.page_sessions_json.specs.SessionJson.{end_json, heading_json, protection_word, sender_place};
ghost use Rattle.page_sessions_json.specs.SessionJson.{session_json, use_json, uses_json};
ghost use Rattle.scope_sessions.specs.JsonParts.{asked_members, late_members, sender_members, span_members};

use crate::json_values::{
    push_address_text, push_bool, push_comma, push_id, push_name, push_string, push_time,
};
use crate::session_texts::{first_of, is_of_session, is_opened};
use ao_base::{is_same_socket, push_decimal};
use book_base::Socket;
use book_sessions::{KeyUse, Protection};
use capture_listener::{SessionIndex, outcome_word};
use std::alloc::{AllocError, Global};

#[tactic(auto, unfolding(page_sessions_json::specs::SessionJson::end_json))]
fn push_end(alloc: Global, out: &mut Vec<u8>, socket: &Socket) -> Result<(), AllocError>
    ensures { OnOk result (out.new.items ≡ out.old.items ++ end_json socket.now) }
{
    push_name(out, b'{', b"address")?;
    push_address_text(alloc, out, &socket.address)?;
    push_name(out, b',', b"port")?;
    push_decimal(out, u64::from(socket.port))?;
    out.push(b'}')?;
    Ok(())
}

fn push_ends(alloc: Global, out: &mut Vec<u8>, first: &KeyUse) -> Result<(), AllocError>
    ensures { OnOk result (out.new.items ≡ out.old.items ++ json_array
        (end_json first.now.source ∷ end_json first.now.destination ∷ [])) }
{
    out.push(b'[')?;
    push_end(alloc, out, &first.source)?;
    out.push(b',')?;
    push_end(alloc, out, &first.destination)?;
    out.push(b']')?;
    Ok(())
}

fn sender_place(heading: &KeyUse, one: &KeyUse) -> u64
    ensures { result ≡ sender_place heading.now one.now }
{
    if is_same_socket(&one.source, &heading.source) {
        0
    } else {
        1
    }
}

fn protection_word(protection: Protection) -> &'static [u8]
    ensures { result.now ≡ protection_word protection }
{
    match protection {
        Protection::Ao => b"ao",
        Protection::Md5 => b"md5",
        Protection::Plain => b"plain",
        Protection::Unclear => b"unclear",
    }
}

// Puts the first members of segments behind `out`: who sent them, under which KeyID, and how they are
// protected.
fn push_sender(out: &mut Vec<u8>, heading: &KeyUse, one: &KeyUse) -> Result<(), AllocError>
    ensures { OnOk result (out.new.items ≡ out.old.items ++ 123
        ∷ json_items true (sender_members heading.now one.now)) }
{
    push_name(out, b'{', b"sender")?;
    push_decimal(out, sender_place(heading, one))?;
    push_name(out, b',', b"key_id")?;
    push_id(out, one.key_id)?;
    push_name(out, b',', b"protection")?;
    push_string(out, protection_word(one.protection))
}

// Puts the next members of segments behind `out`: what is said of them, how many they are, and when the first
// was seen.
fn push_span(alloc: Global, out: &mut Vec<u8>, one: &KeyUse) -> Result<(), AllocError>
    ensures { OnOk result (out.new.items ≡ out.old.items ++ json_items false (span_members one.now)) }
{
    push_name(out, b',', b"outcome")?;
    push_string(out, outcome_word(one.outcome))?;
    push_name(out, b',', b"segments")?;
    push_decimal(out, one.segments)?;
    push_name(out, b',', b"first")?;
    push_time(alloc, out, one.first)
}

// Puts when the last of segments was seen, and what they ask for, behind `out`.
fn push_late(alloc: Global, out: &mut Vec<u8>, one: &KeyUse) -> Result<(), AllocError>
    ensures { OnOk result (out.new.items ≡ out.old.items ++ json_items false (late_members one.now)) }
{
    push_name(out, b',', b"last")?;
    push_time(alloc, out, one.last)?;
    push_name(out, b',', b"asks")?;
    push_id(out, one.asked)
}

// Puts the last packet of segments behind `out`, as the last member.
fn push_packet(out: &mut Vec<u8>, packet: u64) -> Result<(), AllocError>
    ensures { OnOk result
        (out.new.items ≡ out.old.items ++ (44 ∷ json_member (codes "packet") (decimal packet) ++ 125 ∷ [])) }
{
    push_name(out, b',', b"packet")?;
    push_decimal(out, packet)?;
    out.push(b'}')?;
    Ok(())
}

// Puts the last members of segments behind `out`: when the last was seen, what they ask for, and the last
// packet.
fn push_asked(alloc: Global, out: &mut Vec<u8>, one: &KeyUse) -> Result<(), AllocError>
    ensures { OnOk result (out.new.items ≡ out.old.items ++ (json_items false (asked_members one.now) ++ 125 ∷ [])) }
{
    push_late(alloc, out, one)?;
    push_packet(out, one.packet)
}

fn push_use(
    alloc: Global,
    out: &mut Vec<u8>,
    heading: &KeyUse,
    one: &KeyUse,
) -> Result<(), AllocError>
    ensures { OnOk result (out.new.items ≡ out.old.items ++ use_json heading.now one.now) }
{
    push_sender(out, heading, one)?;
    push_span(alloc, out, one)?;
    push_asked(alloc, out, one)?;
    Ok(())
}

// Puts segments behind `out`, if they are of the session of this number, with what stands in front;
// answers whether what follows is the first.
fn push_use_in(
    alloc: Global,
    out: &mut Vec<u8>,
    first: bool,
    number: u64,
    heading: &KeyUse,
    one: &KeyUse,
) -> Result<bool, AllocError>
    ensures { (others : List Use)
        → IfOk result (λ still. out.new.items ++ json_items still
        (map (use_json heading.now) (filter (is_of_session number) others))
        ≡ out.old.items ++ json_items first (map (use_json heading.now)
        (filter (is_of_session number) (one.now ∷ others)))) }
{
    if is_of_session(number, one) {
        push_comma(out, first)?;
        push_use(alloc, out, heading, one)?;
        return Ok(false);
    }
    Ok(first)
}

fn push_uses(
    alloc: Global,
    out: &mut Vec<u8>,
    number: u64,
    heading: &KeyUse,
    uses: &[KeyUse],
) -> Result<(), AllocError>
    ensures { OnOk result (out.new.items ≡ out.old.items ++ json_items true
        (map (use_json heading.now) (filter (is_of_session number) uses.now))) }
{
    let mut first = true;
    for one in uses {
        first = push_use_in(alloc, out, first, number, heading, one)?;
    }
    Ok(())
}

// Puts the front of the object of a session behind `out`: its number, its ends and whether its handshake
// was seen.
fn push_heading(
    alloc: Global,
    out: &mut Vec<u8>,
    number: u64,
    seen: bool,
    first: &KeyUse,
) -> Result<(), AllocError>
    ensures { OnOk result (out.new.items ≡ out.old.items ++ (123 ∷ json_member (codes "number") (decimal number)
        ++ (44 ∷ json_member (codes "ends")
        (json_array (end_json first.now.source ∷ end_json first.now.destination ∷ []))
        ++ (44 ∷ json_member (codes "handshake_seen") (json_bool seen))))) }
{
    push_name(out, b'{', b"number")?;
    push_decimal(out, number)?;
    push_name(out, b',', b"ends")?;
    push_ends(alloc, out, first)?;
    push_name(out, b',', b"handshake_seen")?;
    push_bool(out, seen)
}

// Puts the segments of the session of this number behind `out`.
fn push_directions(
    alloc: Global,
    out: &mut Vec<u8>,
    number: u64,
    heading: &KeyUse,
    uses: &[KeyUse],
) -> Result<(), AllocError>
    ensures { OnOk result
        (out.new.items ≡ out.old.items ++ (44 ∷ json_member (codes "directions") (uses_json number heading.now uses.now)
        ++ 125 ∷ [])) }
{
    push_name(out, b',', b"directions")?;
    out.push(b'[')?;
    push_uses(alloc, out, number, heading, uses)?;
    out.push(b']')?;
    out.push(b'}')?;
    Ok(())
}

#[tactic(auto, unfolding(page_sessions_json::specs::SessionJson::heading_json))]
fn push_session(
    alloc: Global,
    out: &mut Vec<u8>,
    number: u64,
    uses: &[KeyUse],
) -> Result<(), AllocError>
    ensures { OnOk result (out.new.items ≡ out.old.items ++ session_json uses.now number) }
{
    match first_of(number, uses) {
        None => out.extend_from_slice(b"null"),
        Some(heading) => {
            push_heading(alloc, out, number, is_opened(number, uses), &heading)?;
            push_directions(alloc, out, number, &heading, uses)
        }
    }
}

// Puts the session of this number behind `out`, by its own segments.
fn push_own(
    alloc: Global,
    out: &mut Vec<u8>,
    index: &SessionIndex,
    number: u64,
) -> Result<(), AllocError>
    ensures { OnOk result (out.new.items ≡ out.old.items ++ session_json index.now.uses number) }
{
    let own = index.uses_of(alloc, number)?;
    push_session(alloc, out, number, own.as_slice())
}

/// Puts the sessions of these numbers behind `out`, a comma between each two.
pub(crate) fn push_sessions(
    alloc: Global,
    out: &mut Vec<u8>,
    index: &SessionIndex,
    numbers: &[u64],
) -> Result<(), AllocError>
    ensures { OnOk result (out.new.items ≡ out.old.items ++ json_items true
        (map (session_json index.now.uses) numbers.now)) }
{
    let mut first = true;
    for number in numbers {
        push_comma(out, first)?;
        push_own(alloc, out, index, *number)?;
        first = false;
    }
    Ok(())
}
