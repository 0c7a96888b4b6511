//! The lines of a capture and of sessions.
ghost use Rattle.std.specs.Prelude.{◌≡◌, ◌++◌, ◌∷◌, [], ◌==◌, ◌&&◌, List, OnOk, IfSome, cond, Some, None, codes};
ghost use Rattle.std.specs.Prelude.{decimal};
ghost use Rattle.std.specs.List.{find, flat_map, list_any};
ghost use Rattle.book_lines.specs.Texts.{spaced};
ghost use Rattle.book_scope_texts.specs.Addresses.{usual_address_text};
ghost use Rattle.book_scope_texts.specs.Instants.{instant_text};
ghost use Rattle.book_sessions.specs.SessionTexts.{capture_line, earliest_seen, heading_line, id_text, is_of_session};
ghost use Rattle.book_sessions.specs.SessionTexts.{lines_of_session, opens_session, protection_text, seen_text};
ghost use Rattle.book_sessions.specs.SessionTexts.{span_texts, use_line, use_line_in};

use book_base::{Address, Socket};
use book_sessions::{KeyUse, Protection};
use capture_listener::{SessionIndex, is_verified, latest_seen, outcome_word};
use scope_texts::{push_address, push_instant};
use std::alloc::{AllocError, Global};
use text_lines::{push_field, push_newline, push_number, push_text};

/// Puts a space and the address behind `out`. Where memory runs out a part of it may stand there.
pub fn push_host(out: &mut Vec<u8>, address: &Address) -> Result<(), AllocError>
    ensures { OnOk result (out.new.items ≡ out.old.items ++ 32 ∷ usual_address_text address.now) }
{
    out.push(b' ')?;
    push_address(out, address)
}

/// Puts a space and the time, in seconds since 1970, behind `out`. Where memory runs out a part of it may stand there.
pub fn push_time(out: &mut Vec<u8>, seconds: u64) -> Result<(), AllocError>
    ensures { OnOk result (out.new.items ≡ out.old.items ++ 32 ∷ instant_text seconds) }
{
    out.push(b' ')?;
    push_instant(out, seconds)
}

// Puts a space and the KeyID behind `out`, or a dash where there is none.
fn push_id(out: &mut Vec<u8>, id: Option<u8>) -> Result<(), AllocError>
    ensures { OnOk result (out.new.items ≡ out.old.items ++ 32 ∷ id_text id) }
{
    match id {
        None => push_text(out, b"-"),
        Some(id) => push_number(out, u64::from(id)),
    }
}

// Puts the address and the port behind `out`, with a space in front of each.
fn push_end(out: &mut Vec<u8>, socket: &Socket) -> Result<(), AllocError>
    ensures { OnOk result (out.new.items ≡ out.old.items ++ spaced
        (usual_address_text socket.now.address ∷ decimal socket.now.port ∷ [])) }
{
    push_host(out, &socket.address)?;
    push_number(out, u64::from(socket.port))
}

pub(crate) fn earliest_seen(time: u64, uses: &[KeyUse]) -> u64
    ensures { result ≡ earliest_seen time uses.now }
{
    let mut earliest = time;
    for one in uses {
        earliest = earliest.min(one.first);
    }
    earliest
}

// Puts from when to when segments were seen behind `out`.
fn push_span(out: &mut Vec<u8>, uses: &[KeyUse]) -> Result<(), AllocError>
    ensures { OnOk result (out.new.items ≡ out.old.items ++ spaced (span_texts uses.now)) }
{
    match uses {
        [] => Ok(()),
        [first, others @ ..] => {
            push_text(out, b"from")?;
            push_time(out, earliest_seen(first.first, others))?;
            push_text(out, b"to")?;
            push_time(out, latest_seen(first.last, others))
        }
    }
}

// Puts the front of the line of a capture behind `out`: how many packets it has.
fn push_packets(out: &mut Vec<u8>, segments: u64, others: u64) -> Result<(), AllocError>
    ensures { OnOk result
        (out.new.items ≡ out.old.items ++ (codes "capture" ++ spaced (codes "segments" ∷ decimal segments
        ∷ codes "other" ∷ decimal others ∷ []))) }
{
    out.extend_from_slice(b"capture")?;
    push_field(out, b"segments", segments)?;
    push_field(out, b"other", others)
}

// Puts the end of the line of a capture behind `out`: from when to when segments were seen.
fn push_times(out: &mut Vec<u8>, uses: &[KeyUse]) -> Result<(), AllocError>
    ensures { OnOk result (out.new.items ≡ out.old.items ++ (spaced (span_texts uses.now) ++ 10 ∷ [])) }
{
    push_span(out, uses)?;
    push_newline(out)
}

/// Puts the line of a capture behind `out`.
pub(crate) fn push_capture(
    out: &mut Vec<u8>,
    segments: u64,
    others: u64,
    uses: &[KeyUse],
) -> Result<(), AllocError>
    ensures { OnOk result (out.new.items ≡ out.old.items ++ capture_line segments others uses.now) }
{
    push_packets(out, segments, others)?;
    push_times(out, uses)
}

pub(crate) fn is_of_session(number: u64, one: &KeyUse) -> bool
    ensures { result ≡ is_of_session number one.now }
{
    one.session == number
}

fn opens_session(number: u64, one: &KeyUse) -> bool
    ensures { result ≡ opens_session number one.now }
{
    is_of_session(number, one) && (one.opens && is_verified(one.outcome))
}

pub(crate) fn is_opened(number: u64, uses: &[KeyUse]) -> bool
    ensures { result ≡ list_any (opens_session number) uses.now }
{
    uses.iter().any(|one| opens_session(number, one))
}

pub(crate) fn first_of(number: u64, uses: &[KeyUse]) -> Option<KeyUse>
    ensures { result ≡ find (is_of_session number) uses.now }
{
    for one in uses {
        if is_of_session(number, one) {
            return Some(*one);
        }
    }
    None
}

fn seen_word(seen: bool) -> &'static [u8]
    ensures { result.now ≡ seen_text seen }
{
    if seen { b"seen" } else { b"not seen" }
}

// Puts the front of the line of a session behind `out`: its number and its sockets.
fn push_sockets(out: &mut Vec<u8>, number: u64, first: &KeyUse) -> Result<(), AllocError>
    ensures { OnOk result (out.new.items ≡ out.old.items ++ (codes "session" ++ spaced (decimal number
        ∷ usual_address_text first.now.source.address ∷ decimal first.now.source.port
        ∷ usual_address_text first.now.destination.address ∷ decimal first.now.destination.port ∷ []))) }
{
    out.extend_from_slice(b"session")?;
    push_number(out, number)?;
    push_end(out, &first.source)?;
    push_end(out, &first.destination)
}

// Puts the end of the line of a session behind `out`: whether its handshake was seen.
fn push_handshake(out: &mut Vec<u8>, seen: bool) -> Result<(), AllocError>
    ensures { OnOk result
        (out.new.items ≡ out.old.items ++ (spaced (codes "handshake" ∷ seen_text seen ∷ []) ++ 10 ∷ [])) }
{
    push_text(out, b"handshake")?;
    push_text(out, seen_word(seen))?;
    push_newline(out)
}

// Puts the line of a session behind `out`, by the first segments of it.
fn push_heading(
    out: &mut Vec<u8>,
    number: u64,
    handshake: bool,
    first: Option<KeyUse>,
) -> Result<(), AllocError>
    ensures { OnOk result (out.new.items ≡ out.old.items ++ heading_line number handshake first) }
{
    match first {
        None => Ok(()),
        Some(first) => {
            push_sockets(out, number, &first)?;
            push_handshake(out, handshake)
        }
    }
}

// Puts behind `out` how segments are protected.
fn push_protection(
    out: &mut Vec<u8>,
    protection: Protection,
    key_id: Option<u8>,
) -> Result<(), AllocError>
    ensures { OnOk result (out.new.items ≡ out.old.items ++ 32 ∷ protection_text protection key_id) }
{
    match protection {
        Protection::Ao => {
            push_text(out, b"key")?;
            push_id(out, key_id)
        }
        Protection::Md5 => push_text(out, b"md5"),
        Protection::Plain => push_text(out, b"plain"),
        Protection::Unclear => push_text(out, b"key -"),
    }
}

// Puts the front of the line of segments behind `out`: their direction and how they are protected.
fn push_direction(out: &mut Vec<u8>, one: &KeyUse) -> Result<(), AllocError>
    ensures { OnOk result
        (out.new.items ≡ out.old.items ++ (codes " " ++ spaced (usual_address_text one.now.source.address ∷ codes ">"
        ∷ usual_address_text one.now.destination.address ∷ protection_text one.now.protection one.now.key_id ∷ []))) }
{
    out.push(b' ')?;
    push_host(out, &one.source.address)?;
    push_text(out, b">")?;
    push_host(out, &one.destination.address)?;
    push_protection(out, one.protection, one.key_id)
}

// Puts behind `out` how many segments they are, and when they were seen.
fn push_seen(out: &mut Vec<u8>, one: &KeyUse) -> Result<(), AllocError>
    ensures { OnOk result (out.new.items ≡ out.old.items ++ spaced
        (decimal one.now.segments ∷ codes "first" ∷ instant_text one.now.first
        ∷ codes "last" ∷ instant_text one.now.last ∷ [])) }
{
    push_number(out, one.segments)?;
    push_text(out, b"first")?;
    push_time(out, one.first)?;
    push_text(out, b"last")?;
    push_time(out, one.last)
}

// Puts the end of the line of segments behind `out`: how many they are, when they were seen, what they
// ask for, and the last packet.
fn push_numbers(out: &mut Vec<u8>, one: &KeyUse) -> Result<(), AllocError>
    ensures { OnOk result
        (out.new.items ≡ out.old.items ++ (spaced (decimal one.now.segments ∷ codes "first" ∷ instant_text one.now.first
        ∷ codes "last" ∷ instant_text one.now.last ∷ codes "asks" ∷ id_text one.now.asked
        ∷ codes "packet" ∷ decimal one.now.packet ∷ []) ++ 10 ∷ [])) }
{
    push_seen(out, one)?;
    push_text(out, b"asks")?;
    push_id(out, one.asked)?;
    push_field(out, b"packet", one.packet)?;
    push_newline(out)
}

fn push_use(out: &mut Vec<u8>, one: &KeyUse) -> Result<(), AllocError>
    ensures { OnOk result (out.new.items ≡ out.old.items ++ use_line one.now) }
{
    push_direction(out, one)?;
    push_text(out, outcome_word(one.outcome))?;
    push_numbers(out, one)
}

fn push_use_in(out: &mut Vec<u8>, number: u64, one: &KeyUse) -> Result<(), AllocError>
    ensures { OnOk result (out.new.items ≡ out.old.items ++ use_line_in number one.now) }
{
    if is_of_session(number, one) {
        push_use(out, one)
    } else {
        Ok(())
    }
}

fn push_uses(out: &mut Vec<u8>, number: u64, uses: &[KeyUse]) -> Result<(), AllocError>
    ensures { OnOk result (out.new.items ≡ out.old.items ++ flat_map (use_line_in number) uses.now) }
{
    for one in uses {
        push_use_in(out, number, one)?;
    }
    Ok(())
}

fn push_session(out: &mut Vec<u8>, number: u64, uses: &[KeyUse]) -> Result<(), AllocError>
    ensures { OnOk result (out.new.items ≡ out.old.items ++ lines_of_session uses.now number) }
{
    push_heading(out, number, is_opened(number, uses), first_of(number, uses))?;
    push_uses(out, number, uses)
}

// Puts the lines of the session of this number behind `out`, by its own segments.
fn push_own(
    alloc: Global,
    out: &mut Vec<u8>,
    index: &SessionIndex,
    number: u64,
) -> Result<(), AllocError>
    ensures { OnOk result (out.new.items ≡ out.old.items ++ lines_of_session index.now.uses number) }
{
    let own = index.uses_of(alloc, number)?;
    push_session(out, number, own.as_slice())
}

/// Puts the lines of the sessions of these numbers behind `out`.
pub(crate) fn push_sessions(
    alloc: Global,
    out: &mut Vec<u8>,
    index: &SessionIndex,
    numbers: &[u64],
) -> Result<(), AllocError>
    ensures { OnOk result (out.new.items ≡ out.old.items ++ flat_map (lines_of_session index.now.uses) numbers.now) }
{
    for number in numbers {
        push_own(alloc, out, index, *number)?;
    }
    Ok(())
}
