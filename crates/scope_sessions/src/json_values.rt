//! Values of JSON, put behind a text. Where memory runs out a part of one may stand there.
ghost use Rattle.std.specs.Prelude.{◌≡◌, ◌++◌, ◌∷◌, [], OnOk};
ghost use Rattle.std.specs.List.{flat_map};
ghost use Rattle.page_sessions_json.specs.Json.{json_bool, json_byte, json_comma, json_name, json_string};
ghost use Rattle.page_sessions_json.specs.SessionJson.{address_json, id_json, time_json};

use ao_base::{push_decimal, push_hex};
use book_base::Address;
use scope_texts::{push_address, push_instant};
use std::alloc::{AllocError, Global};

// Puts a byte as it is written in a string behind `out`.
fn push_byte(out: &mut Vec<u8>, byte: u8) -> Result<(), AllocError>
    ensures { OnOk result (out.new.items ≡ out.old.items ++ json_byte byte) }
{
    if byte == b'"' || byte == b'\\' {
        out.push(b'\\')?;
        out.push(byte)?;
        return Ok(());
    }
    if byte < 32 {
        out.extend_from_slice(b"\\u00")?;
        return push_hex(out, &[byte]);
    }
    out.push(byte)?;
    Ok(())
}

fn push_bytes(out: &mut Vec<u8>, text: &[u8]) -> Result<(), AllocError>
    ensures { OnOk result (out.new.items ≡ out.old.items ++ flat_map json_byte text.now) }
{
    for byte in text {
        push_byte(out, *byte)?;
    }
    Ok(())
}

/// Puts the text as a string behind `out`.
#[tactic(auto, unfolding(page_sessions_json::specs::Json::json_string))]
pub(crate) fn push_string(out: &mut Vec<u8>, text: &[u8]) -> Result<(), AllocError>
    ensures { OnOk result (out.new.items ≡ out.old.items ++ json_string text.now) }
{
    out.push(b'"')?;
    push_bytes(out, text)?;
    out.push(b'"')?;
    Ok(())
}

/// Puts the name of a member behind `out`, with `mark` in front: a brace where it is the first of its
/// object, else a comma.
#[tactic(auto, unfolding(page_sessions_json::specs::Json::json_name))]
pub(crate) fn push_name(out: &mut Vec<u8>, mark: u8, name: &[u8]) -> Result<(), AllocError>
    ensures { OnOk result (out.new.items ≡ out.old.items ++ mark ∷ json_name name.now) }
{
    out.push(mark)?;
    push_string(out, name)?;
    out.push(b':')?;
    Ok(())
}

/// Puts a truth value behind `out`.
pub(crate) fn push_bool(out: &mut Vec<u8>, value: bool) -> Result<(), AllocError>
    ensures { OnOk result (out.new.items ≡ out.old.items ++ json_bool value) }
{
    if value {
        out.extend_from_slice(b"true")
    } else {
        out.extend_from_slice(b"false")
    }
}

/// Puts a KeyID behind `out`, or that there is none.
pub(crate) fn push_id(out: &mut Vec<u8>, id: Option<u8>) -> Result<(), AllocError>
    ensures { OnOk result (out.new.items ≡ out.old.items ++ id_json id) }
{
    match id {
        None => out.extend_from_slice(b"null"),
        Some(id) => push_decimal(out, u64::from(id)),
    }
}

/// Puts a time, in seconds since 1970, behind `out`.
#[tactic(auto, unfolding(page_sessions_json::specs::SessionJson::time_json))]
pub(crate) fn push_time(alloc: Global, out: &mut Vec<u8>, seconds: u64) -> Result<(), AllocError>
    ensures { OnOk result (out.new.items ≡ out.old.items ++ time_json seconds) }
{
    let mut text = Vec::new(alloc);
    push_instant(&mut text, seconds)?;
    push_string(out, text.as_slice())
}

/// Puts an address behind `out`.
#[tactic(auto, unfolding(page_sessions_json::specs::SessionJson::address_json))]
pub(crate) fn push_address_text(
    alloc: Global,
    out: &mut Vec<u8>,
    address: &Address,
) -> Result<(), AllocError>
    ensures { OnOk result (out.new.items ≡ out.old.items ++ address_json address.now) }
{
    let mut text = Vec::new(alloc);
    push_address(&mut text, address)?;
    push_string(out, text.as_slice())
}

/// Puts what stands in front of a value behind `out`: nothing where it is the first, else a comma.
pub(crate) fn push_comma(out: &mut Vec<u8>, first: bool) -> Result<(), AllocError>
    ensures { OnOk result (out.new.items ≡ out.old.items ++ json_comma first) }
{
    if first {
        return Ok(());
    }
    out.push(b',')?;
    Ok(())
}
