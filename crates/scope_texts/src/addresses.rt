//! Why a value is no address.
ghost use Rattle.std.specs.Prelude.{◌≡◌, ◌==◌, ◌++◌, OnOk, codes, option_map};
ghost use Rattle.std.specs.List.{list_any};
ghost use Rattle.book_base.specs.Hexadecimal.{hex_of};
ghost use Rattle.toml.specs.View.{view};
ghost use Rattle.book_scope_texts.specs.Addresses.{usual_address_of};
ghost use Rattle.book_scope_texts.specs.Hints.{address_hint, written_address_hint};
ghost use Rattle.book_scope_texts.specs.RowFindings.{address_hint_of};

use ao_base::push_hex;
use book_base::Address;
use std::alloc::AllocError;
use std::net::IpAddr;
use toml::Value;

/// The address that a text writes as operators do.
fn usual_address(text: &[u8]) -> Option<Address>
    ensures { result ≡ usual_address_of text.now }
{
    match IpAddr::parse_ascii(text) {
        Ok(IpAddr::V4(address)) => Some(Address::V4(address.octets())),
        Ok(IpAddr::V6(address)) => Some(Address::V6(address.octets())),
        Err(_) => None,
    }
}

fn has_slash(text: &[u8]) -> bool
    ensures { result ≡ list_any (λ b. b == 0x2f) text.now }
{
    text.iter().any(|byte| *byte == b'/')
}

fn push_written(out: &mut Vec<u8>, bytes: &[u8; 16]) -> Result<(), AllocError>
    ensures { OnOk result
        (out.new.items ≡ out.old.items ++ (codes ", which is written \"" ++ (hex_of bytes.now ++ codes "\""))) }
{
    out.extend_from_slice(b", which is written \"")?;
    push_hex(out, bytes.as_slice())?;
    out.extend_from_slice(b"\"")
}

fn push_written_address(out: &mut Vec<u8>, address: Option<&Address>) -> Result<(), AllocError>
    ensures { OnOk result (out.new.items ≡ out.old.items ++ written_address_hint
        (option_map (λ a. a.now) address.entry)) }
{
    match address {
        Some(Address::V6(bytes)) => push_written(out, bytes),
        Some(Address::V4(_)) => Ok(()),
        None => Ok(()),
    }
}

#[tactic(auto, unfolding(book_scope_texts::specs::Hints::address_hint))]
fn push_text_hint(out: &mut Vec<u8>, text: &[u8]) -> Result<(), AllocError>
    ensures { OnOk result (out.new.items ≡ out.old.items ++ address_hint text.now) }
{
    if has_slash(text) {
        return out.extend_from_slice(b", a prefix: each address stands for itself");
    }
    push_written_address(out, usual_address(text).as_ref())
}

/// Puts behind `out` why a value is no address: that it is a prefix, or how a key file writes it. Where memory
/// runs out a part of it may stand there.
pub fn push_address_hint(out: &mut Vec<u8>, value: Option<&Value>) -> Result<(), AllocError>
    ensures { OnOk result (out.new.items ≡ out.old.items ++ address_hint_of
        (option_map (λ v. view v.now) value.entry)) }
{
    match value {
        Some(Value::String(text)) => push_text_hint(out, text.as_bytes()),
        _ => Ok(()),
    }
}
