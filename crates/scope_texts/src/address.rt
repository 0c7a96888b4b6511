//! Addresses as text.
ghost use Rattle.std.specs.Prelude.{◌≡◌, ◌++◌, OnOk};
ghost use Rattle.std.specs.Net.Addr.{segments_of};
ghost use Rattle.std.specs.Net.Text.{ipv4_text, ipv6_text};
ghost use Rattle.book_scope_texts.specs.Addresses.{usual_address_of, usual_address_text};

use book_base::Address;
use std::alloc::AllocError;
use std::net::{IpAddr, Ipv4Addr, Ipv6Addr};

fn push_ipv4(out: &mut Vec<u8>, bytes: &[u8; 4]) -> Result<(), AllocError>
    ensures { OnOk result (out.new.items ≡ out.old.items ++ ipv4_text bytes.now) }
{
    let text = Ipv4Addr::from_octets(*bytes).to_string(*out.allocator())?;
    out.extend_from_slice(text.as_bytes())
}

fn push_ipv6(out: &mut Vec<u8>, bytes: &[u8; 16]) -> Result<(), AllocError>
    ensures { OnOk result (out.new.items ≡ out.old.items ++ ipv6_text (segments_of bytes.now)) }
{
    let text = Ipv6Addr::from_octets(*bytes).to_string(*out.allocator())?;
    out.extend_from_slice(text.as_bytes())
}

/// Puts the address behind `out`: IPv4 as four decimals with dots between them; IPv6 as RFC 5952, section
/// 4, has it: groups in lower case without leading zeros, the longest run of two or more zero groups as
/// `::`, the first of equal ones. Where memory runs out nothing is put there.
#[tactic(auto, unfolding(book_scope_texts::specs::Addresses::usual_address_text))]
pub fn push_address(out: &mut Vec<u8>, address: &Address) -> Result<(), AllocError>
    ensures { OnOk result (out.new.items ≡ out.old.items ++ usual_address_text address.now) }
{
    match address {
        Address::V4(bytes) => push_ipv4(out, bytes),
        Address::V6(bytes) => push_ipv6(out, bytes),
    }
}

/// The address that a text writes: four decimals without leading zeros with dots between them, or any
/// form of RFC 4291, section 2.2, for IPv6; None exactly where it is neither.
pub fn read_address(text: &[u8]) -> Option<Address>
    ensures { result ≡ usual_address_of text.now }
{
    match IpAddr::parse_ascii(text) {
        Ok(IpAddr::V4(address)) => Some(Address::V4(address.octets())),
        Ok(IpAddr::V6(address)) => Some(Address::V6(address.octets())),
        Err(_) => None,
    }
}
