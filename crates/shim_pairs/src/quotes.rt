//! What an error quotes: the first bytes of the datagram that it is about.
ghost use Rattle.std.specs.Prelude.{◌≡◌, ◌+◌, ◌*◌, ◌%◌, ◌≤◌, length, slice_index, slice_range};
ghost use Rattle.book_base.specs.declared.address.Address.TheVariants.{V4, V6};
ghost use Rattle.book_segments.specs.Segments.{is_extension};
ghost use Rattle.book_shim.specs.Quoting.{quotes_at, v4_error, v6_error};

use crate::headers::{
    AUTHENTICATION_HEADER, IPV4, IPV4_HEADER, IPV6, IPV6_HEADER, MORE_FRAGMENTS_BIT, TCP_PROTOCOL,
    two,
};
use book_base::{Address, Pair, Socket};
use book_shim::Notice;

/// The address at a place.
fn address_v4(quote: &[u8], at: usize) -> Address
    requires { at + 4 ≤ length quote.now }
    ensures { result ≡ V4 (slice_range quote.now at (at + 4)) }
{
    let mut octets = [0; 4];
    octets.copy_from_slice(&quote[at..at + 4]);
    Address::V4(octets)
}

/// The address at a place.
fn address_v6(quote: &[u8], at: usize) -> Address
    requires { at + 16 ≤ length quote.now }
    ensures { result ≡ V6 (slice_range quote.now at (at + 16)) }
{
    let mut octets = [0; 16];
    octets.copy_from_slice(&quote[at..at + 16]);
    Address::V6(octets)
}

/// An error that quotes TCP between these addresses: the own kernel sent it, from its ports.
fn quotes_at(quote: &[u8], ports: usize, source: Address, destination: Address) -> Notice
    requires { ports ≤ length quote.now }
    ensures { result ≡ quotes_at ports quote.now source destination }
{
    if quote.len() - ports < 4 {
        return Notice::Unread;
    }
    Notice::Quotes(Pair {
        local: Socket {
            address: source,
            port: two(quote, ports),
        },
        remote: Socket {
            address: destination,
            port: two(quote, ports + 2),
        },
    })
}

/// An error over IPv4 that quotes these bytes.
pub(crate) fn v4_error(quote: &[u8]) -> Notice
    ensures { result ≡ v4_error quote.now }
{
    if quote.len() < IPV4_HEADER {
        return Notice::Unread;
    }
    if quote[0] / 16 != IPV4 {
        return Notice::Unread;
    }
    if quote[9] != TCP_PROTOCOL {
        return Notice::Other;
    }
    let header = 4 * (quote[0] % 16) as usize;
    if header < IPV4_HEADER {
        return Notice::Unread;
    }
    if two(quote, 6) % MORE_FRAGMENTS_BIT != 0 {
        return Notice::Unread;
    }
    if quote.len() < header {
        return Notice::Unread;
    }
    quotes_at(quote, header, address_v4(quote, 12), address_v4(quote, 16))
}

fn is_extension_header(next: u8) -> bool
    ensures { result ≡ is_extension next }
{
    next == 0 || next == 43 || next == 44 || next == 60
}

/// An error over IPv6 that quotes these bytes.
pub(crate) fn v6_error(quote: &[u8]) -> Notice
    ensures { result ≡ v6_error quote.now }
{
    if quote.len() < IPV6_HEADER {
        return Notice::Unread;
    }
    if quote[0] / 16 != IPV6 {
        return Notice::Unread;
    }
    let next = quote[6];
    if is_extension_header(next) || next == AUTHENTICATION_HEADER {
        return Notice::Unread;
    }
    if next != TCP_PROTOCOL {
        return Notice::Other;
    }
    quotes_at(
        quote,
        IPV6_HEADER,
        address_v6(quote, 8),
        address_v6(quote, 24),
    )
}
