//! What a datagram is that came as ICMP.
ghost use Rattle.std.specs.Prelude.{◌≡◌, ◌+◌, ◌*◌, ◌%◌, length, slice_index, slice_range};
ghost use Rattle.book_shim.specs.Quoting.{is_v4_error, v4_notice, v6_notice, notice};

use crate::headers::{
    DONT_FRAGMENT_BIT, ICMP_HEADER, ICMP_PROTOCOL, ICMPV6_HEADER, IPV4, IPV4_HEADER, IPV6,
    IPV6_HEADER, two,
};
use crate::quotes::{v4_error, v6_error};
use book_shim::Notice;

fn is_v4_error(kind: u8) -> bool
    ensures { result ≡ is_v4_error kind }
{
    kind == 3 || kind == 4 || kind == 5 || kind == 11 || kind == 12
}

fn v4_notice(bytes: &[u8]) -> Notice
    ensures { result ≡ v4_notice bytes.now }
{
    if bytes.len() < IPV4_HEADER {
        return Notice::Unread;
    }
    let end = two(bytes, 2) as usize;
    if bytes.len() < end {
        return Notice::Unread;
    }
    let message = 4 * (bytes[0] % 16) as usize;
    if message < IPV4_HEADER {
        return Notice::Unread;
    }
    let quote = message + ICMP_HEADER;
    if end < quote {
        return Notice::Unread;
    }
    if two(bytes, 6) % DONT_FRAGMENT_BIT != 0 {
        return Notice::Unread;
    }
    if bytes[9] != ICMP_PROTOCOL {
        return Notice::Unread;
    }
    if is_v4_error(bytes[message]) {
        v4_error(&bytes[quote..end])
    } else {
        Notice::Other
    }
}

fn v6_notice(bytes: &[u8]) -> Notice
    ensures { result ≡ v6_notice bytes.now }
{
    if bytes.len() < IPV6_HEADER {
        return Notice::Unread;
    }
    let end = IPV6_HEADER + two(bytes, 4) as usize;
    if bytes.len() < end {
        return Notice::Unread;
    }
    let quote = IPV6_HEADER + ICMP_HEADER;
    if end < quote {
        return Notice::Unread;
    }
    if bytes[6] != ICMPV6_HEADER {
        return Notice::Unread;
    }
    if bytes[IPV6_HEADER] < 128 {
        v6_error(&bytes[quote..end])
    } else {
        Notice::Other
    }
}

/// What a datagram is that came as ICMP: bytes of any length, of which those after the datagram's end
/// are left unread (RFC 792; RFC 4443, section 2.1).
///
/// An error is told with the pair of sockets that it quotes, the own kernel's in the place of the local
/// one. What isn't a whole datagram that carries ICMP directly, and what can't be read as far as the quoted
/// ports, is `Unread`. No checksum is judged: the kernel judges them. A few steps, whatever the length.
#[tactic(auto, unfolding(book_shim::specs::Quoting::notice))]
pub fn read_notice(bytes: &[u8]) -> Notice
    ensures { result ≡ notice bytes.now }
{
    if bytes.is_empty() {
        return Notice::Unread;
    }
    let version = bytes[0] / 16;
    if version == IPV4 {
        v4_notice(bytes)
    } else if version == IPV6 {
        v6_notice(bytes)
    } else {
        Notice::Unread
    }
}
