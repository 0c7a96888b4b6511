//! The header of a message.
ghost use Rattle.std.specs.Prelude.{◌≡◌, length, None, Some, MatchResult};
ghost use Rattle.book_bgp.specs.Messages.{header_length, header_fault, length_in, is_kind, fits_kind};

use crate::gathered::GREATEST;
use book_bgp::BgpFault;

/// How many bytes a header has (RFC 4271, section 4.1).
pub(crate) const HEADER: usize = 19;

/// The 16 bytes that begin a header (RFC 4271, section 4.1).
const MARKER: [u8; 16] = [0xff; 16];

/// The types of messages (RFC 4271, section 4.1; RFC 2918, section 3).
const OPEN: u8 = 1;

const UPDATE: u8 = 2;

const NOTIFICATION: u8 = 3;

const KEEPALIVE: u8 = 4;

const ROUTE_REFRESH: u8 = 5;

/// The length of the message that a header begins, or what is wrong with the header.
#[tactic(auto, unfolding(book_bgp::specs::Messages::header_fault))]
pub(crate) fn read_header(header: &[u8]) -> Result<usize, BgpFault>
    requires { length header.now ≡ header_length }
    ensures { MatchResult result (λ len. (header_fault header.now ≡ None) × (len ≡ length_in header.now))
        (λ fault. header_fault header.now ≡ Some fault) }
{
    if &header[..16] != MARKER.as_slice() {
        return Err(BgpFault::Marker);
    }
    let len = usize::from(u16::from_be_bytes([header[16], header[17]]));
    if len < HEADER || GREATEST < len {
        return Err(BgpFault::Length);
    }
    let kind = header[18];
    if !is_kind(kind) {
        return Err(BgpFault::Kind);
    }
    if !fits_kind(kind, len) {
        return Err(BgpFault::Length);
    }
    Ok(len)
}

fn is_kind(kind: u8) -> bool
    ensures { result ≡ is_kind kind }
{
    OPEN <= kind && kind <= ROUTE_REFRESH
}

// Whether a message of this type may have this length.
fn fits_kind(kind: u8, len: usize) -> bool
    ensures { result ≡ fits_kind kind len }
{
    match kind {
        OPEN => len >= 29,
        UPDATE => len >= 23,
        NOTIFICATION => len >= 21,
        KEEPALIVE => len == HEADER,
        ROUTE_REFRESH => len >= 23,
        _ => len >= HEADER,
    }
}
