//! Datagrams that a capture has otherwise than the wire: without the header checksum that a card sets later, and
//! with an extension header in front of another protocol than TCP.
ghost use Rattle.std.specs.Prelude.{◌≡◌, ◌≤◌, ◌<◌, ◌*◌, ◌+◌, ◌%◌, ◌^◌, IfOk, length, slice_index, take, true};
ghost use Rattle.book_segments.specs.Segments.{complement_of, reading, two_octets_at, words_sum};
ghost use Rattle.book_sessions.specs.AsSent.{has_next_header, has_wrong_header, header_checksum_of, is_segment};
ghost use Rattle.book_sessions.specs.AsSent.{lacks_checksum, leads_elsewhere, may_lead_to_tcp, told_fault};
ghost use Rattle.book_sessions.specs.AsSent.{with_header_checksum};
ghost use Rattle.capture_listener.specs.AsSent.{IsMended, complement_at};

use std::alloc::{AllocError, Global};
use tcp_segment::{DatagramFault, read_datagram};

// The sum of the big-endian words, an odd length filled with a zero byte.
fn words(bytes: &[u8]) -> u64
    requires { length bytes.now < 2 ^ 32 }
    ensures sum { result ≡ words_sum bytes.now }
    ensures small { result ≤ 65535 * length bytes.now }
{
    let mut rest = bytes;
    let mut sum: u64 = 0;
    while let [one, two, behind @ ..] = rest {
        sum += u64::from(*one) * 256 + u64::from(*two);
        rest = behind;
    }
    if let [last] = rest {
        sum += 256 * u64::from(*last);
    }
    sum
}

// The complement of the one's complement sum, for a plain sum.
fn complement(sum: u64) -> u64
    ensures value { result ≡ complement_at sum }
    ensures small { result < 65536 }
{
    if sum == 0 {
        return 65535;
    }
    if sum % 65535 == 0 {
        return 0;
    }
    65535 - sum % 65535
}

fn has_wrong_header(bytes: &[u8]) -> bool
    ensures { result ≡ has_wrong_header (reading bytes.now) }
{
    matches!(read_datagram(bytes), Err(DatagramFault::HeaderChecksum))
}

// The big-endian number of two bytes.
pub(crate) fn two_at(bytes: &[u8], at: usize) -> u64
    requires { at + 1 < length bytes.now }
    ensures value { result ≡ two_octets_at bytes.now at }
    ensures small { result < 65536 }
{
    u64::from(bytes[at]) * 256 + u64::from(bytes[at + 1])
}

#[tactic(auto, unfolding(book_sessions::specs::AsSent::lacks_checksum))]
fn lacks_checksum(bytes: &[u8]) -> bool
    ensures value { result ≡ lacks_checksum bytes.now }
    ensures header { result ≡ true → 20 ≤ length bytes.now }
{
    bytes.len() >= 20 && two_at(bytes, 10) == 0 && has_wrong_header(bytes)
}

// The bytes of the header, as its first byte tells its length.
fn header_of(bytes: &[u8]) -> &[u8]
    requires { 20 ≤ length bytes.now }
    ensures value { result.now ≡ take (4 * (slice_index bytes.now 0 % 16)) bytes.now }
    ensures small { length result.now ≤ 60 }
{
    let size = 4 * usize::from(bytes[0] % 16);
    &bytes[..size.min(bytes.len())]
}

// The right header checksum of a datagram that has none.
fn header_checksum_of(bytes: &[u8]) -> u64
    requires { 20 ≤ length bytes.now }
    ensures value { result ≡ header_checksum_of bytes.now }
    ensures small { result < 65536 }
{
    complement(words(header_of(bytes)))
}

// The bytes of a datagram with this header checksum.
#[tactic(auto, unfolding(book_segments::specs::Bytes::put2))]
fn with_header_checksum(alloc: Global, bytes: &[u8], checksum: u64) -> Result<Vec<u8>, AllocError>
    requires header { 20 ≤ length bytes.now }
    requires small { checksum < 65536 }
    ensures { IfOk result (λ v. v.items ≡ with_header_checksum checksum bytes.now) }
{
    let mut whole = Vec::new(alloc);
    whole.extend_from_slice(&bytes[..10])?;
    whole.push((checksum / 256) as u8)?;
    whole.push((checksum % 256) as u8)?;
    whole.extend_from_slice(&bytes[12..])?;
    Ok(whole)
}

/// The bytes of a datagram with the right header checksum, where it isn't set. An error for want of memory alone.
#[tactic(auto, unfolding(book_sessions::specs::AsSent::mended))]
pub fn mended(alloc: Global, bytes: &[u8]) -> Result<Option<Vec<u8>>, AllocError>
    ensures { IfOk result (IsMended bytes.now) }
{
    if !lacks_checksum(bytes) {
        return Ok(None);
    }
    let whole = with_header_checksum(alloc, bytes, header_checksum_of(bytes))?;
    Ok(Some(whole))
}

/// Whether the bytes are a segment.
pub fn is_segment(bytes: &[u8]) -> bool
    ensures { result ≡ is_segment (reading bytes.now) }
{
    read_datagram(bytes).is_ok()
}

fn has_next_header(header: u8) -> bool
    ensures { result ≡ has_next_header header }
{
    header == 0 || header == 43 || header == 60
}

fn may_lead_to_tcp(header: u8) -> bool
    ensures { result ≡ may_lead_to_tcp header }
{
    matches!(
        header,
        6 | 0 | 43 | 44 | 60 | 50 | 51 | 135 | 139 | 140 | 253 | 254
    )
}

#[tactic(auto, unfolding(book_sessions::specs::AsSent::leads_elsewhere))]
fn leads_elsewhere(bytes: &[u8]) -> bool
    ensures { result ≡ leads_elsewhere bytes.now }
{
    bytes.len() > 40
        && has_next_header(bytes[6])
        && two_at(bytes, 4) >= 8
        && !may_lead_to_tcp(bytes[40])
}

/// The fault that is told of bytes that have this one: an extension header in front of another protocol is none
/// of TCP (RFC 8200, section 4).
pub fn told_fault(bytes: &[u8], fault: DatagramFault) -> DatagramFault
    ensures { result ≡ told_fault bytes.now fault }
{
    match fault {
        DatagramFault::ExtensionHeader => {
            if leads_elsewhere(bytes) {
                DatagramFault::NotTcp
            } else {
                DatagramFault::ExtensionHeader
            }
        }
        other => other,
    }
}
