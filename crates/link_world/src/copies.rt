//! A copy of a segment with one byte altered.
ghost use Rattle.std.specs.Prelude.{◌≡◌, ◌<◌, length, is_some, IfOk, IfSome};
ghost use Rattle.book_link.specs.Alterations.{has_place, masked as masked_at, altered as altered_so};
ghost use Rattle.book_segments.specs.Spelling.{ip_length};
ghost use Rattle.tcp_segment.specs.Sums.{HasPlainHeader};

use book_link::Fixing;
use std::alloc::{AllocError, Global};
use tcp_segment::fix_checksum;

/// The length of an IP header without options.
fn header_length(bytes: &[u8]) -> usize
    requires { 0 < length bytes.now }
    ensures { result ≡ ip_length bytes.now }
{
    if bytes[0] / 16 == 4 { 20 } else { 40 }
}

/// A copy whose byte at this place is xored with a mask.
fn masked(alloc: Global, bytes: &[u8], at: usize, mask: u8) -> Result<Vec<u8>, AllocError>
    requires { at < length bytes.now }
    ensures { IfOk result (λ v. v.items ≡ masked_at bytes.now at mask) }
{
    let mut copy = Vec::with_capacity(alloc, bytes.len())?;
    copy.extend_from_slice(bytes)?;
    let byte = bytes[at];
    copy.as_mut_slice()[at] = byte ^ mask;
    Ok(copy)
}

/// A copy whose byte at `place`, counted from the TCP header, is xored with `mask`; its TCP checksum
/// is then kept or set right. None where the place is past the bytes. The IP header has no options.
pub(crate) fn altered(
    alloc: Global,
    bytes: &[u8],
    place: u16,
    mask: u8,
    fixing: Fixing,
) -> Result<Option<Vec<u8>>, AllocError>
    requires { HasPlainHeader bytes.now }
    ensures some { IfOk result (λ c. is_some c ≡ has_place bytes.now place) }
    ensures copy { IfOk result (λ c. IfSome c (λ v.
        v.items ≡ altered_so bytes.now (record { place = place; mask = mask; fixing = fixing }))) }
{
    let at = header_length(bytes) + usize::from(place);
    if at >= bytes.len() {
        return Ok(None);
    }
    let mut copy = masked(alloc, bytes, at, mask)?;
    match fixing {
        Fixing::Keep => {}
        Fixing::Fix => fix_checksum(copy.as_mut_slice()),
    }
    Ok(Some(copy))
}
