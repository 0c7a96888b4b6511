//! Datagrams that a capture has only the beginning of.
ghost use Rattle.std.specs.Prelude.{◌≡◌, ◌≤◌, IfOk, is_some, length, true};
ghost use Rattle.book_segments.specs.Segments.{reading};
ghost use Rattle.book_sessions.specs.AsSent.{mended};
ghost use Rattle.book_sessions.specs.CutOff.{filled, filled_segment, is_beginning, is_truncated, length_told, missing};
ghost use Rattle.capture_listener.specs.CutOff.{IsWhole};

use crate::as_sent::{mended, two_at};
use std::alloc::{AllocError, Global};
use tcp_segment::{DatagramFault, read_datagram};

fn is_truncated(bytes: &[u8]) -> bool
    ensures { result ≡ is_truncated (reading bytes.now) }
{
    matches!(read_datagram(bytes), Err(DatagramFault::Truncated))
}

fn is_beginning(bytes: &[u8]) -> bool
    ensures value { result ≡ is_beginning bytes.now }
    ensures header { result ≡ true → 20 ≤ length bytes.now }
{
    is_truncated(bytes) && bytes.len() >= 20
}

// How many bytes the datagram has, as its IP header says.
fn length_told(bytes: &[u8]) -> usize
    requires { 20 ≤ length bytes.now }
    ensures value { result ≡ length_told bytes.now }
    ensures small { result ≤ 65575 }
{
    if bytes[0] / 16 == 4 {
        two_at(bytes, 2) as usize
    } else {
        40 + two_at(bytes, 4) as usize
    }
}

// How many bytes of the datagram are missing at its end.
fn missing(bytes: &[u8]) -> usize
    requires { 20 ≤ length bytes.now }
    ensures value { result ≡ missing bytes.now }
    ensures small { result ≤ 65575 }
{
    length_told(bytes).saturating_sub(bytes.len())
}

// The datagram with its missing bytes as 0.
fn filled(alloc: Global, bytes: &[u8]) -> Result<Vec<u8>, AllocError>
    requires { 20 ≤ length bytes.now }
    ensures { IfOk result (λ v. v.items ≡ filled bytes.now) }
{
    let mut zeros = Vec::new(alloc);
    zeros.resize(missing(bytes), 0)?;
    let mut whole = Vec::new(alloc);
    whole.extend_from_slice(bytes)?;
    whole.extend_from_slice(zeros.as_slice())?;
    Ok(whole)
}

// The bytes with the right header checksum, where it isn't set.
fn with_checksum(alloc: Global, bytes: Vec<u8>) -> Result<Vec<u8>, AllocError>
    ensures { IfOk result (λ v. v.items ≡ mended bytes.items) }
{
    let found = mended(alloc, bytes.as_slice())?;
    match found {
        None => Ok(bytes),
        Some(whole) => Ok(whole),
    }
}

// Whether the bytes are a segment with so many bytes of payload at least.
fn has_payload(bytes: &[u8], least: usize) -> bool
    ensures { result ≡ is_some (filled_segment least (reading bytes.now)) }
{
    match read_datagram(bytes) {
        Err(_) => false,
        Ok(datagram) => least <= datagram.payload().len(),
    }
}

/// The bytes of a segment that was cut off within its payload, with zeros for those that are missing. None of others.
/// An error for want of memory alone.
pub fn cut_whole(alloc: Global, bytes: &[u8]) -> Result<Option<Vec<u8>>, AllocError>
    ensures { IfOk result (IsWhole bytes.now) }
{
    if !is_beginning(bytes) {
        return Ok(None);
    }
    let whole = with_checksum(alloc, filled(alloc, bytes)?)?;
    if has_payload(whole.as_slice(), missing(bytes)) {
        Ok(Some(whole))
    } else {
        Ok(None)
    }
}
