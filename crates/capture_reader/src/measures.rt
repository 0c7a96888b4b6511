//! How long a datagram is, and how much of it there is.
ghost use Rattle.std.specs.Prelude.{◌≡◌, ◌+◌, ◌<◌, ◌^◌, ◌≤◌, length};
ghost use Rattle.book_captures.specs.Frames.{is_zero as zero_at, told_length as length_told};
ghost use Rattle.book_captures.specs.Frames.{full_length as length_in_full, extent_of as extent_wanted};

use book_captures::{Extent, IpVersion};
use book_pcap::ByteOrder;
use pcap_file::u16_at;

/// Whether the field of IPv4 at this place is 0.
pub(crate) fn is_zero(version: IpVersion, at: usize, bytes: &[u8]) -> bool
    requires { at < 19 }
    ensures { result ≡ zero_at version at bytes.now }
{
    match version {
        IpVersion::V6 => false,
        IpVersion::V4 => bytes.len() >= 20 && u16_at(ByteOrder::Big, bytes, at) == 0,
    }
}

// How long the datagram is by its own header.
fn told_length(version: IpVersion, bytes: &[u8]) -> usize
    ensures { result ≡ length_told version bytes.now }
{
    match version {
        IpVersion::V4 => {
            if bytes.len() < 20 {
                20
            } else {
                u16_at(ByteOrder::Big, bytes, 2) as usize
            }
        }
        IpVersion::V6 => {
            if bytes.len() < 40 {
                40
            } else {
                40 + u16_at(ByteOrder::Big, bytes, 4) as usize
            }
        }
    }
}

/// How long the datagram is, of a packet of which so many bytes are missing.
pub(crate) fn full_length(version: IpVersion, bytes: &[u8], missing: u32) -> usize
    ensures { result ≡ length_in_full version bytes.now missing }
{
    if is_zero(version, 2, bytes) {
        bytes.len() + missing as usize
    } else {
        told_length(version, bytes)
    }
}

/// How much there is of so many bytes, where `here` are and `missing` are missing.
pub(crate) fn extent_of(full: usize, here: usize, missing: u32) -> Extent
    requires { here < 2 ^ 63 }
    ensures { result ≡ extent_wanted full here missing }
{
    if here + (missing as usize) < full {
        Extent::Short
    } else if here < full {
        Extent::Cut
    } else {
        Extent::Whole
    }
}
