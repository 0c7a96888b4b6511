//! The datagram in a frame.
ghost use Rattle.std.specs.Prelude.{◌≡◌, ◌≤◌, ◌-◌, length, drop, IfOk};
ghost use Rattle.book_captures.specs.Frames.{version_by as version_allowed, version_in as version_of_layer};
ghost use Rattle.book_captures.specs.Frames.{datagram_at, as_cut as seen_as_cut, missing_from, datagram_in};
ghost use Rattle.capture_reader.specs.Found.{Gives, layer, seen, as_it_is};

use crate::layers::{Follows, innermost};
use crate::measures::{extent_of, full_length, is_zero};
use book_captures::{Extent, Header, IpVersion, LinkType, Protocol, Skipped};

/// A datagram as far as it was captured, by its place in the frame.
#[derive(Clone, Copy, Debug, PartialEq, Eq)]
pub struct FoundDatagram {
    /// The version of IP.
    pub version: IpVersion,
    /// Where it begins in the frame.
    pub first: usize,
    /// Where it ends in the frame: at its end, or where the frame ends before.
    pub after: usize,
    /// How much of it there is.
    pub extent: Extent,
    /// The total length of IPv4 is 0, as where a network card was to fill it in: then the datagram reaches
    /// to the packet's end.
    pub no_length: bool,
    /// The header's checksum of IPv4 is 0, as where a network card was to fill it in.
    pub no_checksum: bool,
}

/// The datagram in a frame, or why the packet is passed over.
///
/// `frame` is what the snapshot left of a packet that had `original` bytes. The datagram stands behind the
/// link's header, any number of tags of IEEE 802.1Q, a session of PPPoE and a stack of MPLS, as far as
/// they are there. It has the bytes that its own header says, as far as they were captured.
pub fn find_datagram(link: LinkType, frame: &[u8], original: u32) -> Result<FoundDatagram, Skipped>
    ensures exact { Gives (seen frame.now) result (datagram_in link frame.now original) }
    ensures ordered { IfOk result (λ d. d.first ≤ d.after) }
    ensures within { IfOk result (λ d. d.after ≤ length frame.now) }
{
    let missing = missing_bytes(frame, original);
    let layer = match innermost(link, frame) {
        Ok(layer) => layer,
        Err(why) => return Err(as_cut(why, missing)),
    };
    match version_in(layer.protocol, layer.body) {
        Ok(version) => Ok(measure(version, frame, layer.body, missing)),
        Err(why) => Err(as_cut(why, missing)),
    }
}

// How many bytes the snapshot left out.
fn missing_bytes(frame: &[u8], original: u32) -> u32
    ensures { result ≡ missing_from frame.now original }
{
    if frame.len() < original as usize {
        original - frame.len() as u32
    } else {
        0
    }
}

// A reason, where the snapshot left out so many bytes.
fn as_cut(why: Skipped, missing: u32) -> Skipped
    ensures { result ≡ seen_as_cut missing why }
{
    match why {
        Skipped::Short(part) => {
            if 0 < missing {
                Skipped::Cut(part)
            } else {
                Skipped::Short(part)
            }
        }
        other => other,
    }
}

// The version of the datagram that stands here.
#[tactic(auto, unfolding(book_captures::specs::Frames::version_in))]
fn version_in(protocol: Protocol, body: &[u8]) -> Result<IpVersion, Skipped>
    ensures { Gives as_it_is result (version_of_layer (record { protocol = protocol; body = body.now })) }
{
    if let Protocol::Other | Protocol::Tag | Protocol::Session | Protocol::Labels = protocol {
        return Err(Skipped::NotIp);
    }
    match body {
        [] => Err(Skipped::Short(Header::Datagram)),
        [first, ..] => version_by(protocol, *first / 16),
    }
}

// The version that a protocol lets the first four bits say.
fn version_by(protocol: Protocol, bits: u8) -> Result<IpVersion, Skipped>
    ensures { Gives as_it_is result (version_allowed protocol bits) }
{
    match (protocol, bits) {
        (Protocol::Ip, 4) => Ok(IpVersion::V4),
        (Protocol::Ip, 6) => Ok(IpVersion::V6),
        (Protocol::Ipv4, 4) => Ok(IpVersion::V4),
        (Protocol::Ipv6, 6) => Ok(IpVersion::V6),
        (Protocol::Ip | Protocol::Ipv4 | Protocol::Ipv6, _) => Err(Skipped::Version),
        _ => Err(Skipped::NotIp),
    }
}

// The datagram that begins `body`, which ends the frame.
#[tactic(auto, unfolding(book_captures::specs::Frames::datagram_at))]
fn measure(version: IpVersion, frame: &[u8], body: &[u8], missing: u32) -> FoundDatagram
    requires long { length body.now ≤ length frame.now }
    requires ends { drop (length frame.now - length body.now) frame.now ≡ body.now }
    ensures value { seen frame.now result ≡ datagram_at version body.now missing }
    ensures ordered { result.first ≤ result.after }
    ensures within { result.after ≤ length frame.now }
{
    let here = body.len();
    let full = full_length(version, body, missing);
    let first = frame.len() - here;
    FoundDatagram {
        version,
        first,
        after: first + here.min(full),
        extent: extent_of(full, here, missing),
        no_length: is_zero(version, 2, body),
        no_checksum: is_zero(version, 10, body),
    }
}
