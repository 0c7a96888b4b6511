//! The headers in front of a datagram, one after another.
ghost use Rattle.std.specs.Prelude.{◌≡◌, ◌≤◌, length};
ghost use Rattle.book_captures.specs.Frames.{or_else, link_header_length as length_of_header};
ghost use Rattle.book_captures.specs.Frames.{protocol_in as protocol_told, family, behind_link, behind_tags};
ghost use Rattle.book_captures.specs.Frames.{behind_session, behind_labels, innermost as innermost_layer};
ghost use Rattle.book_pcap.specs.Packets.{four_at};
ghost use Rattle.capture_reader.specs.Found.{Gives, layer};

use crate::numbered::{ethertype, family, ppp};
use book_captures::{Header, LinkType, Protocol, Skipped};
use book_pcap::ByteOrder;
use pcap_file::{u16_at, u32_at};

/// What follows the headers so far.
#[derive(Clone, Copy)]
pub(crate) struct Follows<'a> {
    pub(crate) protocol: Protocol,
    pub(crate) body: &'a [u8],
}

/// What is innermost in a frame, behind all the headers that are read.
#[tactic(auto, unfolding(book_captures::specs::Frames::innermost))]
pub(crate) fn innermost(link: LinkType, frame: &[u8]) -> Result<Follows<'_>, Skipped>
    ensures { Gives layer result (innermost_layer link frame.now) }
{
    let outer = pass_link(link, frame)?;
    let untagged = pass_tags(outer.protocol, outer.body)?;
    let carried = pass_session(untagged.protocol, untagged.body)?;
    pass_labels(carried.protocol, carried.body)
}

#[tactic(auto, unfolding(book_captures::specs::Frames::behind_link))]
fn pass_link(link: LinkType, frame: &[u8]) -> Result<Follows<'_>, Skipped>
    ensures { Gives layer result (behind_link link frame.now) }
{
    let length = header_length(link);
    if frame.len() < length {
        return Err(Skipped::Short(Header::Link));
    }
    let protocol = protocol_in(link, frame);
    let (_header, body) = frame.split_at(length);
    Ok(Follows { protocol, body })
}

// How long the header of a link is.
fn header_length(link: LinkType) -> usize
    ensures { result ≡ length_of_header link }
{
    match link {
        LinkType::Ethernet => 14,
        LinkType::LinuxCooked => 16,
        LinkType::LinuxCookedV2 => 20,
        LinkType::BsdLoopback => 4,
        LinkType::RawIp => 0,
        LinkType::RawIpv4 => 0,
        LinkType::RawIpv6 => 0,
    }
}

// What the header of a link says that follows it.
fn protocol_in(link: LinkType, frame: &[u8]) -> Protocol
    requires { length_of_header link ≤ length frame.now }
    ensures { result ≡ protocol_told link frame.now }
{
    match link {
        LinkType::Ethernet => ethertype(u16_at(ByteOrder::Big, frame, 12)),
        LinkType::LinuxCooked => ethertype(u16_at(ByteOrder::Big, frame, 14)),
        LinkType::LinuxCookedV2 => ethertype(u16_at(ByteOrder::Big, frame, 0)),
        LinkType::BsdLoopback => loopback_protocol(frame),
        LinkType::RawIp => Protocol::Ip,
        LinkType::RawIpv4 => Protocol::Ipv4,
        LinkType::RawIpv6 => Protocol::Ipv6,
    }
}

// What an address family says that follows it, in the order of bytes in which it is one.
fn loopback_protocol(frame: &[u8]) -> Protocol
    requires { 4 ≤ length frame.now }
    ensures { result ≡ or_else (family (four_at ByteOrder.Big frame.now 0))
        (family (four_at ByteOrder.Little frame.now 0)) }
{
    match family(u32_at(ByteOrder::Big, frame, 0)) {
        Protocol::Other => family(u32_at(ByteOrder::Little, frame, 0)),
        known => known,
    }
}

// Passes over tags.
#[tactic(auto, using(crate::proofs::Tags::tag_step, crate::proofs::Tags::tag_short), unfolding(book_captures::specs::Frames::behind_tags))]
fn pass_tags(protocol: Protocol, body: &[u8]) -> Result<Follows<'_>, Skipped>
    ensures { Gives layer result (behind_tags protocol body.now) }
{
    let mut protocol = protocol;
    let mut body = body;
    'tags: while let Protocol::Tag = protocol {
        if body.len() < 4 {
            return Err(Skipped::Short(Header::Tag));
        }
        protocol = ethertype(u16_at(ByteOrder::Big, body, 2));
        let (_tag, rest) = body.split_at(4);
        body = rest;
    }
    Ok(Follows { protocol, body })
}

// Passes over the header of a session.
#[tactic(auto, unfolding(book_captures::specs::Frames::behind_session))]
fn pass_session(protocol: Protocol, body: &[u8]) -> Result<Follows<'_>, Skipped>
    ensures { Gives layer result (behind_session protocol body.now) }
{
    let Protocol::Session = protocol else {
        return Ok(Follows { protocol, body });
    };
    if body.len() < 8 {
        return Err(Skipped::Short(Header::Session));
    }
    if u16_at(ByteOrder::Big, body, 0) != 0x1100 {
        return Err(Skipped::NotSession);
    }
    let protocol = ppp(u16_at(ByteOrder::Big, body, 6));
    let (_header, body) = body.split_at(8);
    Ok(Follows { protocol, body })
}

// Passes over a stack of labels.
#[tactic(auto, unfolding(book_captures::specs::Frames::behind_labels))]
fn pass_labels(protocol: Protocol, body: &[u8]) -> Result<Follows<'_>, Skipped>
    ensures { Gives layer result (behind_labels protocol body.now) }
{
    let Protocol::Labels = protocol else {
        return Ok(Follows { protocol, body });
    };
    pass_stack(body)
}

#[tactic(auto, unfolding(book_captures::specs::Frames::behind_labels))]
fn pass_stack(body: &[u8]) -> Result<Follows<'_>, Skipped>
    ensures { Gives layer result (behind_labels Protocol.Labels body.now) }
{
    let mut body = body;
    'labels: loop {
        match body {
            [_, _, low, _, rest @ ..] => {
                if *low % 2 == 1 {
                    return Ok(Follows {
                        protocol: Protocol::Ip,
                        body: rest,
                    });
                }
                body = rest;
            }
            _ => return Err(Skipped::Short(Header::Label)),
        }
    }
}
