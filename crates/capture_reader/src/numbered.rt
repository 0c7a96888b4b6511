//! What a number in a header stands for.
ghost use Rattle.std.specs.Prelude.{◌≡◌};
ghost use Rattle.book_captures.specs.Frames as frames;

use book_captures::{LinkType, Protocol};

/// The link type of this number, where it is one of those that are read: 0, 1, 12, 101, 108, 113, 228, 229
/// and 276 (libpcap, link-layer header types).
pub fn link_type(number: u32) -> Option<LinkType>
    ensures { result ≡ frames.link_type number }
{
    match number {
        0 => Some(LinkType::BsdLoopback),
        1 => Some(LinkType::Ethernet),
        12 => Some(LinkType::RawIp),
        101 => Some(LinkType::RawIp),
        108 => Some(LinkType::BsdLoopback),
        113 => Some(LinkType::LinuxCooked),
        228 => Some(LinkType::RawIpv4),
        229 => Some(LinkType::RawIpv6),
        276 => Some(LinkType::LinuxCookedV2),
        _ => None,
    }
}

/// The protocol of an EtherType.
#[tactic(auto, unfolding(book_captures::specs::Frames::ethertype))]
pub(crate) fn ethertype(number: u16) -> Protocol
    ensures { result ≡ frames.ethertype number }
{
    match number {
        0x0800 => Protocol::Ipv4,
        0x86dd => Protocol::Ipv6,
        0x8100 => Protocol::Tag,
        0x88a8 => Protocol::Tag,
        0x9100 => Protocol::Tag,
        0x8864 => Protocol::Session,
        0x8847 => Protocol::Labels,
        0x8848 => Protocol::Labels,
        _ => Protocol::Other,
    }
}

/// The protocol of PPP's number.
#[tactic(auto, unfolding(book_captures::specs::Frames::ppp))]
pub(crate) fn ppp(number: u16) -> Protocol
    ensures { result ≡ frames.ppp number }
{
    match number {
        0x0021 => Protocol::Ipv4,
        0x0057 => Protocol::Ipv6,
        0x0281 => Protocol::Labels,
        0x0283 => Protocol::Labels,
        _ => Protocol::Other,
    }
}

/// The protocol of an address family.
#[tactic(auto, unfolding(book_captures::specs::Frames::family))]
pub(crate) fn family(number: u32) -> Protocol
    ensures { result ≡ frames.family number }
{
    match number {
        2 => Protocol::Ipv4,
        24 => Protocol::Ipv6,
        28 => Protocol::Ipv6,
        30 => Protocol::Ipv6,
        _ => Protocol::Other,
    }
}
