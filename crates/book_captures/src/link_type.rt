//! What the packets of a capture begin with, and what follows a header.

/// What each packet of an interface begins with (libpcap, link-layer header types).
#[derive(Clone, Copy, Debug, PartialEq, Eq)]
pub enum LinkType {
    /// A header of Ethernet: 1.
    Ethernet,
    /// The header of IP, of either version: 101 and 12.
    RawIp,
    /// The header of IPv4: 228.
    RawIpv4,
    /// The header of IPv6: 229.
    RawIpv6,
    /// Linux's header of any interface, version 1: 113.
    LinuxCooked,
    /// Linux's header of any interface, version 2: 276.
    LinuxCookedV2,
    /// An address family, in the host's order of bytes (0) or the network's (108).
    BsdLoopback,
}

/// What follows a header.
#[derive(Clone, Copy, Debug, PartialEq, Eq)]
pub enum Protocol {
    /// IP of either version.
    Ip,
    /// IPv4.
    Ipv4,
    /// IPv6.
    Ipv6,
    /// A tag of IEEE 802.1Q.
    Tag,
    /// A session of PPPoE.
    Session,
    /// A stack of labels of MPLS.
    Labels,
    /// Something else.
    Other,
}
