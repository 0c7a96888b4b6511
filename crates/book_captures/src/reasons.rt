//! Why a packet is passed over.

/// A header on the way to a packet's datagram.
#[derive(Clone, Copy, Debug, PartialEq, Eq)]
pub enum Header {
    /// The link's.
    Link,
    /// A tag of IEEE 802.1Q.
    Tag,
    /// That of a session of PPPoE, with PPP's protocol.
    Session,
    /// A label of MPLS.
    Label,
    /// The datagram's own.
    Datagram,
}

/// Why a packet is passed over: it has no datagram, or its headers end too early.
#[derive(Clone, Copy, Debug, PartialEq, Eq)]
pub enum Skipped {
    /// The link type of its interface, which is this number, is none of those that are read.
    UnknownLink(u32),
    /// It carries something else than IP.
    NotIp,
    /// The first four bits of what should be IP are another version's.
    Version,
    /// A session's header of PPPoE isn't of version 1, type 1 and code 0.
    NotSession,
    /// The packet, as it was on the wire, ends in this header.
    Short(Header),
    /// The snapshot ends in this header; the packet didn't.
    Cut(Header),
}
