//! What is said of a datagram.

/// The version of IP.
#[derive(Clone, Copy, Debug, PartialEq, Eq)]
pub enum IpVersion {
    /// IPv4.
    V4,
    /// IPv6.
    V6,
}

/// How much of a datagram there is.
#[derive(Clone, Copy, Debug, PartialEq, Eq)]
pub enum Extent {
    /// All that its header says.
    Whole,
    /// Not all, since the snapshot cut the packet, which had room for the rest.
    Cut,
    /// Not all, and the packet, as it was on the wire, had no room for the rest: it is faulty.
    Short,
}
