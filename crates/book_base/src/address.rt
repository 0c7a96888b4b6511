//! Addresses of IP and the sockets over them.
ghost use Rattle.std.specs.Prelude.{◌≡◌, not};
ghost use Rattle.book_base.specs.Orders.{is_low, sorted_pair};

use std::cmp::Ordering;

/// An address of IPv4 or IPv6, its bytes in the order in which they are sent (RFC 791, section
/// 3.1; RFC 8200, section 3). In order IPv4 stands first, then the bytes decide.
#[derive(Clone, Copy, Debug, PartialEq, Eq, PartialOrd, Ord)]
pub enum Address {
    V4([u8; 4]),
    V6([u8; 16]),
}

/// An address with a port of TCP (RFC 9293, section 3.1). In order the ports decide, in which sockets
/// differ soonest, then the addresses.
#[derive(Clone, Copy, Debug, PartialEq, Eq, PartialOrd, Ord)]
pub struct Socket {
    pub port: u16,
    pub address: Address,
}

impl Socket {
    /// Whether this socket stands before the other one in the order of sockets, or is the same.
    pub fn is_low(self, other: Socket) -> bool
        ensures { result ≡ is_low self other }
    {
        !matches!(other.cmp(&self), Ordering::Less)
    }
}

/// The two sockets of a connection, as one end sees them; their addresses are of one family. In
/// order the local sockets decide, then the remote ones.
#[derive(Clone, Copy, Debug, PartialEq, Eq, PartialOrd, Ord)]
pub struct Pair {
    pub local: Socket,
    pub remote: Socket,
}

impl Pair {
    /// Two sockets in their order, which is the same for either direction: the lower one in the place
    /// of the local one.
    pub fn sorted(one: Socket, other: Socket) -> Pair
        ensures { result ≡ sorted_pair one other }
    {
        if one.is_low(other) {
            Pair {
                local: one,
                remote: other,
            }
        } else {
            Pair {
                local: other,
                remote: one,
            }
        }
    }
}
