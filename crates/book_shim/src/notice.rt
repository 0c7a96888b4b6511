//! What an ICMP datagram from the network is.

use book_base::Pair;

/// What an ICMP datagram from the network is.
#[derive(Clone, Copy, Debug, PartialEq, Eq)]
pub enum Notice {
    /// The bytes are no whole datagram that carries ICMP directly, or an error whose quote can't be read.
    Unread,
    /// A message that is no error, or an error that quotes no TCP.
    Other,
    /// An error that quotes a segment of the own kernel, between these sockets.
    Quotes(Pair),
}
