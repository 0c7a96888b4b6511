//! What is known of a connection beside the stored datagrams.
use book_base::Socket;

/// The initial sequence numbers of a connection, each of the side with this socket (RFC 9293, section 3.5).
#[derive(Clone, Copy, Debug, PartialEq, Eq)]
pub struct GivenIsns {
    pub one: Socket,
    pub one_isn: u32,
    pub other: Socket,
    pub other_isn: u32,
}
