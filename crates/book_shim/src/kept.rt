//! What is kept of a pair of sockets.

/// The two initial sequence numbers of a connection (RFC 5925, section 5.2).
#[derive(Clone, Copy, Debug, PartialEq, Eq)]
pub struct Isns {
    pub own: u32,
    pub peer: u32,
}

/// What is kept of a pair of sockets whose datagrams pass through.
#[derive(Clone, Copy, Debug, PartialEq, Eq)]
pub struct Kept {
    /// The initial sequence number of the own SYN that is out.
    pub opening: Option<u32>,
    /// That of the own SYN before it, which was given up.
    pub given_up: Option<u32>,
    /// Those of a SYN with ACK that answered the SYN given up: the own kernel will answer it by a RST.
    pub late: Option<Isns>,
    /// Those of the connection in use.
    pub isns: Option<Isns>,
    /// A segment without SYN was sent or heard in the connection in use.
    pub settled: bool,
    /// The number after the greatest that was sent in the connection.
    pub sent: u64,
    /// The number after the greatest that was heard in the connection.
    pub heard: u64,
    /// The row of the current key, from 1 on (RFC 5925, section 3.3).
    pub current: Option<u8>,
}
