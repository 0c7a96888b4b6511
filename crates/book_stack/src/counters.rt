//! Counters.

/// How often things happened at a node, or at one of its connections. Each is one more for each time,
/// up to the greatest number of 64 bits, where it stays. A SYN for a pair that isn't held and that the
/// check refuses counts by its cause, at the node alone.
#[derive(Clone, Copy, Debug, PartialEq, Eq)]
pub struct Counters {
    /// Segments that passed the check, whatever came of them.
    pub passed: u64,
    /// Bytes that are no datagram; of the node alone.
    pub bad: u64,
    /// Segments whose sockets aren't those of their connection; at a stack there are none, since a
    /// segment comes to the connection of its sockets.
    pub foreign: u64,
    /// Segments whose TCP checksum is wrong.
    pub checksum: u64,
    /// Segments for an end that is closed.
    pub closed: u64,
    /// Segments that the check refused: they have no TCP-AO option.
    pub no_ao: u64,
    /// They have more than one.
    pub two_ao: u64,
    /// They have TCP MD5 beside TCP-AO.
    pub with_md5: u64,
    /// No row takes segments with their KeyID.
    pub no_tuple: u64,
    /// A row does, but not at this time.
    pub expired: u64,
    /// Their MAC hasn't the length of the row's algorithm.
    pub mac_length: u64,
    /// The initial sequence numbers of their traffic key aren't known.
    pub no_context: u64,
    /// Their number is out of range.
    pub range: u64,
    /// Their MAC is wrong.
    pub bad_mac: u64,
    /// Datagrams for a pair that isn't held; of the node alone.
    pub no_connection: u64,
    /// SYNs that passed the check and knocked; of the node alone.
    pub knocks: u64,
    /// Segments that were sent for the first time.
    pub sent: u64,
    /// Segments that a timer sent again.
    pub sent_again: u64,
}
