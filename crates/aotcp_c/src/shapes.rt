//! What crosses between a C program and a stack.

/// The two sockets of a connection, as one end sees them. `family` is 4 or 6; an address of IPv4 is the
/// first four bytes.
#[repr(C)]
#[derive(Clone, Copy)]
pub struct CPair {
    pub family: u8,
    pub local: [u8; 16],
    pub remote: [u8; 16],
    pub local_port: u16,
    pub remote_port: u16,
}

/// An address. `family` is 4 or 6; an address of IPv4 is the first four bytes.
#[repr(C)]
#[derive(Clone, Copy)]
pub struct CAddress {
    pub family: u8,
    pub bytes: [u8; 16],
}

/// Why a key file isn't read: 1 memory, 2 no TOML, 3 a column, 4 too many nodes or rows, 5 two rows that
/// overlap; with the node, the row, and the column or the second row.
#[repr(C)]
#[derive(Clone, Copy)]
pub struct CFault {
    pub kind: u8,
    pub node: u8,
    pub row: u8,
    pub other: u8,
}

/// What a datagram that came was answered.
#[repr(C)]
#[derive(Clone, Copy)]
pub struct CHeard {
    /// Of the segment that passed the check, in its peer's stream; else 0.
    pub number: u64,
    /// The end that answered, or the pair that the SYN is for; else all zero.
    pub pair: CPair,
    /// Which answer.
    pub answer: u8,
    /// Why, of bytes that are no datagram and of a segment that the check refuses; else 0.
    pub reason: u8,
    /// The check passed the segment.
    pub passed: bool,
    /// The row under which it passed; else 0.
    pub row: u8,
}

/// Bytes that were taken.
#[repr(C)]
#[derive(Clone, Copy)]
pub struct CTaken {
    /// How many they are.
    pub count: usize,
    /// The end of the peer's stream is reached.
    pub at_end: bool,
}

/// Where an end stands.
#[repr(C)]
#[derive(Clone, Copy)]
pub struct CState {
    pub una: u64,
    pub next: u64,
    pub phase: u8,
}

/// A row of a table, but for its master key. Times are seconds since 1970, both included.
#[repr(C)]
#[derive(Clone, Copy)]
pub struct CRow {
    pub send_first: u64,
    pub send_last: u64,
    pub accept_first: u64,
    pub accept_last: u64,
    pub recv_id: u8,
    pub send_id: u8,
    /// 0 HMAC-SHA-1-96, 1 AES-128-CMAC-96, 2 HMAC-SHA-256-128.
    pub algorithm: u8,
    /// 0 receive, 1 send, 2 both, 3 disabled.
    pub direction: u8,
    /// The MAC covers the TCP options.
    pub with_options: bool,
    /// The row is for any peer and any ports. Nothing reads it.
    pub for_all: bool,
}

/// The key ids of the last segment that was sent, or that passed the check; all zero where there is none.
#[repr(C)]
#[derive(Clone, Copy)]
pub struct CKeyIds {
    pub there: bool,
    pub key_id: u8,
    pub rnext_key_id: u8,
}

/// What was counted at a connection or at a node, each up to 2^64 - 1, and the key ids of a connection.
#[repr(C)]
#[derive(Clone, Copy)]
pub struct CCounters {
    pub passed: u64,
    pub bad: u64,
    pub foreign: u64,
    pub checksum: u64,
    pub closed: u64,
    pub no_ao: u64,
    pub two_ao: u64,
    pub with_md5: u64,
    pub no_row: u64,
    pub expired: u64,
    pub mac_length: u64,
    pub no_context: u64,
    pub range: u64,
    pub bad_mac: u64,
    pub no_connection: u64,
    pub knocks: u64,
    pub sent: u64,
    pub sent_again: u64,
    pub ids_sent: CKeyIds,
    pub ids_heard: CKeyIds,
}
