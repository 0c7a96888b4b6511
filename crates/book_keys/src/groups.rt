//! Columns of a row that are read together.
use crate::direction::Direction;
use crate::lifetime::Lifetime;

/// The two ids of a row.
#[derive(Clone, Copy, Debug, PartialEq, Eq)]
pub struct Ids {
    /// LocalKeyName.
    pub recv_id: u8,
    /// PeerKeyName.
    pub send_id: u8,
}

/// For what and when a row is used.
#[derive(Clone, Copy, Debug, PartialEq, Eq)]
pub struct Terms {
    pub direction: Direction,
    pub sending: Lifetime,
    pub accepting: Lifetime,
}

/// The ports that a row is for; none is any port.
#[derive(Clone, Copy, Debug, PartialEq, Eq)]
pub struct Ports {
    pub local_port: Option<u16>,
    pub peer_port: Option<u16>,
}
