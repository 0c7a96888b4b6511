//! What crosses between a C program and a shim.

use crate::shapes::CPair;

/// What became of a datagram.
#[repr(C)]
#[derive(Clone, Copy)]
pub struct CShimTold {
    /// Its sockets, the own one local; all zero where it is no datagram.
    pub pair: CPair,
    /// How many bytes stand in the room; 0 unless it goes on.
    pub length: usize,
    /// 0 where it goes on; else why it doesn't.
    pub cause: u8,
    /// Why, of bytes that are no datagram and of a segment that the check refuses; else 0.
    pub reason: u8,
    /// What is saved of its pair must be saved before it goes on.
    pub changed: bool,
}

/// What is saved of a connection.
#[repr(C)]
#[derive(Clone, Copy)]
pub struct CSaved {
    pub pair: CPair,
    pub sent: u64,
    pub heard: u64,
    pub own_isn: u32,
    pub peer_isn: u32,
    /// It has a current key.
    pub has_key: bool,
    /// The KeyID of its current key; 0 where it has none.
    pub key_id: u8,
}
