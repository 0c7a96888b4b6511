//! The key ids of a connection, as they stand on the wire.

/// The ids of one TCP-AO option (RFC 5925, section 2.2).
#[derive(Clone, Copy, Debug, PartialEq, Eq)]
pub struct KeyIds {
    /// KeyID: the key of the segment's MAC.
    pub key_id: u8,
    /// RNextKeyID: the key that the sender is ready to receive with.
    pub rnext_key_id: u8,
}

/// The key ids that a connection sent and heard last. They are there once there was a segment.
#[derive(Clone, Copy, Debug, PartialEq, Eq)]
pub struct KeyIdsSeen {
    /// Of the last segment that was sent: its own current key, and the key that it asks its peer to send
    /// with.
    pub sent: Option<KeyIds>,
    /// Of the last segment that passed the check and moved the connection on, by an acknowledgement or by
    /// what was expected: the peer's current key, and the key that it asks to be sent with. What
    /// was taken once doesn't count when somebody sends it again, nor does a SYN alone.
    pub heard: Option<KeyIds>,
}
