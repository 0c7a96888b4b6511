//! The flags of TCP.
ghost use Rattle.std.specs.Prelude.{◌≡◌, ◌<◌, ◌/◌, ◌%◌, ◌==◌};
ghost use Rattle.tcp_segment.specs.Flags.{bit_of_flag};

/// A flag of TCP (RFC 9293, section 3.1).
#[derive(Clone, Copy, Debug, PartialEq, Eq)]
pub enum Flag {
    /// The sender has no more bytes.
    Fin,
    /// The sequence numbers begin.
    Syn,
    /// The connection is reset.
    Rst,
    /// The bytes are handed on at once.
    Psh,
    /// The acknowledgement field says something.
    Ack,
}

impl Flag {
    /// The flag in a byte of flags, FIN lowest.
    pub fn bit(self) -> u8
        ensures bit { result ≡ bit_of_flag self }
        ensures some { 0 < result }
    {
        match self {
            Flag::Fin => 0x01,
            Flag::Syn => 0x02,
            Flag::Rst => 0x04,
            Flag::Psh => 0x08,
            Flag::Ack => 0x10,
        }
    }

    /// Whether the flag is set in a byte of flags.
    pub fn is_in(self, flags: u8) -> bool
        ensures { result ≡ ((flags / bit_of_flag self) % 2 == 1) }
    {
        flags / self.bit() % 2 == 1
    }
}
