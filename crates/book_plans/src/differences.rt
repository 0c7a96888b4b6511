//! In which columns two rows differ.

/// In which columns (RFC 7210, section 2) a row of one end differs from one that accepts what a row of
/// the other end sends.
#[derive(Clone, Copy, Debug, PartialEq, Eq)]
pub struct Differences {
    /// Peers, LocalPort or PeerPort: it isn't for the connection.
    pub connection: bool,
    /// Direction: it isn't for what comes in.
    pub direction: bool,
    /// LocalKeyName: it isn't the PeerKeyName of the row that sends.
    pub key_id: bool,
    /// Key.
    pub master: bool,
    /// AlgID and KDF.
    pub algorithm: bool,
    /// ProtocolSpecificInfo: whether the MAC covers the TCP options.
    pub options: bool,
}

impl Differences {
    ghost use Rattle.std.specs.Prelude.{◌≡◌};
    ghost use Rattle.book_plans.specs.Differences.{is_alike};

    /// Whether there are none.
    pub fn is_none(&self) -> bool
        ensures { result ≡ is_alike self.now }
    {
        !self.connection
            && !self.direction
            && !self.key_id
            && !self.master
            && !self.algorithm
            && !self.options
    }
}
