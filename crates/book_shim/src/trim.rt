//! What may be left out of a segment's options.

/// Which options of a segment go out beside TCP-AO.
#[derive(Clone, Copy, Debug, PartialEq, Eq)]
pub struct Trim {
    /// How many blocks of selective acknowledgements, at most.
    pub blocks: u8,
    /// Options that only fill up are left out.
    pub packed: bool,
    /// Multipath and Fast Open are left out.
    pub bare: bool,
}
