//! The algorithms of TCP-AO.
ghost use Rattle.std.specs.Prelude.{◌≡◌};
ghost use Rattle.book_base.specs.Algorithms.{algorithm_of, mac_length_of, name_of};

/// An algorithm for traffic keys and MACs: HMAC-SHA-1-96 or AES-128-CMAC-96 (RFC 5926, section
/// 3.2), or HMAC-SHA-256-128 (own).
#[derive(Clone, Copy, Debug, PartialEq, Eq)]
pub enum Algorithm {
    HmacSha1,
    AesCmac,
    HmacSha256,
}

impl Algorithm {
    /// The algorithm with this name; None exactly where no algorithm has it.
    pub fn named(word: &[u8]) -> Option<Algorithm>
        ensures { result ≡ algorithm_of word.now }
    {
        if word == b"HMAC-SHA-1-96".as_slice() {
            Some(Algorithm::HmacSha1)
        } else if word == b"AES-128-CMAC-96".as_slice() {
            Some(Algorithm::AesCmac)
        } else if word == b"HMAC-SHA-256-128".as_slice() {
            Some(Algorithm::HmacSha256)
        } else {
            None
        }
    }

    /// The name, as key files and link files write it.
    pub fn name(&self) -> &[u8]
        ensures { result.now ≡ name_of self.now }
    {
        match self {
            Algorithm::HmacSha1 => b"HMAC-SHA-1-96".as_slice(),
            Algorithm::AesCmac => b"AES-128-CMAC-96".as_slice(),
            Algorithm::HmacSha256 => b"HMAC-SHA-256-128".as_slice(),
        }
    }

    /// The number of bytes of a MAC: 12, 12 and 16 (RFC 5926, section 3.2, and own).
    pub fn mac_length(&self) -> u8
        ensures { result ≡ mac_length_of self.now }
    {
        match self {
            Algorithm::HmacSha1 => 12,
            Algorithm::AesCmac => 12,
            Algorithm::HmacSha256 => 16,
        }
    }
}
