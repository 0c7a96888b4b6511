//! A hasher of each algorithm.
ghost use Rattle.std.specs.Prelude.{◌≡◌, ℕ, List, [], ◌++◌, length};
ghost use Rattle.book_base.specs.declared.algorithm.Algorithm.{Algorithm};
ghost use Rattle.book_base.specs.declared.algorithm.Algorithm.TheVariants.{AesCmac};
ghost use Rattle.ao_kdf.specs.Hashers.{StandsFor};

use crate::cmac_hasher::Cmac;
use crate::hmac::{HmacSha1, HmacSha256};
use book_base::Algorithm;

/// HMAC-SHA-1, AES-CMAC (RFC 5926, section 3.2) or HMAC-SHA-256 of the bytes fed to it under a
/// traffic key.
#[derive(Drop)]
pub enum Hasher {
    /// HMAC-SHA-1.
    Sha1(HmacSha1),
    /// AES-CMAC.
    Cmac(Cmac),
    /// HMAC-SHA-256.
    Sha256(HmacSha256),
}

impl Hasher {
    /// A hasher to which nothing was fed, under a key.
    pub(crate) fn under(algorithm: Algorithm, key: &[u8]) -> Hasher
        requires { algorithm ≡ AesCmac → length key.now ≡ 16 }
        ensures { StandsFor result algorithm key.now [] }
    {
        match algorithm {
            Algorithm::HmacSha1 => Hasher::Sha1(HmacSha1::new(key)),
            Algorithm::AesCmac => {
                let mut block = [0; 16];
                block.copy_from_slice(key);
                Hasher::Cmac(Cmac::new(&block))
            }
            Algorithm::HmacSha256 => Hasher::Sha256(HmacSha256::new(key)),
        }
    }

    /// The same hasher again.
    pub(crate) fn copied(&self) -> Hasher
        ensures { result ≡ self.now }
    {
        match self {
            Hasher::Sha1(hmac) => Hasher::Sha1(hmac.copied()),
            Hasher::Cmac(cmac) => Hasher::Cmac(cmac.copied()),
            Hasher::Sha256(hmac) => Hasher::Sha256(hmac.copied()),
        }
    }

    /// Feeds the next piece of the message, of any length.
    pub fn feed(&mut self, piece: &[u8])
        ensures { (algorithm : Algorithm) (key fed : List ℕ) → StandsFor self.old algorithm key fed
            → StandsFor self.new algorithm key (fed ++ piece.now) }
    {
        match self {
            Hasher::Sha1(hmac) => hmac.update(piece),
            Hasher::Cmac(cmac) => cmac.update(piece),
            Hasher::Sha256(hmac) => hmac.update(piece),
        }
    }
}
