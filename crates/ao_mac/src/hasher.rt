//! The MAC of what was fed to a hasher.
ghost use Rattle.std.specs.Prelude.{◌≡◌, ℕ, List, length};
ghost use Rattle.book_base.specs.Algorithms.{mac_length_of};
ghost use Rattle.book_base.specs.declared.algorithm.Algorithm.{Algorithm};
ghost use Rattle.book_macs.specs.Keys.{mac};
ghost use Rattle.ao_kdf.specs.Hashers.{StandsFor};

use crate::mac_bytes::MacBytes;
use ao_kdf::Hasher;

/// The MAC of all that was fed.
pub(crate) fn finish(hasher: Hasher) -> MacBytes
    ensures mac { (algorithm : Algorithm) (key fed : List ℕ) → StandsFor hasher algorithm key fed
        → result ≡ mac algorithm key fed }
    ensures length { (algorithm : Algorithm) (key fed : List ℕ) → StandsFor hasher algorithm key fed
        → length result ≡ mac_length_of algorithm }
{
    match hasher {
        Hasher::Sha1(hmac) => MacBytes::front_of(hmac.finish(), 12),
        Hasher::Cmac(cmac) => MacBytes::front_of(cmac.finish(), 12),
        Hasher::Sha256(hmac) => MacBytes::front_of(hmac.finish(), 16),
    }
}
