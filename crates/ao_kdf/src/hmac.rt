//! HMAC over a hash.
ghost use Rattle.std.specs.Prelude.{◌≡◌, ◌++◌, List, [], ℕ, map, bit_xor};
ghost use Rattle.book_macs.specs.Hmac.{hmac, block_key};
ghost use Rattle.ao_kdf.specs.Hasher.{StandsFor};

use crate::hash::BlockHash;
use sha1::Sha1;
use sha2::Sha256;

/// The length of a block in bytes, of SHA-1 as of SHA-256 (RFC 2104, section 2).
const BLOCK_LEN: usize = 64;
/// The byte that the key is xored with before the message (RFC 2104, section 2).
const INNER_PAD: u8 = 0x36;
/// The byte that the key is xored with before the inner hash (RFC 2104, section 2).
const OUTER_PAD: u8 = 0x5c;

/// The HMAC, over a hash of `N` bytes, of the bytes fed to it (RFC 2104, section 2).
#[derive(Drop)]
pub struct Hmac<H, const N: usize> {
    inner: H,
    outer: H,
}

/// HMAC-SHA-1.
pub type HmacSha1 = Hmac<Sha1, 20>;

/// HMAC-SHA-256.
pub type HmacSha256 = Hmac<Sha256, 32>;

impl<H: BlockHash<N>, const N: usize> Hmac<H, N> {
    /// A hasher to which nothing was fed, under a key of any length.
    pub fn new(key: &[u8]) -> Hmac<H, N>
        ensures { StandsFor H.holds H.hash result key.now [] }
    {
        let block = block_of::<H, N>(key);
        let mut inner = H::empty();
        inner.feed(&xor_block(block, INNER_PAD));
        let mut outer = H::empty();
        outer.feed(&xor_block(block, OUTER_PAD));
        Hmac { inner, outer }
    }

    /// The same hasher again: a key that is kept ready as a hasher to which nothing was fed needs no
    /// block of its own to be hashed for each message.
    pub fn copied(&self) -> Hmac<H, N>
        ensures { result ≡ self.now }
    {
        Hmac {
            inner: self.inner.copied(),
            outer: self.outer.copied(),
        }
    }

    /// Feeds the next piece of the message, of any length.
    pub fn update(&mut self, piece: &[u8])
        ensures { (key fed : List ℕ) → StandsFor H.holds H.hash self.old key fed
            → StandsFor H.holds H.hash self.new key (fed ++ piece.now) }
    {
        self.inner.feed(piece);
    }

    /// The HMAC of all that was fed (RFC 2104, section 2).
    pub fn finish(self) -> [u8; N]
        ensures { (key fed : List ℕ) → StandsFor H.holds H.hash self key fed → result ≡ hmac H.hash key fed }
    {
        let Hmac { inner, mut outer } = self;
        outer.feed(&inner.hashed());
        outer.hashed()
    }
}

/// The key, or its hash where it is longer than a block, filled with zeros to a block.
fn block_of<H: BlockHash<N>, const N: usize>(key: &[u8]) -> [u8; BLOCK_LEN]
    ensures { result ≡ block_key H.hash key.now }
{
    let mut block = [0; BLOCK_LEN];
    if key.len() > BLOCK_LEN {
        let mut hasher = H::empty();
        hasher.feed(key);
        let hash = hasher.hashed();
        block[..N].copy_from_slice(&hash);
    } else {
        block[..key.len()].copy_from_slice(key);
    }
    block
}

/// The block with each byte xored with `pad`.
fn xor_block(mut block: [u8; BLOCK_LEN], pad: u8) -> [u8; BLOCK_LEN]
    ensures { result ≡ map (λ b. bit_xor b pad) block }
{
    for byte in block.iter_mut() {
        *byte ^= pad;
    }
    block
}
