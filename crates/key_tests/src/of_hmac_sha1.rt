//! A message whole and in pieces. The other vectors of RFC 2202 and RFC 4231 stand in the examples of `vectors`.
ghost use Rattle.std.specs.Prelude.{◌<◌};

use ao_kdf::{HmacSha1, HmacSha256};

/// More bytes than a message of these vectors has: it is fed whole.
const WHOLE: usize = 200;

fn sha1_in_pieces(key: &[u8], message: &[u8], most: usize) -> [u8; 20]
    requires { 0 < most }
{
    let mut hasher = HmacSha1::new(key);
    for piece in message.chunks(most) {
        hasher.update(piece);
    }
    hasher.finish()
}

fn sha256_in_pieces(key: &[u8], message: &[u8], most: usize) -> [u8; 32]
    requires { 0 < most }
{
    let mut hasher = HmacSha256::new(key);
    for piece in message.chunks(most) {
        hasher.update(piece);
    }
    hasher.finish()
}

/// Whether a message has this HMAC-SHA-1, whole and in pieces of 1, 15, 16 and 17 bytes.
fn has_sha1(key: &[u8], message: &[u8], code: &[u8; 20]) -> bool {
    sha1_in_pieces(key, message, WHOLE) == *code
        && sha1_in_pieces(key, message, 1) == *code
        && sha1_in_pieces(key, message, 15) == *code
        && sha1_in_pieces(key, message, 16) == *code
        && sha1_in_pieces(key, message, 17) == *code
}

/// Whether a message has this HMAC-SHA-256, whole and in pieces of 1, 15, 16 and 17 bytes.
fn has_sha256(key: &[u8], message: &[u8], code: &[u8; 32]) -> bool {
    sha256_in_pieces(key, message, WHOLE) == *code
        && sha256_in_pieces(key, message, 1) == *code
        && sha256_in_pieces(key, message, 15) == *code
        && sha256_in_pieces(key, message, 16) == *code
        && sha256_in_pieces(key, message, 17) == *code
}

/// RFC 2202, section 3, case 7.
#[test]
fn sha1_under_a_key_over_a_block(rt: HostRuntime) {
    let code = b"\xe8\xe9\x9d\x0f\x45\x23\x7d\x78\x6d\x6b\xba\xa7\x96\x5c\x78\x08\xbb\xff\x1a\x91";
    let message = b"Test Using Larger Than Block-Size Key and Larger Than One Block-Size Data";
    assert!(rt; has_sha1(&[0xaa; 80], message, code));
}

/// RFC 4231, section 4, case 7.
#[test]
fn sha256_under_a_key_over_a_block(rt: HostRuntime) {
    let code = b"\x9b\x09\xff\xa7\x1b\x94\x2f\xcb\x27\x63\x5f\xbc\xd5\xb0\xe9\x44\
        \xbf\xdc\x63\x64\x4f\x07\x13\x93\x8a\x7f\x51\x53\x5c\x3a\x35\xe2";
    let message =
        b"This is a test using a larger than block-size key and a larger than block-size data. \
        The key needs to be hashed before being used by the HMAC algorithm.";
    assert!(rt; has_sha256(&[0xaa; 131], message, code));
}
