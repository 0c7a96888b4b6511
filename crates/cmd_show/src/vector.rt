//! The vector that a line says.
ghost use Rattle.std.specs.Prelude.{◌≡◌, ◌≤◌, length, Ok};
ghost use Rattle.sha1.specs.Sha1.{sha1};
ghost use Rattle.sha2.specs.Sha256.{sha256};
ghost use Rattle.book_macs.specs.Ciphers.{aes, cmac, prf as prf_of};
ghost use Rattle.book_macs.specs.Hmac.{hmac};
ghost use Rattle.ao_mac.specs.Macs.{HasAo};
ghost use Rattle.text_lines.specs.Readings.{Tells, gives};
ghost use Rattle.cmd_show.specs.Signed.{IsMadeVector};
ghost use Rattle.book_cmd_check.specs.Vectors.{aes_vector, cmac_vector, kdf_vector, keyed_of, keyed_vector};
ghost use Rattle.book_cmd_check.specs.Vectors.{making_in, segment_vector, vector_named, vector_of};

use crate::keys::{key_of, read_context};
use crate::signed::{Making, SignedDatagram, mac_of, signed};
use crate::vector_words::{block, context, covering, message};
use ao_kdf::{Aes128, Cmac, HmacSha1, HmacSha256, prf};
use book_base::{Algorithm, Bytes};
use book_keys::LONGEST_MASTER_KEY;
use book_lines::LineKind;
use std::alloc::Global;
use std::marker::Model;
use text_lines::{LineWords, WordProblem};

/// A test vector: what is computed, and what the line says.
#[derive(Drop)]
pub(crate) struct Vector {
    pub(crate) computed: Bytes,
    pub(crate) expected: Bytes,
}

impl Model for Vector {
    ghost use Rattle.book_cmd_check.specs.Vectors.{Vector as Two};

    ghost Value = { Two };

    ghost view = { λ v. record { computed = v.computed; expected = v.expected } };
}

impl Vector {
    fn new(alloc: Global, computed: &[u8], expected: Bytes) -> Result<Vector, WordProblem>
        ensures { Tells result (Ok (record { computed = computed.now; expected = expected })) }
    {
        let computed = Bytes::from_vec(Vec::from_slice(alloc, computed)?);
        Ok(Vector { computed, expected })
    }
}

/// A key, a message, and what the line says that an algorithm makes of them.
#[derive(Drop)]
struct Keyed {
    key: Bytes,
    message: Bytes,
    expected: Bytes,
}

impl Model for Keyed {
    ghost use Rattle.book_cmd_check.specs.Vectors.{Keyed as Three};

    ghost Value = { Three };

    ghost view = { λ k. record { key = k.key; message = k.message; expected = k.expected } };
}

impl Keyed {
    #[tactic(auto, unfolding(book_cmd_check::specs::Vectors::keyed_of))]
    fn read(alloc: Global, words: &mut LineWords) -> Result<Keyed, WordProblem>
        ensures { Tells result (keyed_of words.old) }
    {
        let key = words.hex(alloc)?;
        let message = message(alloc, words)?;
        let expected = words.hex(alloc)?;
        words.nothing()?;
        Ok(Keyed {
            key,
            message,
            expected,
        })
    }
}

fn hmac_sha1_of(key: &[u8], message: &[u8]) -> [u8; 20]
    ensures { result ≡ hmac sha1 key.now message.now }
{
    let mut hasher = HmacSha1::new(key);
    hasher.update(message);
    hasher.finish()
}

fn hmac_sha256_of(key: &[u8], message: &[u8]) -> [u8; 32]
    ensures { result ≡ hmac sha256 key.now message.now }
{
    let mut hasher = HmacSha256::new(key);
    hasher.update(message);
    hasher.finish()
}

fn cmac_of(key: &[u8; 16], message: &[u8]) -> [u8; 16]
    ensures { result ≡ cmac key.now message.now }
{
    let mut hasher = Cmac::new(key);
    hasher.update(message);
    hasher.finish()
}

fn aes_of(key: &[u8; 16], block: &[u8; 16]) -> [u8; 16]
    ensures { result ≡ aes key.now block.now }
{
    Aes128::new(key).encrypt(block)
}

fn hmac_vector(alloc: Global, words: &mut LineWords) -> Result<Vector, WordProblem>
    ensures { Tells result (keyed_vector (hmac sha1) words.old) }
{
    let keyed = Keyed::read(alloc, words)?;
    let computed = hmac_sha1_of(keyed.key.as_slice(), keyed.message.as_slice());
    Vector::new(alloc, &computed, keyed.expected)
}

fn hmac256_vector(alloc: Global, words: &mut LineWords) -> Result<Vector, WordProblem>
    ensures { Tells result (keyed_vector (hmac sha256) words.old) }
{
    let keyed = Keyed::read(alloc, words)?;
    let computed = hmac_sha256_of(keyed.key.as_slice(), keyed.message.as_slice());
    Vector::new(alloc, &computed, keyed.expected)
}

fn prf_vector(alloc: Global, words: &mut LineWords) -> Result<Vector, WordProblem>
    ensures { Tells result (keyed_vector prf_of words.old) }
{
    let keyed = Keyed::read(alloc, words)?;
    let computed = prf(keyed.key.as_slice(), keyed.message.as_slice());
    Vector::new(alloc, &computed, keyed.expected)
}

#[tactic(auto, unfolding(book_cmd_check::specs::Vectors::cmac_vector))]
fn cmac_vector(alloc: Global, words: &mut LineWords) -> Result<Vector, WordProblem>
    ensures { Tells result (cmac_vector words.old) }
{
    let key = block(alloc, words)?;
    let message = message(alloc, words)?;
    let expected = words.hex(alloc)?;
    words.nothing()?;
    Vector::new(alloc, &cmac_of(&key, message.as_slice()), expected)
}

#[tactic(auto, unfolding(book_cmd_check::specs::Vectors::aes_vector))]
fn aes_vector(alloc: Global, words: &mut LineWords) -> Result<Vector, WordProblem>
    ensures { Tells result (aes_vector words.old) }
{
    let key = block(alloc, words)?;
    let plain = block(alloc, words)?;
    let expected = words.hex(alloc)?;
    words.nothing()?;
    Vector::new(alloc, &aes_of(&key, &plain), expected)
}

#[tactic(auto, unfolding(book_cmd_check::specs::Vectors::kdf_vector))]
fn kdf_vector(alloc: Global, words: &mut LineWords) -> Result<Vector, WordProblem>
    ensures { Tells result (kdf_vector words.old) }
{
    let alg = words.algorithm()?;
    let master = words.sized_hex(alloc, 1, LONGEST_MASTER_KEY)?;
    let context = context(alloc, words)?;
    let expected = words.hex(alloc)?;
    words.nothing()?;
    let key = key_of(alg, master.as_slice(), &read_context(context.as_slice()));
    Vector::new(alloc, key.as_slice(), expected)
}

/// The vector of a datagram, whose MAC is computed and compared with the one in it.
fn vector_made(
    alloc: Global,
    master: &[u8],
    making: &Making,
    signed: &SignedDatagram<'_>,
) -> Result<Vector, WordProblem>
    requires one { HasAo signed.now.datagram }
    ensures { IsMadeVector master.now making.now signed.now result }
{
    let made = mac_of(master, making, &signed.datagram);
    let expected = Bytes::from_vec(Vec::from_slice(alloc, signed.mac)?);
    Vector::new(alloc, made.as_slice(), expected)
}

#[tactic(auto, unfolding(book_cmd_check::specs::Vectors::making_in))]
fn making(words: &mut LineWords, algorithm: Algorithm) -> Result<Making, LineKind>
    ensures { gives result words.new ≡ making_in algorithm words.old }
{
    let source_isn = words.long()?;
    let dest_isn = words.long()?;
    let extension = words.long()?;
    let covering = covering(words)?;
    Ok(Making {
        algorithm,
        source_isn,
        dest_isn,
        extension,
        covering,
    })
}

#[tactic(auto, unfolding(book_cmd_check::specs::Vectors::segment_vector))]
fn segment_vector(alloc: Global, words: &mut LineWords) -> Result<Vector, WordProblem>
    ensures { Tells result (segment_vector words.old) }
{
    let algorithm = words.algorithm()?;
    let master = words.sized_hex(alloc, 1, LONGEST_MASTER_KEY)?;
    let making = making(words, algorithm)?;
    let bytes = words.hex(alloc)?;
    let Some(signed) = signed(algorithm, bytes.as_slice()) else {
        return Err(WordProblem::Kind(LineKind::Range));
    };
    words.nothing()?;
    vector_made(alloc, master.as_slice(), &making, &signed)
}

#[tactic(auto, unfolding(book_cmd_check::specs::Vectors::vector_named))]
fn vector_named(alloc: Global, name: &[u8], words: &mut LineWords) -> Result<Vector, WordProblem>
    ensures { Tells result (vector_named name.now words.old) }
{
    if name == b"hmac".as_slice() {
        hmac_vector(alloc, words)
    } else if name == b"hmac256".as_slice() {
        hmac256_vector(alloc, words)
    } else if name == b"aes".as_slice() {
        aes_vector(alloc, words)
    } else if name == b"cmac".as_slice() {
        cmac_vector(alloc, words)
    } else if name == b"prf".as_slice() {
        prf_vector(alloc, words)
    } else if name == b"kdf".as_slice() {
        kdf_vector(alloc, words)
    } else if name == b"segment".as_slice() {
        segment_vector(alloc, words)
    } else {
        Err(WordProblem::Kind(LineKind::Word))
    }
}

/// The vector that a line says.
#[tactic(auto, unfolding(book_cmd_check::specs::Vectors::vector_of))]
pub(crate) fn read_vector(alloc: Global, words: &mut LineWords) -> Result<Vector, WordProblem>
    ensures { Tells result (vector_of words.old) }
{
    let name = words.word()?;
    vector_named(alloc, name, words)
}
