//! How a MAC is made, step by step.
ghost use Rattle.std.specs.Prelude.{◌≡◌, ◌≤◌, ◌++◌, IfOk, length, if◌then◌else◌};
ghost use Rattle.sha1.specs.Sha1.{sha1};
ghost use Rattle.sha2.specs.Sha256.{sha256};
ghost use Rattle.book_base.specs.Algorithms.{mac_length_of};
ghost use Rattle.book_macs.specs.Ciphers as ciphers;
ghost use Rattle.book_macs.specs.Hmac.{hmac};
ghost use Rattle.book_segments.specs.Options.{One, find_ao};
ghost use Rattle.book_why.specs.Recipes.{mac_made, part_of, recipe_by};
ghost use Rattle.tcp_segment.specs.Views.{view_ao};
ghost use Rattle.scope_why.specs.MacsViews.{choices_view, recipe_view};

use crate::choices::MacChoices;
use crate::context::derivation_of;
use crate::macs_front::front_of;
use ao_kdf::{Cmac, HmacSha1, HmacSha256, prf};
use book_base::Algorithm;
use book_why::MacPart;
use std::alloc::{AllocError, Global};
use tcp_segment::{AoOption, Datagram};

/// How a MAC is made: the algorithm, the master key, what the key derivation hashes, what the MAC is
/// computed over, in two pieces, and which part of the whole MAC is sent.
#[derive(Drop)]
pub struct Recipe<'a> {
    pub algorithm: Algorithm,
    pub master: Vec<u8>,
    pub derivation: Vec<u8>,
    /// What stands in front of the payload in the MAC's input.
    pub front: Vec<u8>,
    pub payload: &'a [u8],
    pub part: MacPart,
    /// How many bytes are sent.
    pub taken: u8,
}

// How many bytes of a MAC are sent (RFC 5926, section 3.2).
fn bytes_sent(algorithm: Algorithm, cut: bool) -> u8
    ensures length { result ≡ if cut then 12 else mac_length_of algorithm }
    ensures most { result ≤ 16 }
{
    if cut {
        return 12;
    }
    match algorithm {
        Algorithm::HmacSha1 => 12,
        Algorithm::AesCmac => 12,
        Algorithm::HmacSha256 => 16,
    }
}

/// The recipe of a segment by these choices (RFC 5925, sections 5.1 and 5.2).
pub fn recipe_by<'a>(
    alloc: Global,
    choices: MacChoices,
    datagram: &Datagram<'a>,
    ao: AoOption<'_>,
) -> Result<Recipe<'a>, AllocError>
    requires { find_ao datagram.now.area ≡ One (view_ao ao) }
    ensures recipe { IfOk result (λ recipe. recipe_view recipe
        ≡ recipe_by (choices_view choices) datagram.now (view_ao ao.entry)) }
    ensures most { IfOk result (λ recipe. recipe.taken ≤ 16) }
{
    let derivation = derivation_of(alloc, &choices)?;
    let front = front_of(alloc, &choices, datagram, ao)?;
    Ok(Recipe {
        algorithm: choices.algorithm,
        master: choices.master,
        derivation,
        front,
        payload: datagram.payload(),
        part: choices.part,
        taken: bytes_sent(choices.algorithm, choices.cut),
    })
}

pub(crate) fn hmac_sha1(key: &[u8], front: &[u8], rest: &[u8]) -> [u8; 20]
    ensures { result ≡ hmac sha1 key.now (front.now ++ rest.now) }
{
    let mut hasher = HmacSha1::new(key);
    hasher.update(front);
    hasher.update(rest);
    hasher.finish()
}

pub(crate) fn hmac_sha256(key: &[u8], front: &[u8], rest: &[u8]) -> [u8; 32]
    ensures { result ≡ hmac sha256 key.now (front.now ++ rest.now) }
{
    let mut hasher = HmacSha256::new(key);
    hasher.update(front);
    hasher.update(rest);
    hasher.finish()
}

fn cmac(key: &[u8; 16], front: &[u8], rest: &[u8]) -> [u8; 16]
    ensures { result ≡ ciphers.cmac key.now (front.now ++ rest.now) }
{
    let mut hasher = Cmac::new(key);
    hasher.update(front);
    hasher.update(rest);
    hasher.finish()
}

fn part_of(alloc: Global, part: MacPart, taken: u8, code: &[u8]) -> Result<Vec<u8>, AllocError>
    requires { taken ≤ length code.now }
    ensures { IfOk result (λ mac. mac.items ≡ part_of part taken code.now) }
{
    let taken = usize::from(taken);
    match part {
        MacPart::First => code[..taken].to_vec(alloc),
        MacPart::Last => code[code.len() - taken..].to_vec(alloc),
    }
}

/// The MAC that a recipe makes (RFC 5925, sections 5.1 and 5.2).
#[tactic(auto, unfolding(book_why::specs::Recipes::mac_made))]
pub fn mac_made(alloc: Global, recipe: &Recipe<'_>) -> Result<Vec<u8>, AllocError>
    requires { recipe.now.taken ≤ 16 }
    ensures { IfOk result (λ mac. mac.items ≡ mac_made (recipe_view recipe.now)) }
{
    let master = recipe.master.as_slice();
    let derivation = recipe.derivation.as_slice();
    let front = recipe.front.as_slice();
    match recipe.algorithm {
        Algorithm::HmacSha1 => {
            let key = hmac_sha1(master, &[], derivation);
            let code = hmac_sha1(&key, front, recipe.payload);
            part_of(alloc, recipe.part, recipe.taken, &code)
        }
        Algorithm::AesCmac => {
            let key = prf(master, derivation);
            let code = cmac(&key, front, recipe.payload);
            part_of(alloc, recipe.part, recipe.taken, &code)
        }
        Algorithm::HmacSha256 => {
            let key = hmac_sha256(master, &[], derivation);
            let code = hmac_sha256(&key, front, recipe.payload);
            part_of(alloc, recipe.part, recipe.taken, &code)
        }
    }
}
