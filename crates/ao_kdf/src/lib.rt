//! Traffic keys: a master key and the context of a connection make the key of a segment's MAC
//! (RFC 5925, section 5.2; RFC 5926, section 3.1).
//!
//! Each derivation counts one step, so that callers can bound how many they make. Nothing here takes
//! memory but a cache, when it is made.
#![tactic(auto)]

mod block;
mod cache;
mod cipher;
mod cmac_hasher;
mod hash;
mod hasher;
mod hmac;
mod input;
mod key;
mod subkeys;
mod table;
mod way;

pub use book_macs::Context;
pub use cache::KeyCache;
pub use cipher::Aes128;
pub use cmac_hasher::{Cmac, prf};
pub use hasher::Hasher;
pub use hmac::{Hmac, HmacSha1, HmacSha256};
pub use key::{TrafficKey, traffic_key};
pub use way::Way;

#[cfg(test)]
mod tests;
