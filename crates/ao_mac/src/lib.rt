//! The MAC of a segment (RFC 5925, section 5.1) over its parts as they lie in the caller's buffer.
//!
//! `mac_over` computes it with the TCP-AO option that was found, `mac` looks for that option first,
//! `seal` puts the MAC into a segment that is being written, and `same_input` tells whether the MACs
//! of two segments are computed over the same bytes. Nothing here takes memory or copies a payload.
#![tactic(auto)]

mod front;
mod hasher;
mod inputs;
mod mac_bytes;
mod macs;
mod seals;

pub use inputs::{MacInput, same_input};
pub use mac_bytes::MacBytes;
pub use macs::{mac, mac_over};
pub use seals::seal;
