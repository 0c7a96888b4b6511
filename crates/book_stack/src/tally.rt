//! What is kept of a connection.

use crate::counters::Counters;
use crate::key_ids::KeyIdsSeen;

/// What was counted at a connection since it began, and the key ids that it sent and heard last.
#[derive(Clone, Copy, Debug, PartialEq, Eq)]
pub struct Tally {
    pub counters: Counters,
    pub ids: KeyIdsSeen,
}
