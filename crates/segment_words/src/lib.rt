//! The words for why bytes are no datagram, for what the check finds of a segment, for its checksum, and for
//! the phases of a connection.
#![tactic(auto)]

mod checksum;
mod fault;
mod phase;
mod verdict;

pub use checksum::{checksum_in, push_checksum};
pub use fault::{push_fault, push_fault_text};
pub use phase::phase_word;
pub use verdict::verdict_word;
