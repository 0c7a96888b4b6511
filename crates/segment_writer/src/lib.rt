//! One segment of an end, written and sealed (RFC 9293, section 3.1; RFC 5925, section 7.4).
//!
//! `write_segment` lays out the head of a segment in the caller's buffer, copies its payload once from
//! the send queue, puts in its MAC and sets its checksums. It takes no memory. What then stands in the
//! buffer is the segment that the definitions make of the same draft.
#![tactic(auto)]

mod head;
mod laws;
mod outgoing;
mod write;

pub use head::own_mss;
pub use laws::heads_are_drafts;
pub use outgoing::{Outgoing, Piece, Written};
pub use write::write_segment;
