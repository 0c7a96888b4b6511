//! What holds of a link, and of two stacks, that lose nothing from a moment on: ends in step stay in step and
//! deliver all that was given, and enough round trips among other turns do so whatever was lost before. Theorems
//! alone, as contracts of empty functions.
#![tactic(auto)]

mod lossless;
mod meeting;
mod reaching;

pub use lossless::{a_handshake_leads_in_step, all_is_delivered, in_step_is_met, step_is_kept};
pub use meeting::{meeting_is_met, nothing_is_sent_twice, stacks_deliver};
pub use reaching::{catches_up_among, never_stuck_among, reaching_is_met};
