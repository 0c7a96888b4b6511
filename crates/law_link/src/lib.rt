//! What holds of every run of a link, over every setup and every list of events: prefix, end of
//! stream, acknowledgement, rollover, no gap, origin and reset, and what they stand on. Theorems
//! alone, as contracts of empty functions.
#![tactic(auto)]

mod headline;
mod laws;
mod runs;

pub use headline::{
    acknowledges, delivers_in_order, ends_whole, gives_few, one_partner, receives_given,
};
pub use laws::{has_origin, never_keyless, resets_by_abort, rolls_over};
pub use runs::{
    carries_given, idle_exactly, nothing_is_unmade, runs_go_on, sessions_only_grow, what_was_made,
};
