//! What an end does as single steps: the form over which the proofs of ends and of runs go, and that
//! it is what the book says.
#![tactic(auto)]

mod endpoint_laws;
mod laws;

pub use endpoint_laws::only_what_is_taken_moves;
pub use laws::{arrivals_by_steps, emit_by_drafts};
