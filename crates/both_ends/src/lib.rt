//! A value for each of the two ends of a link, and which of the two an end is.
#![tactic(auto)]

mod ends;
mod values;

pub use ends::{is_same_end, other};
pub use values::BothEnds;
