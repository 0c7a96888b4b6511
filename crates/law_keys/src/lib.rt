//! The first finding of a key file that isn't read is of the fault for which it isn't: of its node, its row and its
//! column. A theorem alone, as the contract of an empty function.
#![tactic(auto)]

mod laws;
mod plan_laws;

pub use laws::first_finding_is_the_fault;
pub use plan_laws::{
    accepting_ways_mend, reconfigured_ends_are_aligned, sending_ways_mend, told_ways_mend,
};
