//! What holds of every run of a node: each connection is as if it were alone. Theorems alone, as
//! contracts of empty functions.
#![tactic(auto)]

mod laws;

pub use laws::each_is_alone;
