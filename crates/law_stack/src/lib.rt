//! What holds of every run of a node that runs by itself. Theorems alone, as contracts of empty
//! functions.
#![tactic(auto)]

mod laws;

pub use laws::{
    each_is_single, handed_is_taken_alike, nothing_due_is_left, nothing_is_due_before_the_deadline,
    output_comes_to_rest, runs_are_a_nodes,
};
