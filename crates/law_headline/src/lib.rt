//! What an operator may rely on in each run of a link, and that it holds of each link file over each
//! key file, and of each storm. Theorems alone, as contracts of empty functions.
#![tactic(auto)]

mod inputs;
mod lawful;

pub use inputs::{link_files_fit, link_files_get_through, storms_fit, tables_fit, timed_files_fit};
pub use lawful::{reports_end_in_counts, runs_are_lawful, runs_get_through};
