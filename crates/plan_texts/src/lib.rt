//! What of planned rollovers stands in their lines, their bars and their pictures alike: what a connection
//! and a row are called, that no node has an address, and two times.
#![tactic(auto)]

mod lines;
mod names;
mod rows;

pub use lines::{push_missing, push_missing_words, push_pair, push_pair_line, push_times};
pub use names::admin_name;
pub use rows::{push_admin, push_row_name, row_name, row_numbered};
