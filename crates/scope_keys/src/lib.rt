//! What is wrong with a key file, told to the person who writes it: all faulty fields of all rows and nodes,
//! each with its place in the text, its value and what is wanted.
#![tactic(auto)]

mod fields;
mod file;
mod found;
mod node;
mod nodes;
mod reading;
mod refused;
mod report;
mod seen;
mod toml_fault;

pub use file::findings;
pub use found::findings_of;
pub use reading::{KeyFile, read_key_file};
pub use report::answer_keys;
