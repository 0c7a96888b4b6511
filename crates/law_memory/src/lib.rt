//! What the program's top call does over files in memory: it gives the answer.
#![tactic(auto)]

mod memory;

pub use memory::answer_in_memory;
