//! The command `node`: a node's file is read line by line, its events happen at a node with many connections, and
//! a line is written for each answer. Our own format.
//!
//! The node itself stands in `stack_ends`.
#![tactic(auto)]

mod acts;
mod answers;
mod events;
mod head;
mod line_events;
mod lines;
mod name;
mod reader;
mod run;
mod told;

pub use answers::answer;
