//! What each command answers to its input: its report, or why it made none.
#![tactic(auto)]

mod key_fault;
mod report;
mod stop;

pub use key_fault::push_key_fault;
pub use report::Report;
pub use stop::Stop;
