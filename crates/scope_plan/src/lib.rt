//! What is written of the planned rollovers of the connections of an input: the calendar of each, all that
//! is wrong with it and what to set, and by how much the clocks may be off.
#![tactic(auto)]

mod calendar;
mod columns;
mod connection;
mod connections;
mod differences;
mod drawn;
mod facing;
mod findings;
mod gap;
mod lifetimes;
mod notes;
mod planned;
mod plans;
mod reconfiguring;
mod refused;
mod shift;
mod short;
mod told;
mod ways;

pub use plans::answer_plan;
