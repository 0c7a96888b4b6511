//! The text of a ladder: a line for each rung of a run, between two upright strokes for the two ends, as
//! the book's `Ladders` says. Our own format.
#![tactic(auto)]

mod fates;
mod labels;
mod ladder;
mod lines;
mod margins;

pub use fates::Seen;
pub use labels::{push_arrival, push_sketch};
pub use ladder::{print_ladder, push_margin, rung_comes, rung_end};
pub use lines::{push_arrow, push_names, push_times};
