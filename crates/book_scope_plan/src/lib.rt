//! What is written of planned rollovers for those who operate routers: the line that names a connection,
//! the calendar of its keys, all that is wrong and what to set, and by how much the clocks may be off.
//! Definitions, with the plain types that code shares with them; the empty functions carry theorems about
//! them.
#![tactic(auto)]

mod bar;
mod duty;
mod form;
mod gap_seconds;
mod laws;
mod picture_laws;
mod slice;
mod told;
mod two_times;

pub use bar::Bar;
pub use duty::{Duty, Filling};
pub use form::PlanForm;
pub use gap_seconds::GapSeconds;
pub use laws::{aligned_plans_are_of_lint, good_plans_say_aligned, unchanged_keys_stay};
pub use picture_laws::{
    bars_are_few, bars_are_of_the_rows, marks_are_of_the_plan, slices_are_of_the_time,
    what_is_compared_is_together,
};
pub use slice::Slice;
pub use told::Told;
pub use two_times::TwoTimes;
