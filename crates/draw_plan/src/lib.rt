//! The bars of a planned rollover: which there are and in which order, what each row of two tables does over
//! time, a slice at a time by the first and the last second of its lifetimes, and where the plan is wrong. Our own
//! format.
#![tactic(auto)]

mod bars;
mod dates;
mod fillings;
mod heads;
mod marks;
mod names;
mod order;
mod panel;
mod picture;
mod places;
mod scale;
mod shown;
mod slices;
mod spans;
mod svg_bars;
mod widths;
mod wrong;

pub use bars::{duty_id, push_duty};
pub use heads::{push_end, push_front, push_summary};
pub use order::{bars_of, plan_time};
pub use panel::{Panel, Paper, push_panel};
pub use picture::{push_bars, push_summary_line, push_summary_words};
pub use widths::picture_width;
pub use wrong::Connected;
