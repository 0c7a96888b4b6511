//! The ladder of a link file.
#![tactic(auto)]

mod answer;
mod arrows;
mod echo;
mod echo_answer;
mod event_lines;
mod heads;
mod outcomes;
mod past;
mod picture;
mod places;
mod positions;
mod report_lines;
mod runs;

pub use answer::{answer_draw, answer_draw_keys};
pub use echo_answer::{answer_echo, answer_echo_keys};
pub use picture::{draw_rungs_as, print_svg};
pub use runs::rungs_of;
