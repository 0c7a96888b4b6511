//! A session of a capture, drawn: the lines of its segments, as the book's `Ladders` says, and its picture in
//! SVG, as the book's `SessionPictures` says.
#![tactic(auto)]

mod elements;
mod fold;
mod heads;
mod keys;
mod left;
mod lines;
mod picture;
mod runs;
mod says;

pub use left::print_left;
pub use lines::{push_ends, push_rung};
pub use picture::print_session_svg;
