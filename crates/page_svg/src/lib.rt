//! Tags of SVG, and text between them. Definitions, with the plain type that code shares with them; the
//! empty function carries a theorem about them.
#![tactic(auto)]

mod heads;
mod laws;
mod point;
mod tags;

pub use heads::push_head;
pub use laws::escaped_text_has_no_mark;
pub use point::Point;
pub use tags::{push_box, push_colour, push_dot, push_line, push_titled, push_words};
