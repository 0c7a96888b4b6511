//! Why the check says what it says of a packet of a capture, written when the capture was read as far as that
//! packet: the lines that `book_why` defines. Memory grows with connections, and not with packets.
#![tactic(auto)]

mod answer;
mod capture;
mod changes;
mod choices;
mod context;
mod facts;
mod front;
mod inquiry;
mod lacks;
mod lines;
mod macs;
mod macs_front;
mod macs_parts;
mod masters;
mod others;
mod passes;
mod question;
mod reasons;
mod recipe;
mod right;
mod rows;
mod said;
mod segment_line;
mod shown;
mod sight;
mod suspect;
mod texts;
mod values;
mod write;

pub use choices::right_choices;
pub use lines::{push_mac_lines, push_passing_lines};
pub use macs_parts::{push_extension_part, push_header_part, push_options_part, push_pseudo_part};
pub use passes::would_pass;
pub use recipe::{mac_made, recipe_by};
pub use right::{key_made, right_recipe, suspect_context};
pub use texts::push_passing;
pub use write::{WhyRequest, write_why};
