//! A session of a capture as a ladder. Those of its segments are drawn that were seen within a time. As text it is
//! drawn as the capture is read: memory grows with the sessions in front of the one that is drawn, and not with
//! packets. For a picture its segments are kept until the capture's end, since the head of a picture says how high
//! it is.
#![tactic(auto)]

mod draw;
mod drawer;
mod known;
mod last;
mod protections;
mod search;
mod shown;

pub use draw::{LadderHalt, LadderRequest, draw_session};
