//! A link between two ends, each with its table: events are stepped through one by one, every segment
//! that an end made is kept, and each outcome for the report. A world stands for its setup with the
//! list of events so far; each call is a step of the book over that. Out of memory it stands for
//! what it stood for.
#![tactic(auto)]

mod acts;
mod arrivals;
mod copies;
mod events;
mod front;
mod ranges;
mod room;
mod send;
mod setup;
mod status;
mod texts;
mod world;

pub use front::Front;
pub use link_report::Outcome;
pub use setup::Setup;
pub use world::World;
