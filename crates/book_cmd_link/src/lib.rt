//! What `link` reads: the grammar of link files. Definitions, and the plain types that they and the code
//! share. Our own format.
#![tactic(auto)]

mod script;
mod timed;
mod timer;

pub use book_keys::Plan;
pub use script::{KeysFrom, Script, SharedKey};
pub use timed::{TimedEvent, TimedEvents, TimedScript};
pub use timer::{Smoothed, Timer};
