//! A node that runs by itself, as a function on states: the retransmission timers of its connections
//! (RFC 6298), which end sends next, and what each call answers, leaves and makes of plain events.
//! Definitions, and the plain types that they and the code share; what holds of every run stands in
//! `law_stack`.
#![tactic(auto)]

mod alarm;
mod counters;
mod front;
mod key_ids;
mod tally;

pub use alarm::Alarm;
pub use counters::Counters;
pub use front::{Change, Front, Timed};
pub use key_ids::{KeyIds, KeyIdsSeen};
pub use tally::Tally;
