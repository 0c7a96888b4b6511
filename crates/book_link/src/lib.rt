//! A link between two ends as a function on worlds: the events, what each does, and the run of a list
//! of events with its report and its forgeries. Definitions, and the plain types that they and the
//! code share; what holds of every run, statements and proofs, stands in `law_link`.
#![tactic(auto)]

mod event;

pub use event::{Action, Event, Events, Fixing, Transmission};
