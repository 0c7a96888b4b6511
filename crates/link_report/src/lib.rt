//! The text of a run on a link: a line for each outcome, a line for each session, and the counts of
//! segments and forgeries, as the book's `Reports` says. Our own format.
#![tactic(auto)]

mod accounts;
mod acts;
mod answer;
mod arrival;
mod context;
mod copies;
mod entry;
mod kept;
mod log;
mod open;
mod outcome;
mod segments;
mod sessions;
mod side;
mod summary;
mod table;

pub use answer::Answer;
pub use arrival::push_answer;
pub use entry::Entry;
pub use log::Log;
pub use outcome::{Outcome, flags_word, push_details, push_outcomes, push_took};
pub use side::Side;
pub use summary::push_summary;
