//! The commands `link` and `storm`. `link` is the run of a link file, over the key that it names or over
//! the tables of a key file; `storm` is a large run that is made from a number, event by event, each
//! drawn after the ones before it were stepped through. Each call makes the whole answer of a command.
#![tactic(auto)]

mod answers;
mod bgp_answers;
mod bgp_runs;
mod change;
mod draw;
mod event;
mod expansion;
mod laws;
mod lines;
mod link;
mod pieces;
mod runs;
mod storm_run;
mod timed_link;
mod unfinished;
mod watch;

pub use answers::answer_timed;
pub use bgp_answers::answer_bgp;
pub use bgp_runs::run_bgp;
pub use laws::messages_come_in_order;
pub use link::{answer_link, answer_link_keys, report_of};
pub use runs::{TimedRun, run_timed};
pub use storm_run::answer_storm;
