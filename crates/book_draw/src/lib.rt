//! A run of a link as a ladder: its rungs, which are made of the run's events and their outcomes, and the
//! text of the ladder. Definitions, with the plain types that code shares with them; the empty functions
//! carry theorems about them.
#![tactic(auto)]

mod fold;
mod laws;
mod rung;
mod session_laws;
mod session_rung;
mod span;

pub use fold::{Folding, RungKinds, RungRun, SessionLine};
pub use laws::arrows_are_those_of_the_run;
pub use rung::{Brought, Deed, Delivery, Reply, Rung, Sketch};
pub use session_laws::{
    lines_stand_for_all, rungs_are_those_of_the_segments, rungs_are_those_of_the_table,
};
pub use session_rung::{SessionEnds, SessionRung};
pub use span::{DrawnTime, LeftOut, LeftRun, LeftSide};
