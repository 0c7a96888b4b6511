//! What is asked of a planned rollover beside its judgement: how far the plan may be off, all that
//! doesn't hold of it and not the first alone, in which columns a row differs from the one that it is to
//! meet, and when each row begins and ends to be used.
#![tactic(auto)]

mod alike;
mod gaps;
mod margin;
mod plan_findings;
mod turns;
mod way;
mod ways;

pub use alike::differences;
pub use book_plans::{Differences, Finding, Margin, Obstacle, Role, Turn};
pub use margin::{lag_margin, lead_margin};
pub use plan_findings::{findings, wanted_accepting, widened};
pub use turns::calendar;
pub use ways::{Side, accepting_obstacle, fitting_accepting, fitting_sending};
