//! How a run of `aoscope` ends: which texts of its words are refused, and with which status and which text on
//! standard error each ending comes. Definitions, with the plain types that they and the code share.
#![tactic(auto)]

mod halt;
mod laws;

pub use halt::{Argument, Halt, Misuse, Origin, Wanted};
pub use laws::the_report_is_told;
