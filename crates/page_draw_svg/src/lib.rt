//! The ladder of a run as a picture in SVG: each rung with its place, its stroke and its label, and the
//! text of the picture. Definitions, with the plain types that code shares with them; the empty function
//! carries theorems about them.
#![tactic(auto)]

mod form;
mod laws;
mod placed;
mod session_laws;

pub use form::LadderForm;
pub use laws::elements_are_those_of_the_run;
pub use placed::{Form, Placed, Start, Stroke};
pub use session_laws::elements_are_those_of_the_session;
