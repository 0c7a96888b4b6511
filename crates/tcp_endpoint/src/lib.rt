//! One end of a connection with TCP-AO: what is given, sent, received and taken (RFC 9293; RFC
//! 5925).
//!
//! An end stands for states of the definitions. Each call is a step of theirs: whatever state the
//! end stood for, it stands for the next one after, and the answer is that step's. All memory is
//! taken when an end is made.
#![tactic(auto)]

mod acknowledgement;
mod after_segment;
mod arrival;
mod arrive;
mod close;
mod emission;
mod endpoint;
mod handshake;
mod laws;
mod open;
mod outlines;
mod phases;
mod planned_segment;
mod plans;
mod receive;
mod segment_arrives;
mod segment_text;
mod send;
mod sequence;
mod status;
mod transmission;
mod windows;

pub use ao_check::Passing;
pub use arrival::Arrived;
pub use book_endpoint::{Arrival, Phase};
pub use emission::{Emission, Made, Resent};
pub use endpoint::Endpoint;
pub use laws::{end_fits_once_added, end_fits_once_withdrawn};
pub use send::GiveAnswer;
pub use sequence::{Received, SequenceState};
