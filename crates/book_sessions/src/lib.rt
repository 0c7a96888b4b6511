//! The sessions of a capture: what was verified of each direction under each KeyID, and what wasn't;
//! and of each key of a key file who used it last, and whether anyone asks for it. Definitions, with the
//! plain types that code shares with them; the empty function carries a theorem about the definitions.
#![tactic(auto)]

mod check_laws;
mod class;
mod laws;
mod outcome;
mod retiring;
mod uses;

pub use book_cmd_check::GivenIsns;
pub use check_laws::{lines_are_those_of_check, nothing_amiss_is_a_pass_of_all, numbers_add_up};
pub use class::PacketClass;
pub use laws::{counts_are_those_of_the_verdicts, right_macs_pass_the_check};
pub use outcome::{PassedOver, SegmentOutcome};
pub use retiring::{Ending, MayGo, Retiring, Wanting};
pub use uses::{
    FlowIsns, KeyIds, KeyUse, PassedCount, Protection, SeenBits, SeenPass, SeenSegment, Signs,
};
