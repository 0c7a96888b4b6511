//! One end of a connection as a function on states: the verdict on a segment, an arrival, an
//! emission, what is sent again, and what is given and taken. Definitions, the plain types that they
//! and the code share, and what holds of single steps; what holds of every run stands in `law_link`.
#![tactic(auto)]

mod arrival;
mod laws;
mod passed;
mod phase;
mod refusal;

pub use arrival::Arrival;
pub use laws::{
    abort_closes, fin_is_past_all_kept_bytes, old_acknowledgement_tells_nothing, passes_exactly,
    refused_changes_nothing, reset_hears_no_key, reset_is_at_the_expected_number,
};
pub use passed::Passed;
pub use phase::Phase;
pub use refusal::Refusal;
