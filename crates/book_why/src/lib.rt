//! Why a segment of a capture doesn't pass: how its MAC is made, step by step, and under which single
//! change of that it would be right. Definitions, with the plain types that code shares with them; the
//! empty functions carry theorems about the definitions.
#![tactic(auto)]

mod change;
mod laws;
mod text_laws;

pub use change::{Change, IsnPair, MacPart, SegmentNode};
pub use laws::{lines_are_those_of_passing_changes, right_recipe_is_the_checks};
pub use text_laws::{
    answers_are_of_the_packet_asked_for, parts_are_the_input, rows_lack_nothing_where_they_take,
    suspects_are_what_the_check_judges, told_verdict_is_the_checks,
    tried_isns_are_those_of_other_connections,
};
