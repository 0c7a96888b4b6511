//! What holds of two stacks that talk over any path, whatever it loses, repeats, alters or forges: their past is
//! the past of a link, so the laws of a link hold of them; and each connection of a stack answers as if it were
//! alone, and has its turn. Theorems alone, as contracts of empty functions.
#![tactic(auto)]

mod connections;
mod ends;
mod mirror;

pub use connections::{each_has_its_turn, each_is_single_at_its_rows};
pub use ends::{
    acknowledged_was_received, bytes_are_the_partners, bytes_come_in_order, is_met,
    resets_come_of_aborts, streams_end_whole,
};
pub use mirror::the_past_of_two_stacks_is_the_past_of_a_link;
