//! Bytes and numbers of a segment: sockets, option areas, datagrams as values with their one
//! spelling, checksums, and the number that a sequence field means. Definitions alone; the empty
//! functions carry theorems about them.
#![tactic(auto)]

mod fault;
mod laws;
mod meant;

pub use fault::{DatagramFault, OptionFault};
pub use laws::{
    folded_sums_are_remainders, options_are_the_grammar, reading_is_the_spelling,
    spellings_are_unique,
};
pub use meant::meant_is_nearest;
