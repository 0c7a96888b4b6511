//! A map from pairs of sockets to values that takes all its memory when it is made: the pairs lie in
//! order, so that one is found by a binary search, and each value has the place of its pair.
#![tactic(auto)]

mod search;
mod table;

pub use table::PairTable;
