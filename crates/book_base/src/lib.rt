//! What the book speaks of: addresses and sockets, algorithms, the two ends of a link, lists; lines
//! and words of a text, numbers and digits.
#![tactic(auto)]

mod address;
mod algorithm;
mod end;
mod list;

pub use address::{Address, Pair, Socket};
pub use algorithm::Algorithm;
pub use end::End;
pub use list::{Bytes, Numbers, Words};
