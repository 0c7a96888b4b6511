//! `check`: stored segments, given as lines or in a pcap file, are judged as they are read. The line
//! that is said of each is written before more of the input is asked for, and no more of it is held
//! than its reader keeps.
#![tactic(auto)]

mod answers;
mod halt;
mod judge;
mod lines;
mod packets;
mod writer;

pub use answers::{Form, answer};
pub use halt::Halt;
