//! The program as one call: it reads what the words' command reads, makes the command's answer,
//! writes its output, and tells its text. Its contract says, for every source and sink, which
//! answer comes with which status, what was read and written, and what holds of every link.
#![tactic(auto)]

mod asked;
mod command;
mod gather;
mod job;
mod key_fault;
mod pcap_fault;
mod stop;
mod stream;
mod told;
mod top;

pub use asked::Asked;
pub use top::run;
