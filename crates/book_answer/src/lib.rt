//! `answer`: from the words, the key file and the input to status, output and text for standard error; and
//! the commands of the program. Definitions, and the plain type that they and the code share.
#![tactic(auto)]

mod command;

pub use command::Command;
