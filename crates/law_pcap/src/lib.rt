//! What `check --pcap` makes of a pcap file is what `check` makes of its line form. A theorem alone,
//! as the contract of an empty function.
#![tactic(auto)]

mod laws;

pub use laws::files_are_judged_as_their_line_forms;
