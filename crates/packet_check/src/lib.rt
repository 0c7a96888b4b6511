//! Each packet of a capture, checked as the capture is read: what `check` says of it, its line, and what the
//! packets count as. Memory grows with connections, and not with packets.
#![tactic(auto)]

mod capture;
mod checked;
mod class;
mod columns;
mod packets;
mod saying;
mod shown;
mod tally;

pub use capture::check_capture;
