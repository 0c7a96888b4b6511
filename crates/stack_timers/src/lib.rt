//! What a stack keeps beside its ends: the retransmission timer of each connection (RFC 6298), the
//! deadlines of all timers, the earliest first, and the line of ends that may have something to send.
#![tactic(auto)]

mod alarms;
mod line;
mod rto;
mod watch;
mod watches;

pub use alarms::Alarms;
pub use line::Line;
pub use rto::Rto;
pub use watch::{Watch, is_heard, moves_on};
pub use watches::Watches;
