//! A node that runs by itself: many connections under one table of keys, each with its retransmission
//! timer, driven by datagrams that come, by the clock, and by the calls of its user. Each call is that
//! of the definitions of `book_stack`.
#![tactic(auto)]

mod calls;
mod checksum;
mod counted_stack;
mod counters_calls;
mod counters_input;
mod counters_open;
mod counters_output;
mod counters_rows;
mod counters_status;
mod counts;
mod input;
mod key_ids;
mod open;
mod outgoing;
mod output;
mod rows;
mod stack;
mod status;
mod tallies;
mod timers;

pub use book_link::Transmission;
pub use book_stack::{Counters, KeyIds, KeyIdsSeen};
pub use counted_stack::CountedStack;
pub use input::Heard;
pub use stack::Stack;
