//! Stored segments, judged one after another by what was heard before (RFC 5925, sections 5.2, 6.2
//! and 7.5): a line of them is read, a checker says what it makes of each datagram, and its answer
//! is a line of text.
//!
//! A checker keeps what it knows of each connection in a map by the two sockets, and the traffic
//! keys that it derived with it, so that a segment of a known connection costs a look-up and one MAC.
#![tactic(auto)]

mod answer;
mod checker;
mod connections;
mod datagrams;
mod flow;
mod flows;
mod judgement;
mod known;
mod segment;
mod stored;
mod text;

pub use answer::CheckLine;
pub use book_cmd_check::GivenIsns;
pub use checker::Checker;
pub use connections::Connections;
pub use judgement::isns_told_by;
pub use known::KnownConnection;
pub use segment::{acknowledged_isn, pair_at};
pub use stored::{LineProblem, Stored, read_line};
pub use text::push_check_line;
