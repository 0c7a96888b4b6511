//! What is heard of a capture whose beginning may not have been seen: each segment is judged by the
//! handshakes that passed, as `check` judges it, or else by initial sequence numbers that were only seen
//! (RFC 9293, section 3.5), and where its MAC is wrong over further laps of the sequence space (RFC 5925,
//! section 6.2).
#![tactic(auto)]

mod anew;
mod as_sent;
mod cut_off;
mod ending;
mod evidence;
mod following;
mod glimpses;
mod groups;
mod ids;
mod index;
mod laps;
mod left;
mod lines;
mod listener;
mod live;
mod openings;
mod outcomes;
mod passed;
mod passes;
mod peers;
mod peers_seen;
mod retiring;
mod rows_of;
mod seen;
mod segment;
mod signs;
mod wanting;
mod without;
mod words;

pub use as_sent::{is_segment, mended, told_fault};
pub use book_cmd_check::GivenIsns;
pub use cut_off::cut_whole;
pub use evidence::Evidence;
pub use ids::key_ids;
pub use index::SessionIndex;
pub use left::leaves_use;
pub use listener::Listener;
pub use outcomes::HeardSegment;
pub use peers::{is_of_peer, sees_peer};
pub use peers_seen::peers_told;
pub use retiring::may_go;
pub use rows_of::{asks_for_row, carries_row, is_at_row};
pub use seen::{has_doubtful, is_verified, latest_seen};
pub use wanting::goes_from;
pub use without::{all_without, goes_without, returns_without};
pub use words::outcome_word;
