//! The sessions of a capture and the keys of a key file: counted as the capture is read, packet after
//! packet, and written as a table, in lines or in JSON. Memory grows with sessions, and not with packets.
#![tactic(auto)]

mod count;
mod due;
mod foreign;
mod heard;
mod isns;
mod json_keys;
mod json_packets;
mod json_sessions;
mod json_table;
mod json_values;
mod key_texts;
mod named_keys;
mod obstacles;
mod passed_texts;
mod protections;
mod retire;
mod session_texts;
mod stored;
mod table_text;
mod users;
mod write;

pub use book_lines::LineKind;
pub use book_sessions::Retiring;
pub use capture_listener::{mended, told_fault};
pub use isns::read_given;
pub use named_keys::retire_status;
pub use page_sessions_json::{TableForm, TableRequest};
pub use passed_texts::push_passed;
pub use retire::write_retiring;
pub use session_texts::{push_host, push_time};
pub use write::write_sessions;
