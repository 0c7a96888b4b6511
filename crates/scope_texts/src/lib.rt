//! Addresses, times and lengths of time as operators read and write them.
#![tactic(auto)]

mod address;
mod addresses;
mod columns;
mod duration;
mod field;
mod hints;
mod instant;
mod instant_words;
mod moments;
mod peers;
mod places;
mod plain;
mod row;
mod said;
mod secret;
mod secrets;
mod shown;
mod socket;
mod spots;
mod suggestions;
mod times;
mod unknown;

pub use address::push_address;
pub use addresses::push_address_hint;
pub use duration::read_duration;
pub use field::{field_at, push_count, push_finding, push_hidden, push_misfit, push_unless};
pub use hints::push_time_hint;
pub use instant::{push_instant, push_key_time};
pub use instant_words::read_instant;
pub use moments::push_moment_hint;
pub use places::{push_finding_line, push_place, text_place};
pub use plain::is_plain_text;
pub use row::push_row;
pub use said::{finding_at, push_field_said, push_hidden_said};
pub use secrets::push_shown_secret;
pub use shown::{push_shown_text, push_shown_value};
pub use socket::{read_address_word, read_socket_words};
pub use suggestions::meant_word;
pub use unknown::push_unknown;
