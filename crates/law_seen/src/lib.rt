//! What the users of a link's two ends may rely on in every run: what the report says of their events, session by
//! session, over tables that `lint` calls aligned, and when the other end asks for a new key. Theorems alone, as
//! contracts of empty functions.
#![tactic(auto)]

mod arrivals;
mod endings;
mod runs;
mod seen;
mod sessions;
mod turns;

pub use arrivals::{each_has_origin, each_reset_is_an_abort};
pub use endings::ends_only_so;
pub use runs::aligned_carries;
pub use seen::{acknowledges_received, is_reliable, what_is_seen};
pub use sessions::{none_in_any, session_by_session};
pub use turns::{current_key_is_sent_with, newest_is_asked_for, rollover_takes_place};
