//! Addresses, times and lengths of time as operators read and write them: IPv4 and IPv6 in their usual
//! forms, times of RFC 3339 and of a key file, seconds with or without a unit. Definitions, with the plain
//! type that code shares with them; the empty function carries a theorem about them.
#![tactic(auto)]

mod calendar_day;
mod finding;
mod key_laws;
mod laws;

pub use calendar_day::CalendarDay;
pub use finding::{KeyFinding, KeyPlace, KeySpot, SecretFault, TextPlace, TomlFault};
pub use key_laws::findings_are_of_the_walk;
pub use laws::addresses_are_read_back;
