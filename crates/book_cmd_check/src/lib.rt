//! What `check` reads and writes: stored datagrams, in the order in which they came, and what is said of
//! each; and what connections are known whose handshake isn't stored. Definitions, with the plain type that
//! code shares with them; the empty functions carry theorems about them. Our own format.
#![tactic(auto)]

mod checksum;
mod given;
mod laws;
mod limits;
mod verified;

pub use checksum::Checksum;
pub use given::GivenIsns;
pub use laws::{connections_are_a_map, given_isns_are_those_of_a_handshake};
pub use limits::MOST_LINE;
pub use verified::Verified;
