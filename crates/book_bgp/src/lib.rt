//! The messages of BGP in a stream of bytes, and its faults (RFC 4271). Definitions, with the plain types
//! that code shares with them; the empty functions carry theorems about the definitions.
#![tactic(auto)]

mod bgp_fault;
mod laws;

pub use bgp_fault::BgpFault;
pub use laws::{messages_are_the_greatest, messages_of_more_begin_alike};
