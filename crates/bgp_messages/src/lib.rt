//! Messages of BGP in a stream of bytes (RFC 4271, and RFC 2918 for ROUTE-REFRESH), in whatever
//! pieces it comes. A reader takes all its memory when it is made.
#![tactic(auto)]

mod gathered;
mod header;
mod reader;

pub use book_bgp::BgpFault;
pub use reader::{BgpReader, Fed, Found};
