//! The packets of pcap files (libpcap, pcap-savefile). Definitions, with the plain types that code shares
//! with them; the empty function carries a theorem about the definitions.
#![tactic(auto)]

mod laws;
mod limits;
mod pcap_head;

pub use laws::packets_are_the_grammar;
pub use limits::{LONGEST_DATAGRAM, MOST_CAPTURE};
pub use pcap_head::{ByteOrder, Head, HeadFault, LinkType};
