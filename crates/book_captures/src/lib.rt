//! Captures as people have them: pcap and pcapng files, the frames of a link, and the datagrams in them.
//! Definitions, with the plain types that code shares with them; the empty functions carry theorems about
//! the definitions.
#![tactic(auto)]

mod block_parts;
mod capture_parts;
mod datagram_parts;
mod laws;
mod link_type;
mod pcap_head;
mod reasons;

pub use block_parts::{BlockFault, BodyFault, Interface, TimeOffset, TimeResolution};
pub use capture_parts::{CaptureFault, Cause, Format};
pub use datagram_parts::{Extent, IpVersion};
pub use laws::{
    blocks_are_their_grammar, captures_are_their_grammar, captures_of_pcap_files_are_their_grammar,
    captures_of_pcapng_files_are_in_their_blocks, records_are_their_grammar,
    tags_and_labels_are_passed_over,
};
pub use link_type::{LinkType, Protocol};
pub use pcap_head::{PcapHead, PcapHeadFault, RecordFault, Resolution};
pub use reasons::{Header, Skipped};
