//! Captures as people have them, read.
//!
//! `read_pcap_head` and `read_record` read a classic pcap file, `read_block` and the calls for what blocks say
//! a pcapng file, each at the front of bytes. `find_datagram` says where in a frame its datagram lies, or
//! why the packet is passed over. All answers are those that `book_captures` defines.
#![tactic(auto)]

mod blocks;
mod contents;
mod frames;
mod layers;
mod measures;
mod numbered;
mod parts;
mod pcap_files;
mod sizes;
mod times;

pub use blocks::{Block, MOST_IN_BLOCK, read_block};
pub use book_captures::{
    BlockFault, BodyFault, CaptureFault, Cause, Extent, Format, Header, Interface, IpVersion,
    LinkType, PcapHead, PcapHeadFault, RecordFault, Skipped, TimeOffset, TimeResolution,
};
pub use contents::{Plain, Stamped, read_enhanced, read_interface, read_old, read_simple};
pub use frames::{FoundDatagram, find_datagram};
pub use numbered::link_type;
pub use parts::{FoundFrame, FoundPart, MOST_INTERFACES, PartSays, read_part};
pub use pcap_files::{PCAP_HEAD, Record, read_pcap_head, read_record};
pub use sizes::{FileFront, part_head, part_size, read_front, short_part};
pub use times::nanoseconds;
