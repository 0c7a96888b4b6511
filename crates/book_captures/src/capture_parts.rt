//! What a capture's file is, and why the reading of it ends early.
use crate::block_parts::{BlockFault, BodyFault};
use crate::pcap_head::{PcapHead, PcapHeadFault, RecordFault};
use book_pcap::ByteOrder;

/// The format of a file, with what was read of it that says how its next part is read.
#[derive(Clone, Copy, Debug, PartialEq, Eq)]
pub enum Format {
    /// A classic pcap file, by its header; its parts are records.
    Pcap(PcapHead),
    /// A pcapng file, with the order of the bytes of the section, if in one; its parts are blocks.
    Pcapng(Option<ByteOrder>),
}

/// What is wrong where the reading of a capture ends early.
#[derive(Clone, Copy, Debug, PartialEq, Eq)]
pub enum Cause {
    /// The header of a classic file is refused.
    Head(PcapHeadFault),
    /// A record of a classic file isn't read.
    Record(RecordFault),
    /// A block of a pcapng file isn't read.
    Block(BlockFault),
    /// What a block says is refused.
    Body(BodyFault),
}

/// Where and why the reading of a capture ends early.
#[derive(Clone, Copy, Debug, PartialEq, Eq)]
pub struct CaptureFault {
    /// What is wrong.
    pub cause: Cause,
    /// The number of the record or block, from 1 on; 0 for the header of a classic file.
    pub number: u64,
    /// Where it begins in the file, from 0 on.
    pub byte: u64,
}
