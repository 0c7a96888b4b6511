//! The packets of a classic pcap file, read with one packet in memory.
//!
//! `Packets::next` goes from one packet to the next; its answers are those of the packets of a file as
//! `book_pcap` defines them. `u16_at` and `u32_at` are the numbers of such files, and of other captures.
#![tactic(auto)]

mod head;
mod numbers;
mod packets;
mod records;

pub use book_pcap::HeadFault;
pub use numbers::{u16_at, u32_at};
pub use packets::{PacketStep, Packets};
