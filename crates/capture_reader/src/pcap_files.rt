//! The header and the records of a classic pcap file.
ghost use Rattle.std.specs.Prelude.{◌≡◌, ◌≤◌, length, IfOk};
ghost use Rattle.book_captures.specs.PcapFiles.{resolution_by as resolution_told, head_by as head_in, pcap_head};
ghost use Rattle.book_captures.specs.PcapFiles.{record_time as time_of_record, pcap_record_at};
ghost use Rattle.capture_reader.specs.Found.{Gives, seen_record};

use book_captures::{PcapHead, PcapHeadFault, RecordFault, Resolution};
use book_pcap::ByteOrder;
use pcap_file::{u16_at, u32_at};

/// How many bytes the header has (libpcap, pcap-savefile).
pub const PCAP_HEAD: usize = 24;

/// How many bytes of a record stand before its kept bytes (libpcap, pcap-savefile).
pub(crate) const RECORD_HEAD: usize = 16;

/// The most bytes that a record may keep (libpcap).
pub(crate) const MOST_KEPT: usize = 262_144;

/// A packet as a capture keeps it.
#[derive(Clone, Copy, Debug)]
pub struct Record<'a> {
    /// When it was seen, in nanoseconds since 1970.
    pub time: u64,
    /// How many bytes it had.
    pub original: u32,
    /// The bytes that the snapshot left.
    pub bytes: &'a [u8],
}

/// What the header at the front of a file says, in its first 24 bytes, or its first fault.
#[tactic(auto, unfolding(book_captures::specs::PcapFiles::pcap_head))]
pub fn read_pcap_head(file: &[u8]) -> Result<PcapHead, PcapHeadFault>
    ensures exact { result ≡ pcap_head file.now }
    ensures long { IfOk result (λ _. 24 ≤ length file.now) }
{
    if file.len() < PCAP_HEAD {
        return Err(PcapHeadFault::Short);
    }
    if let Some(resolution) = resolution_by(ByteOrder::Big, file) {
        return head_by(ByteOrder::Big, resolution, file);
    }
    match resolution_by(ByteOrder::Little, file) {
        Some(resolution) => head_by(ByteOrder::Little, resolution, file),
        None => Err(PcapHeadFault::Magic),
    }
}

// The resolution that the first four bytes tell in this order.
fn resolution_by(order: ByteOrder, file: &[u8]) -> Option<Resolution>
    requires { 24 ≤ length file.now }
    ensures { result ≡ resolution_told order file.now }
{
    match u32_at(order, file, 0) {
        0xa1b2_c3d4 => Some(Resolution::Microseconds),
        0xa1b2_3c4d => Some(Resolution::Nanoseconds),
        _ => None,
    }
}

// What a header in this order and resolution says.
fn head_by(order: ByteOrder, resolution: Resolution, file: &[u8]) -> Result<PcapHead, PcapHeadFault>
    requires { 24 ≤ length file.now }
    ensures { result ≡ head_in order resolution file.now }
{
    if u16_at(order, file, 4) != 2 || u16_at(order, file, 6) != 4 {
        return Err(PcapHeadFault::Version);
    }
    let link = u32_at(order, file, 20) % 65_536;
    Ok(PcapHead {
        order,
        resolution,
        link,
    })
}

/// The record at the front, and the bytes behind it; or why there is none.
#[tactic(auto, unfolding(book_captures::specs::PcapFiles::pcap_record_at))]
pub fn read_record<'a>(
    head: PcapHead,
    text: &'a [u8],
) -> Result<(Record<'a>, &'a [u8]), RecordFault>
    ensures { Gives (λ x. (seen_record x.0, x.1.now)) result (pcap_record_at head text.now) }
{
    if text.len() < RECORD_HEAD {
        return Err(RecordFault::Short);
    }
    let len = u32_at(head.order, text, 8) as usize;
    if MOST_KEPT < len {
        return Err(RecordFault::TooLong);
    }
    if text.len() < RECORD_HEAD + len {
        return Err(RecordFault::Short);
    }
    let time = record_time(head, text);
    let original = u32_at(head.order, text, 12);
    let bytes = &text[RECORD_HEAD..RECORD_HEAD + len];
    let (_record, rest) = text.split_at(RECORD_HEAD + len);
    Ok((
        Record {
            time,
            original,
            bytes,
        },
        rest,
    ))
}

// When the packet of the record at the front was seen.
fn record_time(head: PcapHead, text: &[u8]) -> u64
    requires { 16 ≤ length text.now }
    ensures { result ≡ time_of_record head text.now }
{
    let unit: u64 = match head.resolution {
        Resolution::Microseconds => 1_000,
        Resolution::Nanoseconds => 1,
    };
    let seconds = u32_at(head.order, text, 0) as u64;
    let units = u32_at(head.order, text, 4) as u64;
    seconds * 1_000_000_000 + units * unit
}
