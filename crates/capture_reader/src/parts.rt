//! A part of a file: a record of a classic pcap file, or a block of a pcapng file.
ghost use Rattle.std.specs.Prelude.{◌≡◌, ◌+◌, ◌^◌, ◌<◌, ◌≤◌, ℕ, length, slice_range, IfOk};
ghost use Rattle.book_captures.specs.PcapFiles.{pcap_record_at};
ghost use Rattle.book_captures.specs.Parts.{record_part as part_of_record, part_by, section_said as section_says};
ghost use Rattle.book_captures.specs.Parts.{interface_said as interface_says, old_said as old_says};
ghost use Rattle.book_captures.specs.Parts.{simple_said as simple_says, enhanced_said as enhanced_says};
ghost use Rattle.book_captures.specs.Parts.{stamped_said as stamped_says, block_said};
ghost use Rattle.capture_reader.specs.Found.{Gives, seen_stamped};
ghost use Rattle.capture_reader.specs.FoundParts.{seen_said, seen_part, block_says, moved_by, IsWithin, IsPartWithin};

use crate::blocks::{BlockPlace, SECTION_HEADER, place_block};
use crate::contents::{Stamped, read_enhanced, read_interface, read_old, read_simple};
use crate::pcap_files::{RECORD_HEAD, read_record};
use crate::times::nanoseconds;
use book_captures::{BodyFault, Cause, Format, Interface, PcapHead};
use book_pcap::ByteOrder;
use pcap_file::u16_at;

/// The most interfaces that a section may describe.
pub const MOST_INTERFACES: usize = 4_096;

/// How many bytes of a block stand before its body.
const BLOCK_HEAD: usize = 8;

/// A packet as a capture keeps it, by its place.
#[derive(Clone, Copy, Debug, PartialEq, Eq)]
pub struct FoundFrame {
    /// When it was seen, in nanoseconds since 1970, where that is kept.
    pub time: Option<u64>,
    /// The number of its link type.
    pub link: u32,
    /// How many bytes it had.
    pub original: u32,
    /// Where those that the snapshot left begin.
    pub first: usize,
    /// Where they end.
    pub after: usize,
}

/// What a part says.
#[derive(Clone, Copy, Debug, PartialEq, Eq)]
pub enum PartSays {
    /// It shows a packet.
    Packet(FoundFrame),
    /// A section begins, which has no interface yet.
    Section,
    /// The section has one more interface.
    Interface(Interface),
    /// It is a block of another type.
    Other,
}

/// A part at the front of bytes.
#[derive(Clone, Copy, Debug, PartialEq, Eq)]
pub struct FoundPart {
    /// What it says.
    pub says: PartSays,
    /// In which format the next part is read.
    pub format: Format,
    /// How many bytes it has.
    pub size: usize,
}

/// The part at the front in this format, in a section with these interfaces; or why there is none. Where
/// that is that the bytes end, they may be the front of a part that is sound.
pub fn read_part(format: Format, interfaces: &[Interface], text: &[u8]) -> Result<FoundPart, Cause>
    ensures exact { Gives (seen_part interfaces.now text.now) result (part_by format interfaces.now text.now) }
    ensures within { IfOk result (λ p. IsPartWithin p (length interfaces.now) (length text.now)) }
{
    match format {
        Format::Pcap(head) => record_part(head, interfaces, text),
        Format::Pcapng(section) => match place_block(section, text) {
            Ok(place) => block_part(interfaces, place, text),
            Err(why) => Err(Cause::Block(why)),
        },
    }
}

// The part that the record at the front is.
fn record_part(head: PcapHead, interfaces: &[Interface], text: &[u8]) -> Result<FoundPart, Cause>
    ensures exact { Gives (seen_part interfaces.now text.now) result
        (part_of_record head (pcap_record_at head text.now)) }
    ensures within { IfOk result (λ p. IsPartWithin p (length interfaces.now) (length text.now)) }
{
    match read_record(head, text) {
        Ok((record, _rest)) => {
            let size = RECORD_HEAD + record.bytes.len();
            let frame = FoundFrame {
                time: Some(record.time),
                link: head.link,
                original: record.original,
                first: RECORD_HEAD,
                after: size,
            };
            Ok(FoundPart {
                says: PartSays::Packet(frame),
                format: Format::Pcap(head),
                size,
            })
        }
        Err(why) => Err(Cause::Record(why)),
    }
}

// The part that the block at this place is.
fn block_part(interfaces: &[Interface], place: BlockPlace, text: &[u8]) -> Result<FoundPart, Cause>
    requires least { 12 ≤ place.len }
    requires within { place.len ≤ length text.now }
    ensures exact { Gives (seen_part interfaces.now text.now) result (block_says interfaces.now text.now place) }
    ensures within { IfOk result (λ p. IsPartWithin p (length interfaces.now) (length text.now)) }
{
    let body = &text[BLOCK_HEAD..place.len - 4];
    match read_said(interfaces, place.order, place.kind, body) {
        Ok(says) => Ok(FoundPart {
            says: behind_head(says, body.len()),
            format: Format::Pcapng(Some(place.order)),
            size: place.len,
        }),
        Err(why) => Err(Cause::Body(why)),
    }
}

// What a body of this length says, by places in its block.
fn behind_head(says: PartSays, len: usize) -> PartSays
    requires within { (known : ℕ) × IsWithin says known len }
    requires room { 8 + len < 2 ^ 64 }
    ensures { result ≡ moved_by 8 says }
{
    match says {
        PartSays::Packet(frame) => PartSays::Packet(FoundFrame {
            first: BLOCK_HEAD + frame.first,
            after: BLOCK_HEAD + frame.after,
            ..frame
        }),
        other => other,
    }
}

// What the body of a block of this type says, by places in it.
#[tactic(auto, unfolding(book_captures::specs::Parts::block_said))]
fn read_said(
    interfaces: &[Interface],
    order: ByteOrder,
    kind: u32,
    body: &[u8],
) -> Result<PartSays, BodyFault>
    ensures exact { Gives (seen_said interfaces.now body.now) result
        (block_said interfaces.now (record { order = order; kind = kind; body = body.now })) }
    ensures within { IfOk result (λ s. IsWithin s (length interfaces.now) (length body.now)) }
{
    match kind {
        SECTION_HEADER => section_said(order, kind, interfaces, body),
        1 => interface_said(order, kind, interfaces, body),
        2 => old_said(order, kind, interfaces, body),
        3 => simple_said(order, kind, interfaces, body),
        6 => enhanced_said(order, kind, interfaces, body),
        _ => Ok(PartSays::Other),
    }
}

// A section begins.
#[tactic(auto, unfolding(book_captures::specs::Parts::section_said))]
fn section_said(
    order: ByteOrder,
    kind: u32,
    interfaces: &[Interface],
    body: &[u8],
) -> Result<PartSays, BodyFault>
    ensures exact { Gives (seen_said interfaces.now body.now) result
        (section_says (record { order = order; kind = kind; body = body.now })) }
    ensures within { IfOk result (λ s. IsWithin s (length interfaces.now) (length body.now)) }
{
    if body.len() < 16 {
        return Err(BodyFault::Short);
    }
    if u16_at(order, body, 4) == 1 {
        Ok(PartSays::Section)
    } else {
        Err(BodyFault::Version)
    }
}

// One more interface.
fn interface_said(
    order: ByteOrder,
    kind: u32,
    interfaces: &[Interface],
    body: &[u8],
) -> Result<PartSays, BodyFault>
    ensures exact { Gives (seen_said interfaces.now body.now) result
        (interface_says interfaces.now (record { order = order; kind = kind; body = body.now })) }
    ensures within { IfOk result (λ s. IsWithin s (length interfaces.now) (length body.now)) }
{
    let interface = read_interface(order, body)?;
    if interfaces.len() < MOST_INTERFACES {
        Ok(PartSays::Interface(interface))
    } else {
        Err(BodyFault::TooManyInterfaces)
    }
}

// The packet of an old block.
fn old_said(
    order: ByteOrder,
    kind: u32,
    interfaces: &[Interface],
    body: &[u8],
) -> Result<PartSays, BodyFault>
    ensures exact { Gives (seen_said interfaces.now body.now) result
        (old_says interfaces.now (record { order = order; kind = kind; body = body.now })) }
    ensures within { IfOk result (λ s. IsWithin s (length interfaces.now) (length body.now)) }
{
    match read_old(order, body) {
        Ok(packet) => stamped_said(interfaces, packet, body),
        Err(why) => Err(why),
    }
}

// The packet of an enhanced block.
fn enhanced_said(
    order: ByteOrder,
    kind: u32,
    interfaces: &[Interface],
    body: &[u8],
) -> Result<PartSays, BodyFault>
    ensures exact { Gives (seen_said interfaces.now body.now) result
        (enhanced_says interfaces.now (record { order = order; kind = kind; body = body.now })) }
    ensures within { IfOk result (λ s. IsWithin s (length interfaces.now) (length body.now)) }
{
    match read_enhanced(order, body) {
        Ok(packet) => stamped_said(interfaces, packet, body),
        Err(why) => Err(why),
    }
}

// The packet of a block with a time, in a section with these interfaces.
fn stamped_said(
    interfaces: &[Interface],
    packet: Stamped<'_>,
    body: &[u8],
) -> Result<PartSays, BodyFault>
    requires place { slice_range body.now 20 (20 + length packet.bytes.now) ≡ packet.bytes.now }
    requires within { 20 + length packet.bytes.now ≤ length body.now }
    ensures exact { Gives (seen_said interfaces.now body.now) result
        (stamped_says interfaces.now (seen_stamped packet.entry)) }
    ensures within { IfOk result (λ s. IsWithin s (length interfaces.now) (length body.now)) }
{
    match interfaces.get(packet.interface as usize) {
        Some(interface) => Ok(PartSays::Packet(FoundFrame {
            time: Some(nanoseconds(interface.resolution, interface.offset, packet.count)),
            link: interface.link,
            original: packet.original,
            first: 20,
            after: 20 + packet.bytes.len(),
        })),
        None => Err(BodyFault::NoInterface),
    }
}

// The packet of a simple block, which is of the section's first interface.
fn simple_said(
    order: ByteOrder,
    kind: u32,
    interfaces: &[Interface],
    body: &[u8],
) -> Result<PartSays, BodyFault>
    ensures exact { Gives (seen_said interfaces.now body.now) result
        (simple_says interfaces.now (record { order = order; kind = kind; body = body.now })) }
    ensures within { IfOk result (λ s. IsWithin s (length interfaces.now) (length body.now)) }
{
    let Some(interface) = interfaces.first() else {
        return Err(BodyFault::NoInterface);
    };
    match read_simple(order, interface.snapshot, body) {
        Ok(packet) => Ok(PartSays::Packet(FoundFrame {
            time: None,
            link: interface.link,
            original: packet.original,
            first: 4,
            after: 4 + packet.bytes.len(),
        })),
        Err(why) => Err(why),
    }
}
