//! The header of a file and the record of a packet, as far as they are in a buffer.
ghost use Rattle.std.specs.Prelude.{◌≡◌, ◌==◌, ◌++◌, ◌+◌, if◌then◌else◌, ℕ, ◌≤◌, true, false, List, length, take};
ghost use Rattle.std.specs.Prelude.{drop, slice_range, MatchOption};
ghost use Rattle.ao_base.specs.Outside.{Side};
ghost use Rattle.book_base.specs.Fronts.{Leads};
ghost use Rattle.book_pcap.specs.Packets.{datagram_of, is_ip, record_at};
ghost use Rattle.pcap_file.specs.Parts.{Opens, Finds};
ghost use Rattle.pcap_file.specs.Reads.{is_whole};

use crate::head::{HEAD, read_head};
use crate::numbers::u32_at;
use ao_base::{Buffer, Cut, Filled, Source, fill};
use book_pcap::{ByteOrder, Head, HeadFault, LONGEST_DATAGRAM, LinkType};

/// How many bytes of a record stand before its kept bytes (pcap-savefile).
pub(crate) const RECORD: usize = 16;

/// The most bytes that a record may keep (libpcap).
pub(crate) const MOST_KEPT: usize = 262_144;

/// The header of Ethernet: two addresses of six bytes, and the type (RFC 894).
const ETHERNET: usize = 14;

/// What reading the header gives.
#[derive(Clone, Copy)]
pub(crate) enum Opened {
    Head(Head),
    Bad(HeadFault),
    Fault,
}

/// What reading a record gives: its seconds and its kept length, or why there is none.
#[derive(Clone, Copy)]
pub(crate) enum Found {
    Whole(u32, usize),
    Done,
    Broken,
    Fault,
}

/// Reads the header and passes over it, where it wasn't read before.
pub(crate) fn open<S: Source>(buffer: &mut Buffer, src: &mut S, had: Option<Head>) -> Opened
    requires { 24 ≤ buffer.old.size }
    ensures { (given : List ℕ) × Opens had buffer.old buffer.new (S.side src.old) (S.side src.new) given result }
{
    if let Some(head) = had {
        return Opened::Head(head);
    }
    match fill(buffer, src, HEAD) {
        Filled::Fault => Opened::Fault,
        Filled::Ended => Opened::Bad(HeadFault::Short),
        Filled::Enough => match read_head(&buffer.kept()[..HEAD]) {
            Ok(head) => {
                buffer.pass(0, 0, HEAD);
                Opened::Head(head)
            }
            Err(fault) => Opened::Bad(fault),
        },
    }
}

/// Takes bytes until the record at the front is whole, and says what it is.
pub(crate) fn find_record<S: Source>(buffer: &mut Buffer, src: &mut S, order: ByteOrder) -> Found
    requires { 262160 ≤ buffer.old.size }
    ensures { (given : List ℕ) × Finds order buffer.old buffer.new (S.side src.old) (S.side src.new) given result }
{
    match fill(buffer, src, RECORD) {
        Filled::Fault => return Found::Fault,
        Filled::Ended => return none_or_broken(buffer.kept()),
        Filled::Enough => {}
    }
    let seconds = u32_at(order, buffer.kept(), 0);
    let len = u32_at(order, buffer.kept(), 8) as usize;
    if len > MOST_KEPT {
        return Found::Broken;
    }
    match fill(buffer, src, RECORD + len) {
        Filled::Fault => Found::Fault,
        Filled::Ended => Found::Broken,
        Filled::Enough => Found::Whole(seconds, len),
    }
}

/// The seconds and the kept length of the record at the front, where it is whole.
pub(crate) fn kept_record(kept: &[u8], order: ByteOrder) -> Option<(u32, usize)>
    ensures { MatchOption result (is_whole (record_at order kept.now) ≡ false) (λ found.
        (16 + found.1 ≤ length kept.now) × ((left : List ℕ) → record_at order (kept.now ++ left)
        ≡ Leads (record { seconds = found.0; bytes = take found.1 (drop 16 kept.now) })
        (drop (16 + found.1) kept.now ++ left))) }
{
    if kept.len() < RECORD {
        return None;
    }
    let seconds = u32_at(order, kept, 0);
    let len = u32_at(order, kept, 8) as usize;
    if len > MOST_KEPT {
        return None;
    }
    if RECORD + len > kept.len() {
        return None;
    }
    Some((seconds, len))
}

fn none_or_broken(kept: &[u8]) -> Found
    ensures { result ≡ (if length kept.now == 0 then Found.Done else Found.Broken) }
{
    if kept.is_empty() {
        Found::Done
    } else {
        Found::Broken
    }
}

/// Where the datagram lies in a packet's bytes; it has no byte where the packet is passed over.
pub(crate) fn find_datagram(link: LinkType, bytes: &[u8]) -> Cut
    ensures ordered { result.first ≤ result.after }
    ensures within { result.after ≤ length bytes.now }
    ensures datagram { slice_range bytes.now result.first result.after ≡ datagram_of link bytes.now }
{
    match link {
        LinkType::Raw => Cut {
            first: 0,
            after: bytes.len().min(LONGEST_DATAGRAM),
        },
        LinkType::Ethernet => {
            if has_ip(bytes) {
                Cut {
                    first: ETHERNET,
                    after: bytes.len().min(ETHERNET + LONGEST_DATAGRAM),
                }
            } else {
                Cut { first: 0, after: 0 }
            }
        }
    }
}

// The type of an Ethernet header is IPv4's or IPv6's.
fn has_ip(bytes: &[u8]) -> bool
    ensures value { result ≡ is_ip bytes.now }
    ensures long { result ≡ true → 14 ≤ length bytes.now }
{
    if bytes.len() < ETHERNET {
        return false;
    }
    let kind = &bytes[12..ETHERNET];
    kind == b"\x08\x00".as_slice() || kind == b"\x86\xdd".as_slice()
}
