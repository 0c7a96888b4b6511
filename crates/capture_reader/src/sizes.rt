//! How a file begins, and how many bytes its parts have, by those in front.
ghost use Rattle.std.specs.Prelude.{◌≡◌, ◌≤◌, true, length, IfOk};
ghost use Rattle.book_pcap.specs.Packets.{four_at};
ghost use Rattle.book_captures.specs.Blocks.{order_at as order_told, length_fault as fault_of_length};
ghost use Rattle.book_captures.specs.Parts.{is_pcapng as begins_with_section, capture_opened};
ghost use Rattle.capture_reader.specs.Found.{Gives, as_it_is};
ghost use Rattle.capture_reader.specs.Sizes.{seen_front, needed, head_length, short_of, told_size};
ghost use Rattle.capture_reader.specs.Sizes.{record_size as size_of_record, block_size as size_of_block};

use crate::blocks::{LEAST_IN_BLOCK, SECTION_HEADER, length_fault, order_at};
use crate::pcap_files::{MOST_KEPT, PCAP_HEAD, RECORD_HEAD, read_pcap_head};
use book_captures::{BlockFault, Cause, Format, RecordFault};
use book_pcap::ByteOrder;
use pcap_file::u32_at;

/// How a file begins.
#[derive(Clone, Copy, Debug, PartialEq, Eq)]
pub struct FileFront {
    /// In which format its first part is read.
    pub format: Format,
    /// How many bytes stand before it.
    pub size: usize,
}

/// How a file begins, by its first 24 bytes: a pcapng file with its first block, any other with the header of
/// a classic pcap file; or the first fault of that header.
#[tactic(auto, unfolding(book_captures::specs::Parts::capture_opened))]
pub fn read_front(file: &[u8]) -> Result<FileFront, Cause>
    ensures exact { Gives seen_front result (capture_opened file.now) }
    ensures needed { IfOk result (λ f. needed f.format ≤ length file.now) }
    ensures within { IfOk result (λ f. f.size ≤ length file.now) }
{
    if is_pcapng(file) {
        return Ok(FileFront {
            format: Format::Pcapng(None),
            size: 0,
        });
    }
    match read_pcap_head(file) {
        Ok(head) => Ok(FileFront {
            format: Format::Pcap(head),
            size: PCAP_HEAD,
        }),
        Err(why) => Err(Cause::Head(why)),
    }
}

// The file begins with a section.
fn is_pcapng(file: &[u8]) -> bool
    ensures value { result ≡ begins_with_section file.now }
    ensures long { result ≡ true → 4 ≤ length file.now }
{
    if file.len() < 4 {
        return false;
    }
    u32_at(ByteOrder::Big, file, 0) == SECTION_HEADER
}

/// How many bytes of a part tell how many it has.
pub fn part_head(format: Format) -> usize
    ensures { result ≡ head_length format }
{
    match format {
        Format::Pcap(_) => RECORD_HEAD,
        Format::Pcapng(_) => LEAST_IN_BLOCK,
    }
}

/// Why bytes are no part that end before it does.
pub fn short_part(format: Format) -> Cause
    ensures { result ≡ short_of format }
{
    match format {
        Format::Pcap(_) => Cause::Record(RecordFault::Short),
        Format::Pcapng(_) => Cause::Block(BlockFault::Short),
    }
}

/// How many bytes the part at the front has, by the first of them; or why it is refused, whatever follows
/// these. Whether it is a part shows when it is all there.
pub fn part_size(format: Format, text: &[u8]) -> Result<usize, Cause>
    requires { head_length format ≤ length text.now }
    ensures exact { Gives as_it_is result (told_size format text.now) }
    ensures least { IfOk result (λ n. head_length format ≤ n) }
    ensures most { IfOk result (λ n. n ≤ 16777216) }
{
    match format {
        Format::Pcap(head) => record_size(u32_at(head.order, text, 8)),
        Format::Pcapng(section) => match order_at(section, text) {
            Ok(order) => block_size(u32_at(order, text, 4)),
            Err(why) => Err(Cause::Block(why)),
        },
    }
}

// How many bytes a record has that keeps so many.
fn record_size(len: u32) -> Result<usize, Cause>
    ensures exact { Gives as_it_is result (size_of_record len) }
    ensures least { IfOk result (λ n. 16 ≤ n) }
    ensures most { IfOk result (λ n. n ≤ 16777216) }
{
    let len = len as usize;
    if MOST_KEPT < len {
        Err(Cause::Record(RecordFault::TooLong))
    } else {
        Ok(RECORD_HEAD + len)
    }
}

// How many bytes a block of this total length has.
#[tactic(auto, using(crate::proofs::FrontParts::least_length, crate::proofs::FrontParts::most_length))]
fn block_size(len: u32) -> Result<usize, Cause>
    ensures exact { Gives as_it_is result (size_of_block len) }
    ensures least { IfOk result (λ n. 12 ≤ n) }
    ensures most { IfOk result (λ n. n ≤ 16777216) }
{
    match length_fault(len) {
        Some(why) => Err(Cause::Block(why)),
        None => Ok(len as usize),
    }
}
