//! Why a check ends before its input does.
use book_lines::LineKind;
use book_pcap::HeadFault;

/// Why stored segments weren't judged to the end of the input.
#[derive(Clone, Copy, Debug, PartialEq, Eq)]
pub enum Halt {
    /// The line with this number, counted from 1 among all lines, has more than 131,200 bytes, which
    /// is `Range`, or isn't a line of stored segments: the kind of its first faulty word.
    Line(u32, LineKind),
    /// The header of a pcap file is refused.
    Head(HeadFault),
    /// The record of this number, from 1 on, isn't all there, or keeps more than 262,144 bytes.
    Record(u32),
    /// The input has more than 268,435,456 bytes.
    TooLong,
    /// A read failed.
    Read,
    /// A write failed.
    Write,
    /// Memory ran out.
    Memory,
}
