//! The command `check`, on either form of its input.
ghost use Rattle.std.specs.Prelude.{ℕ, List};
ghost use Rattle.cmd_check.specs.Checked.{Checks};

use crate::halt::Halt;
use crate::lines::check_lines;
use crate::packets::check_packets;
use ao_base::{Sink, Source};
use key_table::Tables;
use std::alloc::Global;
use std::marker::Brand;
use std::sync::ledger::Blank;

/// How stored segments are given.
#[derive(Clone, Copy, Debug, PartialEq, Eq)]
pub enum Form {
    /// As lines of text, a segment a line.
    Lines,
    /// As a pcap file, a segment a packet.
    Pcap,
}

/// Judges the stored segments of an input of this form by the tables, in their order, and writes the
/// line of each as it reads on, before it asks for more of the input. Ok at the input's end, and
/// whether a segment is no pass. A packet without a datagram has no line.
///
/// Of lines at most 196,736 bytes are kept, those of the longest line and 65,536; of a pcap file
/// 327,696, and the lines of its packets that were kept at once. No more bytes than are kept were
/// taken behind the last line or packet whose line was written, but for a pcap file's header.
///
/// | end | comes | what was written |
/// |---|---|---|
/// | `Line` | exactly of lines: the first faulty one | the lines of all segments before it |
/// | `Head`, `Record` | exactly of a pcap file: its first fault | the lines of all packets before it |
/// | `TooLong` | only where over 268,435,456 bytes were given, and no header has a fault | as for `Read` |
/// | `Read` | only where the source's count of faults rose | the lines of all segments that were read |
/// | `Write` | only where the sink's count of faults rose | all lines before the failed one, and a front part of it |
/// | `Memory` | out of memory | the lines of all segments read, but in a pcap file perhaps not of the last one |
pub fn answer<I: Source, O: Sink>(
    alloc: Global,
    tables: Tables,
    form: Form,
    input: &mut I,
    out: &mut O,
) -> Result<bool, Halt>
    ensures { (given : List ℕ) × Checks form tables given (I.side input.old) (I.side input.new)
        (O.side out.old) (O.side out.new) result }
{
    match form {
        Form::Lines => check_lines::<Brand, I, O>(alloc, tables, input, out, Blank::new(1)),
        Form::Pcap => check_packets::<Brand, I, O>(alloc, tables, input, out, Blank::new(1)),
    }
}
