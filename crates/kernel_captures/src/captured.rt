//! A capture, checked by a key file.
ghost use Rattle.std.specs.Prelude.{ℕ, List};
ghost use Rattle.ao_base.specs.Outside.{Gave};
ghost use Rattle.kernel_captures.specs.Captured.{ChecksBy};

use ao_base::{Sink, Source, read_all};
use cmd_check::{Form, Halt, answer};
use key_table::{MOST_KEYS, read_tables};
use std::alloc::Global;

/// Why a capture wasn't checked to its end.
#[derive(Clone, Copy, Debug, PartialEq, Eq)]
pub enum Unchecked {
    /// The key file wasn't read, or isn't one; nothing of the capture was taken, and nothing written.
    Keys,
    /// The check of its packets ended early.
    Capture(Halt),
}

/// Judges the packets of a pcap file by the tables of a key file, and writes the line of each that has
/// a datagram. Ok at the file's end, and whether some segment is no pass.
pub fn check_by<K: Source, I: Source, O: Sink>(
    alloc: Global,
    keys: &mut K,
    capture: &mut I,
    out: &mut O,
) -> Result<bool, Unchecked>
    ensures { (text : List ℕ) × Gave text (K.side keys.old) (K.side keys.new)
        × ChecksBy text (I.side capture.old) (I.side capture.new) (O.side out.old) (O.side out.new) result }
{
    let text = match read_all(alloc, keys, MOST_KEYS) {
        Ok(text) => text,
        Err(_) => return Err(Unchecked::Keys),
    };
    let tables = match read_tables(alloc, text.as_slice()) {
        Ok(tables) => tables,
        Err(_) => return Err(Unchecked::Keys),
    };
    match answer(alloc, tables, Form::Pcap, capture, out) {
        Ok(amiss) => Ok(amiss),
        Err(halt) => Err(Unchecked::Capture(halt)),
    }
}
