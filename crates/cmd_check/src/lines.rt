//! Lines of stored segments, each read, judged and answered before the next.
ghost use Rattle.std.specs.Prelude.{◌≡◌, ◌+◌, ◌<◌, ℕ, List, [], None, false, length};
ghost use Rattle.book_cmd_check.specs.StoredLines.{stored_from};
ghost use Rattle.cmd_check.specs.CheckedLines.{Checks, JudgesLine, segments_of};
ghost use Rattle.cmd_check.specs.Judges.{HasHeard};

use crate::halt::Halt;
use crate::judge::Judge;
use crate::writer::write_lines;
use ao_base::{LineReader, LineStep, Sink, Source, Steps};
use book_cmd_check::MOST_LINE;
use book_lines::LineKind;
use book_pcap::MOST_CAPTURE;
use capture_check::{LineProblem, Stored, read_line};
use key_table::Tables;
use std::alloc::Global;
use std::sync::ledger::{Blank, Ledger};

/// The most bytes of a line.
const LONGEST: u32 = MOST_LINE as u32;

/// What becomes of one line behind those that were read before: what is said of its segment is
/// gathered and written at once.
fn judge_line<L: Ledger, O: Sink>(
    judge: &mut Judge,
    alloc: Global,
    steps: &mut Steps<L>,
    number: u32,
    line: &[u8],
    gathered: &mut Vec<u8>,
    out: &mut O,
) -> Result<(), Halt>
    requires { gathered.old.items ≡ [] }
    ensures { (lines : List (List ℕ)) → number ≡ length lines + 1 → (stored_from 1 lines).fault ≡ None
        → HasHeard judge.old (segments_of lines) →
        JudgesLine judge.old.checking.tables judge.new lines line.now gathered.new.items (O.side out.old)
        (O.side out.new) result }
{
    match read_line(alloc, line) {
        Ok(Stored::Empty) => Ok(()),
        Ok(Stored::Segment(time, bytes)) => {
            let number = u64::from(number);
            match judge.hear(alloc, steps, number, time, bytes.as_slice(), gathered) {
                Ok(()) => {}
                Err(_) => return Err(Halt::Memory),
            }
            match write_lines(gathered, out) {
                Ok(()) => Ok(()),
                Err(_) => Err(Halt::Write),
            }
        }
        Err(LineProblem::Memory) => Err(Halt::Memory),
        Err(LineProblem::Bad(kind)) => Err(Halt::Line(number, kind)),
    }
}

/// Judges the stored segments of all lines that a new reader shows, by a judge that has heard none, and writes the
/// line of each before it reads on.
fn check_all<L: Ledger, I: Source, O: Sink>(
    reader: &mut LineReader,
    judge: &mut Judge,
    alloc: Global,
    steps: &mut Steps<L>,
    gathered: &mut Vec<u8>,
    input: &mut I,
    out: &mut O,
) -> Result<bool, Halt>
    requires reader { reader.old ≡
        record {
          longest = 131200;
          most = 268435456;
          kept = [];
          taken = 0;
          lacks_newline = false;
          over = false;
          line = None;
        } }
    requires heard { HasHeard judge.old [] }
    requires gathered { gathered.old.items ≡ [] }
    ensures { (given : List ℕ) ×
        Checks judge.old.checking.tables given (I.side input.old) (I.side input.new) (O.side out.old) (O.side out.new)
        result }
{
    let mut number: u32 = 0;
    'lines: loop {
        match reader.next(input) {
            LineStep::Line => {}
            LineStep::End => return Ok(judge.is_amiss()),
            LineStep::Fault => return Err(Halt::Read),
            LineStep::TooLong => return Err(Halt::TooLong),
            LineStep::LongLine => return Err(Halt::Line(number + 1, LineKind::Range)),
        }
        number += 1;
        match judge_line(judge, alloc, steps, number, reader.line(), gathered, out) {
            Ok(()) => {}
            Err(halt) => return Err(halt),
        }
        // The source was at its end, and isn't asked again.
        if reader.lacks_newline() {
            return Ok(judge.is_amiss());
        }
    }
}

/// Judges the stored segments of the lines of an input, and writes the line of each before it reads on. The loop
/// stands apart, over what it borrows: each of its ends would drop what is made here.
pub(crate) fn check_lines<L: Ledger, I: Source, O: Sink>(
    alloc: Global,
    tables: Tables,
    input: &mut I,
    out: &mut O,
    blank: Blank,
) -> Result<bool, Halt>
    requires name { blank.name ≡ L.name }
    requires parts { blank.parts ≡ L.parts }
    requires part { 0 < blank.parts }
    ensures { (given : List ℕ) × Checks tables given (I.side input.old) (I.side input.new) (O.side out.old)
        (O.side out.new) result }
{
    let mut steps = Steps::<L>::new(blank);
    let mut reader = match LineReader::new(alloc, LONGEST, MOST_CAPTURE) {
        Ok(reader) => reader,
        Err(_) => return Err(Halt::Memory),
    };
    let mut judge = match Judge::new(alloc, tables) {
        Ok(judge) => judge,
        Err(_) => return Err(Halt::Memory),
    };
    let mut gathered = Vec::new(alloc);
    check_all(
        &mut reader,
        &mut judge,
        alloc,
        &mut steps,
        &mut gathered,
        input,
        out,
    )
}
