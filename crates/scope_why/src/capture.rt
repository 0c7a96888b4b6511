//! A capture, read as far as the packet that is asked for.
ghost use Rattle.std.specs.Prelude.{◌≡◌, ◌<◌, [], ℕ, false, IfOk, List};
ghost use Rattle.ao_base.specs.Outside.{Side};
ghost use Rattle.book_cmd_check.specs.Handshakes.{given_after};
ghost use Rattle.book_scope_plan.specs.AdminNames.{KeyFile};
ghost use Rattle.book_why.specs.Answers.{WhyAsked, no_packet_line};
ghost use Rattle.capture_check.specs.Checkers.{StandsFor};
ghost use Rattle.capture_walk.specs.Reads.{new_reading};
ghost use Rattle.scope_why.specs.Reading.{Reads};
ghost use Rattle.scope_why.specs.Replies.{asked_of, key_file_of};

use crate::answer::{Answered, answer_packet};
use crate::front::{hear_packet, told_first};
use crate::question::Question;
use crate::segment_line::push_no_packet;
use crate::shown::stored_shown;
use ao_base::{Source, Steps};
use book_sessions::GivenIsns;
use capture_check::Checker;
use capture_walk::{CaptureHalt, CaptureReader, CaptureStep, WalkHalt};
use key_table::Tables;
use std::alloc::{AllocError, Global};
use std::marker::Brand;
use std::sync::ledger::{Blank, Ledger};

// The answer where a capture of so many packets has none of this number.
fn answer_missing(alloc: Global, number: u64, count: u64) -> Result<Answered, AllocError>
    ensures text { IfOk result (λ a. a.text.items ≡ no_packet_line number count) }
    ensures passes { IfOk result (λ a. a.passes ≡ false) }
{
    let mut text = Vec::new(alloc);
    push_no_packet(&mut text, number, count)?;
    Ok(Answered {
        text,
        passes: false,
    })
}

// The answer on the first packet of this number that a new reader shows: by the tables that the checker has, and
// behind what was told, of which it knows the connections and no others.
fn answer_behind<L: Ledger, I: Source>(
    reader: &mut CaptureReader,
    checker: &mut Checker,
    told: &mut Vec<GivenIsns>,
    alloc: Global,
    steps: &mut Steps<L>,
    question: &Question<'_>,
    number: u64,
    input: &mut I,
) -> Result<Answered, WalkHalt>
    requires reader { reader.old ≡ new_reading }
    requires stands { StandsFor checker.old.entries (given_after [] told.old.items) }
    ensures { (bytes : List ℕ) × Reads (key_file_of question.now checker.old.tables)
        (asked_of question.now told.old.items number) bytes (I.side input.old) (I.side input.new) result }
{
    let mut count: u64 = 0;
    'parts: loop {
        match reader.next(input) {
            Ok(CaptureStep::Packet) => {}
            Ok(CaptureStep::Block) => continue 'parts,
            Ok(CaptureStep::End) => match answer_missing(alloc, number, count) {
                Ok(answered) => return Ok(answered),
                Err(_) => return Err(WalkHalt::Memory),
            },
            Err(CaptureHalt::Read) => return Err(WalkHalt::Read),
            Err(CaptureHalt::TooLong) => return Err(WalkHalt::TooLong),
            Err(CaptureHalt::Broken(fault)) => return Err(WalkHalt::Broken(fault)),
        }
        let stored = stored_shown(reader);
        if reader.number() == number {
            match answer_packet(
                checker,
                told.as_slice(),
                question,
                alloc,
                steps,
                number,
                stored,
            ) {
                Ok(answered) => return Ok(answered),
                Err(_) => return Err(WalkHalt::Memory),
            }
        }
        match hear_packet(checker, told, alloc, steps, stored) {
            Ok(()) => {}
            Err(_) => return Err(WalkHalt::Memory),
        }
        count += 1;
    }
}

// The same as `answer_capture`, with a counter of derivations. The loop stands apart, over what it borrows: each of
// its ends would drop what was made here.
fn answer_counted<L: Ledger, I: Source>(
    alloc: Global,
    tables: Tables,
    given: &[GivenIsns],
    question: &Question<'_>,
    number: u64,
    input: &mut I,
    blank: Blank,
) -> Result<Answered, WalkHalt>
    requires name { blank.name ≡ L.name }
    requires parts { blank.parts ≡ L.parts }
    requires part { 0 < blank.parts }
    ensures { (bytes : List ℕ) × Reads (key_file_of question.now tables) (asked_of question.now given.now number) bytes
        (I.side input.old) (I.side input.new) result }
{
    let mut steps = Steps::<L>::new(blank);
    let mut reader = match CaptureReader::new(alloc) {
        Ok(reader) => reader,
        Err(_) => return Err(WalkHalt::Memory),
    };
    let mut checker = match Checker::behind(alloc, tables, given) {
        Ok(checker) => checker,
        Err(_) => return Err(WalkHalt::Memory),
    };
    let mut told = match told_first(alloc, given) {
        Ok(told) => told,
        Err(_) => return Err(WalkHalt::Memory),
    };
    answer_behind(
        &mut reader,
        &mut checker,
        &mut told,
        alloc,
        &mut steps,
        question,
        number,
        input,
    )
}

/// The answer on the first packet of this number of a capture, which is read as far as that packet: by the
/// tables, as behind handshakes with the given initial sequence numbers. Broken where the capture has this fault
/// and no packet in front of it has the number; Read only where the source's count of faults rose; TooLong only
/// where it gave more than 2^63 bytes; and Memory where memory ran out.
pub(crate) fn answer_capture<I: Source>(
    alloc: Global,
    tables: Tables,
    given: &[GivenIsns],
    question: &Question<'_>,
    number: u64,
    input: &mut I,
) -> Result<Answered, WalkHalt>
    ensures { (bytes : List ℕ) × Reads (key_file_of question.now tables) (asked_of question.now given.now number) bytes
        (I.side input.old) (I.side input.new) result }
{
    answer_counted::<Brand, I>(alloc, tables, given, question, number, input, Blank::new(1))
}
