//! The answer on a packet of a capture, written when the capture was read as far as that packet.
ghost use Rattle.std.specs.Prelude.{◌≡◌, ℕ, List};
ghost use Rattle.ao_base.specs.Outside.{Side};
ghost use Rattle.scope_keys.specs.KeyFiles.{key_file_of};
ghost use Rattle.scope_why.specs.Writing.{Writes, WritesAnswer, question_of};

use crate::answer::Answered;
use crate::capture::answer_capture;
use crate::question::Question;
use ao_base::{Failed, Sink, Source, write_all};
use book_sessions::GivenIsns;
use capture_walk::WalkHalt;
use scope_keys::KeyFile;
use std::alloc::Global;

/// Which packet is asked for, by its number from 1, and whether its traffic key is, which is a secret.
#[derive(Clone, Copy, Debug, PartialEq, Eq)]
pub struct WhyRequest {
    pub number: u64,
    pub with_key: bool,
}

// Writes an answer.
fn write_answer<O: Sink>(answered: &Answered, out: &mut O) -> Result<bool, WalkHalt>
    ensures { WritesAnswer answered.now (O.side out.old) (O.side out.new) result }
{
    match write_all(out, answered.text.as_slice()) {
        Ok(()) => Ok(answered.passes),
        Err(Failed) => Err(WalkHalt::Write),
    }
}

/// Writes why the check says what it says of the first packet of the number that is asked for in a capture:
/// the lines that `book_why` defines, judged by the tables of a key file as behind handshakes with the
/// given initial sequence numbers, and behind the packets in front of it; where no packet of the
/// capture has the number, that. No packet after it is read, at most 16,842,752 bytes are taken past its part of the
/// capture, and what follows it doesn't matter. Ok where the whole answer was written: whether the packet passes.
///
/// Broken comes where the capture has this fault and no packet in front of it has the number; Read only where the
/// source's count of faults rose; TooLong only where it gave more than 2^63 bytes; Write only where the sink's count of
/// faults rose, with a front part of the answer written; and Memory where memory ran out. With all but Write nothing
/// was written. With Broken, Read, TooLong and Memory at most 16,842,776 bytes were taken past the last part of the
/// capture that was read.
pub fn write_why<I: Source, O: Sink>(
    alloc: Global,
    request: WhyRequest,
    file: KeyFile,
    isns: &[GivenIsns],
    input: &mut I,
    out: &mut O,
) -> Result<bool, WalkHalt>
    ensures { (given : List ℕ) × Writes (key_file_of file) (question_of request isns.now) given (I.side input.old)
        (I.side input.new) (O.side out.old) (O.side out.new) result }
{
    let KeyFile { document, tables } = file;
    let question = Question {
        document: &document,
        with_key: request.with_key,
    };
    match answer_capture(alloc, tables, isns, &question, request.number, input) {
        Ok(answered) => write_answer(&answered, out),
        Err(halt) => Err(halt),
    }
}
