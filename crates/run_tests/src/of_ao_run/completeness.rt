//! What completeness says over memory of which no call is told to fail: a proved caller of the top
//! call.
ghost use Rattle.std.specs.Prelude.{◌≡◌, ◌⊎◌, ◌<◌, [], IfOk, length};
ghost use Rattle.book_answer.specs.Answers.{answer_of};
ghost use Rattle.book_answer.specs.Commands.{command_of};

use ao_base::{MemSink, MemSource, QuietSink};
use ao_run::run;
use book_base::{Bytes, Numbers, Words};
use std::alloc::{AllocError, Global};

/// A source of these bytes, no call of which is told to fail.
fn source(alloc: Global, content: Bytes) -> MemSource
    ensures { result ≡ record { left = content; piece = 4294967295; failing = []; calls = 0; faults = 0 } }
{
    MemSource::new(content, u32::MAX, Numbers::from_vec(Vec::new(alloc)))
}

/// The status, and the bytes that were written into a room greater than the answer's output: the
/// whole answer, unless memory runs out.
fn over_memory(
    alloc: Global,
    words: &Words,
    keys: Bytes,
    input: Bytes,
    room: usize,
) -> Result<(u8, MemSink), AllocError>
    requires done { (answer_of (command_of words.now) keys input).status < 2 }
    requires room { length (answer_of (command_of words.now) keys input).output < room }
    ensures { IfOk result (λ told.
        ((told.0 ≡ (answer_of (command_of words.now) keys input).status)
        × (told.1.held ≡ (answer_of (command_of words.now) keys input).output))
        ⊎ (told.0 ≡ 7)) }
{
    let mut keys = source(alloc, keys);
    let mut input = source(alloc, input);
    let mut out = MemSink::new(alloc, room, Numbers::from_vec(Vec::new(alloc)))?;
    let mut err = QuietSink::new();
    let status = run(alloc, words, &mut keys, &mut input, &mut out, &mut err);
    Ok((status, out))
}
