//! The top call.
ghost use Rattle.std.specs.Prelude.{◌≡◌, ℕ, List, true, Some};
ghost use Rattle.ao_run.specs.Ended.{Ended, EndedBehind};
ghost use Rattle.ao_run.specs.Gathered.{is_ready};
ghost use Rattle.ao_run.specs.Jobs.{job_command, job_tables, whole_command, whole_tables};
ghost use Rattle.ao_run.specs.Obeys.{Sides};
ghost use Rattle.ao_run.specs.Runs.{Runs};

use crate::asked::Asked;
use crate::gather::gather;
use crate::job::{Job, Whole, prepare};
use crate::stop::Stop;
use crate::stream::check;
use ao_base::{Failed, Sink, Source, write_all};
use book_answer::Command;
use book_base::Words;
use std::alloc::Global;

/// Reads the input, where the command reads it, and then writes the whole output.
fn make_whole<I: Source, O: Sink>(
    alloc: Global,
    whole: Whole,
    input: &mut I,
    out: &mut O,
) -> Result<u8, Stop>
    requires { is_ready (Some (whole_command whole)) ≡ true }
    ensures { (i : List ℕ) × EndedBehind (whole_command whole) (whole_tables whole) i (I.side input.old)
        (I.side input.new) (O.side out.old) (O.side out.new) result }
{
    let output = match gather(alloc, whole, input) {
        Ok(output) => output,
        Err(stop) => return Err(stop),
    };
    match write_all(out, output.bytes.as_slice()) {
        Ok(()) => Ok(output.status),
        Err(Failed) => Err(Stop::Write),
    }
}

/// Does the job, or stops; tells nothing.
fn do_job<I: Source, O: Sink>(
    alloc: Global,
    job: Job,
    input: &mut I,
    out: &mut O,
) -> Result<u8, Stop>
    requires { is_ready (Some (job_command job)) ≡ true }
    ensures { (i : List ℕ) × EndedBehind (job_command job) (job_tables job) i (I.side input.old) (I.side input.new)
        (O.side out.old) (O.side out.new) result }
{
    match job {
        Job::Whole(whole) => make_whole(alloc, whole, input, out),
        Job::Check(form, tables) => check(alloc, form, tables, input, out),
    }
}

/// Does what the command says, the key file first, or stops; tells nothing.
#[tactic(auto, using(crate::proofs::JobLaws::job_ready))]
fn act<K: Source, I: Source, O: Sink>(
    alloc: Global,
    command: Option<Command>,
    keys: &mut K,
    input: &mut I,
    out: &mut O,
) -> Result<u8, Stop>
    requires { is_ready command ≡ true }
    ensures { (k : List ℕ) × (i : List ℕ) × Ended command k i
        (record { keys = K.side keys.old; input = I.side input.old })
        (record { keys = K.side keys.new; input = I.side input.new })
        (O.side out.old) (O.side out.new) result }
{
    let Some(command) = command else {
        return Err(Stop::Usage);
    };
    match prepare(alloc, command, keys) {
        Ok(job) => do_job(alloc, job, input, out),
        Err(stop) => Err(stop),
    }
}

/// Does what the words say, and answers the program's status.
///
/// `keys` is the key file, `input` standard input, `out` standard output and `err` standard error.
/// The words are looked at first, then the key file is read, where the words ask for it, then the
/// input; then the whole output is written. The first fault in this order is answered. `check` judges
/// its input as it reads it, a line or a packet at a time, and writes what it says of each segment as
/// it reads on: however it ends, no more than 196,736 bytes, or 327,720 of a pcap file, were taken
/// behind the last line or packet that it judged.
///
/// | status | comes | text for `err` |
/// |---|---|---|
/// | 0 | done | none |
/// | 1 | done, with a forgery, a vector that differs, a connection not aligned, or a segment that is no pass | none |
/// | 2 | exactly where the words are in no command's form; nothing is read | the usage |
/// | 3 | exactly where the key file has a fault, or over 1,048,576 bytes; the input isn't read | `keys: ..` |
/// | 4 | exactly where the input isn't in the command's grammar, or is over its limit | `input: ..` |
/// | 5 | only where a source that is read failed | `read fault` |
/// | 6 | only where `out` failed; a proper front part of the output was written | `write fault` |
/// | 7 | for want of memory | `memory` |
///
/// With 2 to 5 and 7 nothing is written to `out`, except by `check`: with 4, 5 and 7 it has written
/// what it says of the segments that it judged, but with 7 perhaps not of the last one, and with 6 a
/// front part of what it says of the last one follows. A fault of `err` changes no status.
pub fn run<K: Source, I: Source, O: Sink, E: Sink>(
    alloc: Global,
    words: &Words,
    keys: &mut K,
    input: &mut I,
    out: &mut O,
    err: &mut E,
) -> u8
    ensures { (k : List ℕ) × (i : List ℕ) × Runs words.now k i
        (record { keys = K.side keys.old; input = I.side input.old; out = O.side out.old; err = E.side err.old })
        (record { keys = K.side keys.new; input = I.side input.new; out = O.side out.new; err = E.side err.new })
        result }
{
    Asked::read(words).run(alloc, keys, input, out, err)
}

impl<'a> Asked<'a> {
    /// Does what the words say, as [`run`], without reading them again.
    pub fn run<K: Source, I: Source, O: Sink, E: Sink>(
        &self,
        alloc: Global,
        keys: &mut K,
        input: &mut I,
        out: &mut O,
        err: &mut E,
    ) -> u8
        ensures { (k : List ℕ) × (i : List ℕ) × Runs self.now k i
            (record { keys = K.side keys.old; input = I.side input.old; out = O.side out.old; err = E.side err.old })
            (record { keys = K.side keys.new; input = I.side input.new; out = O.side out.new; err = E.side err.new })
            result }
    {
        match act(alloc, self.command(), keys, input, out) {
            Ok(status) => status,
            Err(stop) => {
                let _ = write_all(err, stop.text());
                stop.status()
            }
        }
    }
}
