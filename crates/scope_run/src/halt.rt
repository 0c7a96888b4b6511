//! Why a run ends early, by what the calls below answer, and the status of a run.
ghost use Rattle.std.specs.Prelude.{◌≡◌};
ghost use Rattle.book_scope_run.specs.Endings.{halt_status, long_status, status_at};
ghost use Rattle.scope_run.specs.Halts.{halt_of_isns, halt_of_keys, halt_of_ladder, halt_of_lines};
ghost use Rattle.scope_run.specs.Halts.{halt_of_reading, halt_of_stop, halt_of_walk, halt_of_words};

use ao_base::ReadProblem;
use book_lines::TextFault;
use book_scope_run::{Halt, Origin};
use capture_walk::WalkHalt;
use command_report::Stop;
use key_table::TableFault;
use scope_ladder::LadderHalt;
use scope_lines::LinesHalt;

/// Why all ends where reading from there does.
pub(crate) fn halt_of_reading(from: Origin, problem: ReadProblem) -> Halt
    ensures { result ≡ halt_of_reading from problem }
{
    match problem {
        ReadProblem::Memory => Halt::Memory,
        ReadProblem::Fault => Halt::Read(from),
        ReadProblem::TooLong => Halt::TooLong(from),
    }
}

/// Why all ends where the key file has this fault.
pub(crate) fn halt_of_keys(fault: TableFault) -> Halt
    ensures { result ≡ halt_of_keys fault }
{
    match fault {
        TableFault::Memory => Halt::Memory,
        TableFault::Syntax => Halt::Keys(TableFault::Syntax),
        TableFault::Field(node, row, column) => Halt::Keys(TableFault::Field(node, row, column)),
        TableFault::TooMany(node) => Halt::Keys(TableFault::TooMany(node)),
        TableFault::Overlap(node, first, second) => {
            Halt::Keys(TableFault::Overlap(node, first, second))
        }
    }
}

/// Why all ends where the given initial sequence numbers have this fault.
pub(crate) fn halt_of_isns(fault: TextFault) -> Halt
    ensures { result ≡ halt_of_isns fault }
{
    match fault {
        TextFault::Memory => Halt::Memory,
        TextFault::TooManyLines => Halt::TooManyIsns,
        TextFault::Line(number, kind) => Halt::IsnLine(number, kind),
    }
}

fn halt_of_words(fault: TextFault) -> Halt
    ensures { result ≡ halt_of_words fault }
{
    match fault {
        TextFault::Memory => Halt::Memory,
        TextFault::TooManyLines => Halt::TooManyLines,
        TextFault::Line(number, kind) => Halt::InputLine(number, kind),
    }
}

/// Why all ends where no report is made.
pub(crate) fn halt_of_stop(stop: Stop) -> Halt
    ensures { result ≡ halt_of_stop stop }
{
    match stop {
        Stop::Input(fault) => halt_of_words(fault),
        Stop::TooManyEvents => Halt::TooManyEvents,
        Stop::Memory => Halt::Memory,
    }
}

/// Why all ends where the lines of a capture do.
pub(crate) fn halt_of_lines(halt: LinesHalt) -> Halt
    ensures { result ≡ halt_of_lines halt }
{
    match halt {
        LinesHalt::Broken(fault) => Halt::Broken(fault),
        LinesHalt::TooLong => Halt::TooLong(Origin::Input),
        LinesHalt::Read => Halt::Read(Origin::Input),
        LinesHalt::Write => Halt::Write,
        LinesHalt::Memory => Halt::Memory,
    }
}

/// Why all ends where the walk over a capture does.
pub(crate) fn halt_of_walk(halt: WalkHalt) -> Halt
    ensures { result ≡ halt_of_walk halt }
{
    match halt {
        WalkHalt::Broken(fault) => Halt::Broken(fault),
        WalkHalt::TooLong => Halt::TooLong(Origin::Input),
        WalkHalt::Read => Halt::Read(Origin::Input),
        WalkHalt::Write => Halt::Write,
        WalkHalt::Memory => Halt::Memory,
    }
}

/// Why all ends where the session of this number is drawn, and that does.
pub(crate) fn halt_of_ladder(number: u64, halt: LadderHalt) -> Halt
    ensures { result ≡ halt_of_ladder number halt }
{
    match halt {
        LadderHalt::NoSession(many) => Halt::NoSession(number, many),
        LadderHalt::Walk(halt) => halt_of_walk(halt),
    }
}

fn long_status(from: Origin) -> u8
    ensures { result ≡ long_status from }
{
    match from {
        Origin::KeyFile => 3,
        Origin::IsnFile => 4,
        Origin::Input => 4,
    }
}

fn halt_status(halt: Halt) -> u8
    ensures { result ≡ halt_status halt }
{
    match halt {
        Halt::NoSession(_, _) => 1,
        Halt::NoNode => 1,
        Halt::NoConnection => 1,
        Halt::Misused(_) => 2,
        Halt::IsNo(_, _) => 2,
        Halt::NoSuchKey => 2,
        Halt::Keys(_) => 3,
        Halt::IsnLine(_, _) => 4,
        Halt::TooManyIsns => 4,
        Halt::Broken(_) => 4,
        Halt::InputLine(_, _) => 4,
        Halt::TooManyLines => 4,
        Halt::TooManyEvents => 4,
        Halt::TooLong(from) => long_status(from),
        Halt::Read(_) => 5,
        Halt::Write => 6,
        Halt::Memory => 7,
    }
}

/// The status of a run that is done, with something amiss or not, or ended early.
pub(crate) fn status_at(end: Result<bool, Halt>) -> u8
    ensures { result ≡ status_at end }
{
    match end {
        Ok(is_amiss) => { if is_amiss { 1 } else { 0 } }
        Err(halt) => halt_status(halt),
    }
}
