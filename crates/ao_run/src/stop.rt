//! How a command ends: with output, or without.
ghost use Rattle.std.specs.Prelude.{◌≡◌};
ghost use Rattle.book_lines.specs.Faults.{input_fault_text};
ghost use Rattle.book_answer.specs.Answers.{Answer, refusal};
ghost use Rattle.command_report.specs.Reports.{Stopped as NoReport};
ghost use Rattle.ao_run.specs.Stops.{IsHalted, Stopped, status_of, text_of};
ghost use Rattle.ao_run.specs.declared.stop.Stop.TheVariants.{Memory};

use crate::pcap_fault::{of_head, of_record};
use book_base::Bytes;
use book_lines::TextFault;
use cmd_check::Halt;
use std::alloc::{AllocError, Global};
use text_lines::print_fault;

const USAGE: &[u8] =
    b"usage: aotcp link [KEYS] | check KEYS | show | vectors | keys KEYS TIME | lint KEYS LEAD LAG FROM TO | \
storm SEED COUNT | check --pcap KEYS | bgp KEYS | timed KEYS | node KEYS\n";

/// The whole output of a command.
#[derive(Drop)]
pub(crate) struct Output {
    /// 0, or 1 where the output has something amiss.
    pub(crate) status: u8,
    pub(crate) bytes: Bytes,
}

/// Why a command wrote no output, or not all of it.
#[derive(Drop)]
pub(crate) enum Stop {
    /// The words are in no command's form.
    Usage,
    /// The key file has more bytes than its limit.
    KeysTooLong,
    /// The key file has a fault; with the text that names it.
    Keys(Bytes),
    /// The input has more bytes than its limit.
    TooLong,
    /// The input isn't in the command's grammar; with the text that names its fault.
    Input(Bytes),
    /// The plain run of a link with timers has more events than one may have.
    TooManyEvents,
    /// A read failed.
    Read,
    /// A write failed.
    Write,
    /// Memory ran out.
    Memory,
}

impl From<AllocError> for Stop {
    ghost from_gives = { λ _ e. e ≡ Memory };

    fn from(_e: AllocError) -> Stop {
        Stop::Memory
    }
}

impl Stop {
    /// Why an input with this fault has no output.
    pub(crate) fn of_input(alloc: Global, fault: &TextFault) -> Stop
        ensures text { Stopped result (refusal 4 (input_fault_text fault.now)) }
        ensures memory { fault.now ≡ TextFault.Memory → result ≡ Memory }
    {
        match fault {
            TextFault::Memory => Stop::Memory,
            _ => match print_fault(alloc, fault) {
                Ok(text) => Stop::Input(text),
                Err(_) => Stop::Memory,
            },
        }
    }

    /// How the program ends where a command made no report.
    pub(crate) fn of_command(alloc: Global, stop: command_report::Stop) -> Stop
        ensures { (a : Answer) → NoReport stop a → Stopped result a }
    {
        match stop {
            command_report::Stop::Input(fault) => Stop::of_input(alloc, &fault),
            command_report::Stop::TooManyEvents => Stop::TooManyEvents,
            command_report::Stop::Memory => Stop::Memory,
        }
    }

    /// Why a check of stored segments ended so.
    pub(crate) fn of_check(alloc: Global, halt: Halt) -> Stop
        ensures { IsHalted halt result }
    {
        match halt {
            Halt::Line(number, kind) => Stop::of_input(alloc, &TextFault::Line(number, kind)),
            Halt::Head(fault) => of_head(alloc, fault),
            Halt::Record(number) => of_record(alloc, number),
            Halt::TooLong => Stop::TooLong,
            Halt::Read => Stop::Read,
            Halt::Write => Stop::Write,
            Halt::Memory => Stop::Memory,
        }
    }

    /// The status of the program.
    pub(crate) fn status(&self) -> u8
        ensures { result ≡ status_of self.now }
    {
        match self {
            Stop::Usage => 2,
            Stop::KeysTooLong => 3,
            Stop::Keys(_) => 3,
            Stop::TooLong => 4,
            Stop::Input(_) => 4,
            Stop::TooManyEvents => 4,
            Stop::Read => 5,
            Stop::Write => 6,
            Stop::Memory => 7,
        }
    }

    /// The text for standard error.
    pub(crate) fn text(&self) -> &[u8]
        ensures { result.now ≡ text_of self.now }
    {
        match self {
            Stop::Usage => USAGE,
            Stop::KeysTooLong => b"keys: too long\n",
            Stop::Keys(text) => text.as_slice(),
            Stop::TooLong => b"input: too long\n",
            Stop::Input(text) => text.as_slice(),
            Stop::TooManyEvents => b"input: too many events\n",
            Stop::Read => b"read fault\n",
            Stop::Write => b"write fault\n",
            Stop::Memory => b"memory\n",
        }
    }
}
