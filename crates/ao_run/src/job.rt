//! A command with what it stands on: the tables of its key file, where it reads one.
ghost use Rattle.std.specs.Prelude.{◌≡◌, ℕ, List};
ghost use Rattle.book_answer.specs.Commands.{reads_input};
ghost use Rattle.ao_run.specs.Gathered.{KeysRead, Prepares};
ghost use Rattle.ao_run.specs.Jobs.{whole_command};

use crate::key_fault::stop_of;
use crate::stop::Stop;
use ao_base::{ReadProblem, Source, read_all};
use book_answer::Command;
use book_cmd_link::Plan;
use cmd_check::Form;
use key_table::{MOST_KEYS, Tables, read_tables};
use std::alloc::Global;

/// A command that writes when all was read.
#[derive(Drop)]
pub(crate) enum Whole {
    /// Run a link file that names the key that both ends share.
    Link,
    /// Run a link file.
    LinkKeys(Tables),
    /// Show datagrams.
    Show,
    /// Check test vectors.
    Vectors,
    /// Show the rows with their state at a time.
    Keys(Tables, u64),
    /// Judge the tables.
    Lint(Tables, Plan),
    /// Run so many events that are made from a seed.
    Storm(u64, u32),
    /// Run a link file, and read what was delivered as BGP messages.
    Bgp(Tables),
    /// Run a link file with retransmission timers.
    Timed(Tables),
    /// Run many connections at one node.
    Node(Tables),
}

/// What the program is to do, once the words are read and the key file is judged.
#[derive(Drop)]
pub(crate) enum Job {
    /// Read the whole input, and write then.
    Whole(Whole),
    /// Judge stored segments that are given so, and write of each as it is read.
    Check(Form, Tables),
}

impl Whole {
    /// Whether the command reads standard input.
    pub(crate) fn reads_input(&self) -> bool
        ensures { result ≡ reads_input (whole_command self.now) }
    {
        !matches!(self, Whole::Keys(..) | Whole::Storm(..))
    }
}

/// The tables of the key file.
fn tables_in<K: Source>(alloc: Global, keys: &mut K) -> Result<Tables, Stop>
    ensures { (k : List ℕ) × KeysRead k (K.side keys.old) (K.side keys.new) result }
{
    let text = match read_all(alloc, keys, MOST_KEYS) {
        Ok(text) => text,
        Err(ReadProblem::Memory) => return Err(Stop::Memory),
        Err(ReadProblem::Fault) => return Err(Stop::Read),
        Err(ReadProblem::TooLong) => return Err(Stop::KeysTooLong),
    };
    match read_tables(alloc, text.as_slice()) {
        Ok(tables) => Ok(tables),
        Err(fault) => Err(stop_of(alloc, fault)),
    }
}

/// The command with the tables of its key file, which is read where the command stands on them.
#[tactic(auto, using(crate::proofs::JobLaws::plain_prepared))]
pub(crate) fn prepare<K: Source>(alloc: Global, command: Command, keys: &mut K) -> Result<Job, Stop>
    ensures { (k : List ℕ) × Prepares command k (K.side keys.old) (K.side keys.new) result }
{
    match command {
        Command::Link => Ok(Job::Whole(Whole::Link)),
        Command::LinkKeys => Ok(Job::Whole(Whole::LinkKeys(tables_in(alloc, keys)?))),
        Command::Check => Ok(Job::Check(Form::Lines, tables_in(alloc, keys)?)),
        Command::CheckPcap => Ok(Job::Check(Form::Pcap, tables_in(alloc, keys)?)),
        Command::Show => Ok(Job::Whole(Whole::Show)),
        Command::Vectors => Ok(Job::Whole(Whole::Vectors)),
        Command::Keys(time) => Ok(Job::Whole(Whole::Keys(tables_in(alloc, keys)?, time))),
        Command::Lint(plan) => Ok(Job::Whole(Whole::Lint(tables_in(alloc, keys)?, plan))),
        Command::Storm(seed, count) => Ok(Job::Whole(Whole::Storm(seed, count))),
        Command::Bgp => Ok(Job::Whole(Whole::Bgp(tables_in(alloc, keys)?))),
        Command::Timed => Ok(Job::Whole(Whole::Timed(tables_in(alloc, keys)?))),
        Command::Node => Ok(Job::Whole(Whole::Node(tables_in(alloc, keys)?))),
    }
}
