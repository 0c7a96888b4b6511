//! Reading the input of a command that writes when all was read, and making its output.
ghost use Rattle.std.specs.Prelude.{◌≡◌, ℕ, List, true, Some};
ghost use Rattle.book_answer.specs.Answers.{answer_over};
ghost use Rattle.ao_run.specs.Gathered.{GatheredBehind, InputGathered, is_ready, tables_in};
ghost use Rattle.ao_run.specs.Jobs.{whole_command, whole_tables};
ghost use Rattle.ao_run.specs.Stops.{Makes};

use crate::job::Whole;
use crate::stop::{Output, Stop};
use crate::told::told;
use ao_base::{ReadProblem, Source, read_all};
use book_base::Bytes;
use cmd_link::{answer_link, answer_link_keys, answer_storm};
use cmd_show::{answer_keys, answer_lint, answer_show, answer_vectors};
use std::alloc::Global;

/// The most bytes of an input that is read whole.
const MOST_INPUT: u64 = 33_554_432;

/// The whole input, where the command reads it; else no byte.
fn input_for<I: Source>(alloc: Global, whole: &Whole, input: &mut I) -> Result<Bytes, Stop>
    ensures { (i : List ℕ) × InputGathered (whole_command whole.now) i (I.side input.old) (I.side input.new) result }
{
    if !whole.reads_input() {
        return Ok(Bytes::from_vec(Vec::new(alloc)));
    }
    match read_all(alloc, input, MOST_INPUT) {
        Ok(text) => Ok(text),
        Err(ReadProblem::Memory) => Err(Stop::Memory),
        Err(ReadProblem::Fault) => Err(Stop::Read),
        Err(ReadProblem::TooLong) => Err(Stop::TooLong),
    }
}

/// The output of a command to an input within its limit.
fn answer(alloc: Global, whole: Whole, input: &[u8]) -> Result<Output, Stop>
    requires { is_ready (Some (whole_command whole)) ≡ true }
    ensures { Makes result (answer_over (whole_command whole) (tables_in (whole_tables whole)) input.now) }
{
    let answer = match whole {
        Whole::Link => answer_link(alloc, input),
        Whole::LinkKeys(tables) => answer_link_keys(alloc, tables, input),
        Whole::Show => answer_show(alloc, input),
        Whole::Vectors => answer_vectors(alloc, input),
        Whole::Keys(tables, time) => answer_keys(alloc, &tables, time),
        Whole::Lint(tables, plan) => answer_lint(alloc, &tables, plan, input),
        Whole::Storm(seed, count) => answer_storm(alloc, seed, count),
        Whole::Bgp(tables) => cmd_link::answer_bgp(alloc, tables, input),
        Whole::Timed(tables) => cmd_link::answer_timed(alloc, tables, input),
        Whole::Node(tables) => cmd_node::answer(alloc, &tables, input),
    };
    told(alloc, answer)
}

/// Reads the input, where the command reads it, and makes its output.
pub(crate) fn gather<I: Source>(alloc: Global, whole: Whole, input: &mut I) -> Result<Output, Stop>
    requires { is_ready (Some (whole_command whole)) ≡ true }
    ensures { (i : List ℕ) × GatheredBehind whole i (I.side input.old) (I.side input.new) result }
{
    let text = match input_for(alloc, &whole, input) {
        Ok(text) => text,
        Err(stop) => return Err(stop),
    };
    answer(alloc, whole, text.as_slice())
}
