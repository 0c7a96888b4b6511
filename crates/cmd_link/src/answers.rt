//! The whole answer to a link file with waits.
ghost use Rattle.command_report.specs.Reports.{Reports};
ghost use Rattle.cmd_link.specs.Answers.{timed_answer};

use crate::runs::{TimedRun, run_timed};
use both_ends::BothEnds;
use command_report::{Report, Stop};
use key_table::Tables;
use link_script::read_timed;
use link_world::Setup;
use stack_timers::Rto;
use std::alloc::Global;

/// Reads the link file with waits and runs it over the tables; after a report `timers` are
/// those of the two ends.
pub(crate) fn run_text(
    alloc: Global,
    tables: Tables,
    text: &[u8],
    timers: &mut BothEnds<Rto>,
) -> Result<Report, Stop>
    ensures { Reports result (timed_answer tables text.now) }
{
    let script = read_timed(alloc, text)?;
    let setup = Setup {
        tables,
        a: script.a,
        b: script.b,
    };
    match run_timed(alloc, setup, &script.events, timers)? {
        TimedRun::Report(text, forgeries) => {
            let is_amiss = forgeries != 0;
            Ok(Report { text, is_amiss })
        }
        TimedRun::TooMany => Err(Stop::TooManyEvents),
    }
}

/// The answer of `timed`: the report of a link file with waits, run over the tables, which is that of
/// its plain run with `clock` and `resend` for each wait (RFC 6298, section 5). A forgery is amiss.
///
/// `Ok` exactly where the input is such a file and its plain run has at most 20,000 events, and
/// `TooManyEvents` exactly where that has more; its faults are those of `link_script::read_timed`.
/// `Memory` only for want of memory.
pub fn answer_timed(alloc: Global, tables: Tables, input: &[u8]) -> Result<Report, Stop>
    ensures { Reports result (timed_answer tables input.now) }
{
    let mut timers = BothEnds {
        a: Rto::new(),
        b: Rto::new(),
    };
    run_text(alloc, tables, input, &mut timers)
}
