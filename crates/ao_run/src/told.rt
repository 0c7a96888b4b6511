//! What a command answered, as the program ends.
ghost use Rattle.std.specs.Prelude.{◌≡◌, if◌then◌else◌};
ghost use Rattle.book_answer.specs.Answers.{Answer};
ghost use Rattle.command_report.specs.Reports.{Reports};
ghost use Rattle.ao_run.specs.Stops.{Makes};

use crate::stop::{Output, Stop};
use command_report::Report;
use std::alloc::Global;

/// The status of a command that came to its end: 1 where something is amiss.
pub(crate) fn status_of(is_amiss: bool) -> u8
    ensures { result ≡ (if is_amiss then 1 else 0) }
{
    if is_amiss { 1 } else { 0 }
}

/// The output of a command's report, or how the program ends without one.
#[tactic(auto, using(crate::proofs::ReportLaws::report_made))]
pub(crate) fn told(
    alloc: Global,
    answer: Result<Report, command_report::Stop>,
) -> Result<Output, Stop>
    ensures { (a : Answer) → Reports answer a → Makes result a }
{
    match answer {
        Ok(report) => Ok(Output {
            status: status_of(report.is_amiss),
            bytes: report.text,
        }),
        Err(stop) => Err(Stop::of_command(alloc, stop)),
    }
}
