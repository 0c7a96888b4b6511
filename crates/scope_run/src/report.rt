//! Writing a report.
ghost use Rattle.std.specs.Prelude.{◌≡◌};
ghost use Rattle.ao_base.specs.Outside.{Side};
ghost use Rattle.book_answer.specs.Answers.{Answer};
ghost use Rattle.command_report.specs.Reports.{Reports};
ghost use Rattle.scope_run.specs.Answers.{Makes, WritesReport};

use crate::halt::halt_of_stop;
use ao_base::{Failed, Sink, write_all};
use book_scope_run::Halt;
use command_report::{Report, Stop};

/// The report that was made, or why all ends.
pub(crate) fn made(answer: Result<Report, Stop>) -> Result<Report, Halt>
    ensures { (a : Answer) → Reports answer a → Makes result a }
{
    match answer {
        Ok(report) => Ok(report),
        Err(stop) => Err(halt_of_stop(stop)),
    }
}

/// Writes the report that was made; whether something in it is amiss.
pub(crate) fn write_report<O: Sink>(made: Result<Report, Halt>, out: &mut O) -> Result<bool, Halt>
    ensures { WritesReport made (O.side out.old) (O.side out.new) result }
{
    let report = match made {
        Ok(report) => report,
        Err(why) => return Err(why),
    };
    match write_all(out, report.text.as_slice()) {
        Ok(()) => Ok(report.is_amiss),
        Err(Failed) => Err(Halt::Write),
    }
}
