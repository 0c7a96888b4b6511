//! What an event answers by which no segment is made and nothing comes.
ghost use Rattle.link_report.specs.Outcomes.{Shows};
ghost use Rattle.link_report.specs.SideOutcomes.{outcome_of};

use link_report::{Answer, Outcome};

/// The outcome that an end answered.
pub(crate) fn told(answer: Answer) -> Outcome
    ensures { Shows result (outcome_of answer) }
{
    match answer {
        Answer::Done => Outcome::Done,
        Answer::IsnUsed => Outcome::IsnUsed,
        Answer::NoSession => Outcome::NoSession,
        Answer::Full => Outcome::Full,
        Answer::Closed => Outcome::Closed,
        Answer::Took(bytes, end_shown) => Outcome::Took(bytes, end_shown),
        Answer::Added(row) => Outcome::Added(row),
        Answer::TooManyRows => Outcome::TooManyRows,
        Answer::Overlap(row) => Outcome::Overlap(row),
        Answer::NoRow => Outcome::NoRow,
    }
}
