//! What comes of a segment, by the line of a checker.
ghost use Rattle.std.specs.Prelude.{◌≡◌};
ghost use Rattle.capture_listener.specs.Lines.{by_line, by_seen_line, by_unconfirmed, by_verdict};

use book_endpoint::{Passed, Refusal};
use book_sessions::{SeenPass, SegmentOutcome};
use capture_check::CheckLine;

/// What comes of a segment, and what the check found of it where it is verified.
#[derive(Clone, Copy, Debug, PartialEq, Eq)]
pub struct HeardSegment {
    pub outcome: SegmentOutcome,
    pub pass: Option<SeenPass>,
}

fn by_verdict(verdict: &Result<Passed, Refusal>) -> SegmentOutcome
    ensures { result ≡ by_verdict verdict.now }
{
    match verdict {
        Ok(_) => SegmentOutcome::Verified,
        Err(why) => SegmentOutcome::Refused(*why),
    }
}

fn by_unconfirmed(verdict: &Result<Passed, Refusal>) -> SegmentOutcome
    ensures { result ≡ by_unconfirmed verdict.now }
{
    match verdict {
        Ok(_) => SegmentOutcome::Unconfirmed,
        Err(Refusal::NoContext) => SegmentOutcome::Refused(Refusal::NoContext),
        Err(why) => SegmentOutcome::UnconfirmedRefused(*why),
    }
}

/// What comes of a segment of which the checker says this by the connections that are held.
pub(crate) fn by_line(line: &CheckLine) -> SegmentOutcome
    ensures { result ≡ by_line line.now }
{
    match line {
        CheckLine::Bad(_) => SegmentOutcome::NoNode,
        CheckLine::UnknownNode => SegmentOutcome::NoNode,
        CheckLine::Verdict(verdict, _) => by_verdict(verdict),
        CheckLine::Full(_) => SegmentOutcome::TooMany,
    }
}

/// What comes of a segment of which this is said by the connections that are taken to have begun.
pub(crate) fn by_seen_line(line: &CheckLine) -> SegmentOutcome
    ensures { result ≡ by_seen_line line.now }
{
    match line {
        CheckLine::Bad(_) => SegmentOutcome::NoNode,
        CheckLine::UnknownNode => SegmentOutcome::NoNode,
        CheckLine::Verdict(verdict, _) => by_unconfirmed(verdict),
        CheckLine::Full(_) => SegmentOutcome::TooMany,
    }
}
