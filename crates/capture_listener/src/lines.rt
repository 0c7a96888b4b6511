//! What a line of a checker says.
ghost use Rattle.std.specs.Prelude.{◌≡◌};
ghost use Rattle.capture_listener.specs.Lines.{line_anew, refusal_anew, says_bad_mac, says_judged};
ghost use Rattle.capture_listener.specs.Lines.{says_range, says_refused, says_searched, says_unknown};

use book_endpoint::Refusal;
use capture_check::CheckLine;

/// Whether a node judged the segment.
pub(crate) fn is_judged(line: &CheckLine) -> bool
    ensures { result ≡ says_judged line.now }
{
    matches!(line, CheckLine::Verdict(_, _))
}

/// Whether a node refused the segment.
pub(crate) fn is_refused(line: &CheckLine) -> bool
    ensures { result ≡ says_refused line.now }
{
    matches!(line, CheckLine::Verdict(Err(_), _))
}

/// Whether a node knows no context for the segment.
pub(crate) fn is_unknown(line: &CheckLine) -> bool
    ensures { result ≡ says_unknown line.now }
{
    matches!(line, CheckLine::Verdict(Err(Refusal::NoContext), _))
}

fn is_bad_mac(line: &CheckLine) -> bool
    ensures { result ≡ says_bad_mac line.now }
{
    matches!(line, CheckLine::Verdict(Err(Refusal::BadMac), _))
}

fn is_range(line: &CheckLine) -> bool
    ensures { result ≡ says_range line.now }
{
    matches!(line, CheckLine::Verdict(Err(Refusal::Range), _))
}

/// Whether the segment may pass over more laps: its MAC is wrong, or its number out of range.
pub(crate) fn is_searched(line: &CheckLine) -> bool
    ensures { result ≡ says_searched line.now }
{
    is_bad_mac(line) || is_range(line)
}

fn refusal_anew(why: Refusal) -> Refusal
    ensures { result ≡ refusal_anew why }
{
    match why {
        Refusal::BadMac => Refusal::NoContext,
        Refusal::Range => Refusal::NoContext,
        other => other,
    }
}

/// What a line says of a segment, where the connection between its sockets was opened anew, or wasn't: then a refusal
/// for its numbers says as much as no context.
pub(crate) fn told_anew(anew: bool, line: CheckLine) -> CheckLine
    ensures { result ≡ line_anew anew line }
{
    if !anew {
        return line;
    }
    match line {
        CheckLine::Verdict(Err(why), checksum) => {
            CheckLine::Verdict(Err(refusal_anew(why)), checksum)
        }
        other => other,
    }
}
