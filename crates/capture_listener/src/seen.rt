//! What is told of segments, and of packets that are passed over.
ghost use Rattle.std.specs.Prelude.{◌≡◌};
ghost use Rattle.std.specs.List.{list_any};
ghost use Rattle.book_sessions.specs.OutcomeTexts.{is_broken, is_doubtful, is_unread, is_verified};
ghost use Rattle.book_sessions.specs.Retiring.{latest_seen};

use book_captures::Skipped;
use book_segments::DatagramFault;
use book_sessions::{KeyUse, PassedCount, PassedOver, SegmentOutcome};

/// Whether a segment is verified.
pub fn is_verified(outcome: SegmentOutcome) -> bool
    ensures { result ≡ is_verified outcome }
{
    matches!(outcome, SegmentOutcome::Verified)
}

fn is_unread(why: Skipped) -> bool
    ensures { result ≡ is_unread why }
{
    !matches!(why, Skipped::NotIp | Skipped::NotSession)
}

fn is_broken(fault: DatagramFault) -> bool
    ensures { result ≡ is_broken fault }
{
    !matches!(fault, DatagramFault::NotTcp)
}

fn is_doubtful(why: PassedOver) -> bool
    ensures { result ≡ is_doubtful why }
{
    match why {
        PassedOver::NoDatagram(why) => is_unread(why),
        PassedOver::NoTime => true,
        PassedOver::Faulty(fault) => is_broken(fault),
    }
}

/// Whether a packet that was passed over may be one of TCP.
pub fn has_doubtful(passed: &[PassedCount]) -> bool
    ensures { result ≡ list_any (λ c. is_doubtful c.why) passed.now }
{
    passed.iter().any(|count| is_doubtful(count.why))
}

/// The latest of a time and of those at which segments were seen, in seconds since 1970.
pub fn latest_seen(time: u64, uses: &[KeyUse]) -> u64
    ensures { result ≡ latest_seen time uses.now }
{
    let mut latest = time;
    for one in uses {
        latest = latest.max(one.last);
    }
    latest
}
