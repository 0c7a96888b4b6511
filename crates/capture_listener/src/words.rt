//! Words for what comes of a segment, and when two of them are the same.
ghost use Rattle.std.specs.Prelude.{◌≡◌, ◌++◌, codes};
ghost use Rattle.book_link.specs.Reports.{verdict_text};
ghost use Rattle.book_sessions.specs.OutcomeTexts.{outcome_text};
ghost use Rattle.book_sessions.specs.Sessions.{same_id, same_outcome, same_protection};

use book_endpoint::Refusal;
use book_sessions::{Protection, SegmentOutcome};
use segment_words::verdict_word;

fn unconfirmed_word(why: Refusal) -> &'static [u8]
    ensures { result.now ≡ codes "unconfirmed-" ++ verdict_text why }
{
    match why {
        Refusal::NoAo => b"unconfirmed-no-ao",
        Refusal::TwoAo => b"unconfirmed-two-ao",
        Refusal::WithMd5 => b"unconfirmed-with-md5",
        Refusal::NoTuple => b"unconfirmed-no-tuple",
        Refusal::Expired => b"unconfirmed-expired",
        Refusal::MacLength => b"unconfirmed-mac-length",
        Refusal::NoContext => b"unconfirmed-no-context",
        Refusal::Range => b"unconfirmed-range",
        Refusal::BadMac => b"unconfirmed-bad-mac",
    }
}

/// The word for what comes of a segment: that it is verified or unconfirmed, or why it isn't.
pub fn outcome_word(outcome: SegmentOutcome) -> &'static [u8]
    ensures { result.now ≡ outcome_text outcome }
{
    match outcome {
        SegmentOutcome::Verified => b"verified",
        SegmentOutcome::Refused(why) => verdict_word(why),
        SegmentOutcome::NoNode => b"unknown-node",
        SegmentOutcome::TooMany => b"full",
        SegmentOutcome::Unconfirmed => b"unconfirmed",
        SegmentOutcome::UnconfirmedRefused(why) => unconfirmed_word(why),
        SegmentOutcome::CutOff => b"cut-off",
    }
}

pub(crate) fn is_same_outcome(one: SegmentOutcome, two: SegmentOutcome) -> bool
    ensures { result ≡ same_outcome one two }
{
    outcome_word(one) == outcome_word(two)
}

pub(crate) fn is_same_protection(one: Protection, two: Protection) -> bool
    ensures { result ≡ same_protection one two }
{
    one == two
}

pub(crate) fn is_same_id(one: Option<u8>, two: Option<u8>) -> bool
    ensures { result ≡ same_id one two }
{
    one == two
}
