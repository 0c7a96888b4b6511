//! What the check finds of a segment.
ghost use Rattle.std.specs.Prelude.{◌≡◌};
ghost use Rattle.book_link.specs.Reports.{verdict_text};

use book_endpoint::Refusal;

/// The word of a verdict (RFC 5925, section 7.5).
pub fn verdict_word(verdict: Refusal) -> &'static [u8]
    ensures { result.now ≡ verdict_text verdict }
{
    match verdict {
        Refusal::NoAo => b"no-ao",
        Refusal::TwoAo => b"two-ao",
        Refusal::WithMd5 => b"with-md5",
        Refusal::NoTuple => b"no-tuple",
        Refusal::Expired => b"expired",
        Refusal::MacLength => b"mac-length",
        Refusal::NoContext => b"no-context",
        Refusal::Range => b"range",
        Refusal::BadMac => b"bad-mac",
    }
}
