//! What a shim answers, as numbers.
ghost use Rattle.std.specs.Prelude.{◌≡◌};
ghost use Rattle.book_segments.specs.Segments.{reading};
ghost use Rattle.aotcp_c.specs.Shims.{reached_pair, left_pair, left_told, reached_told, saved_told, taken_cause};
ghost use Rattle.aotcp_c.specs.Shims.{taken_reason, unsent_cause, unsent_reason};

use crate::numbers::{datagram_number, verdict_number};
use crate::pairs::{no_pair, told_pair};
use crate::shapes::CPair;
use crate::shim_shapes::{CSaved, CShimTold};
use book_base::Pair;
use book_shim::{Unsent, Untaken};
use shim_pairs::{PairUnsent, PairUntaken, Passed, Saved};
use tcp_segment::read_datagram;

/// The pair of a datagram of the own kernel; all zero where the bytes are none.
pub(crate) fn left_pair(bytes: &[u8]) -> CPair
    ensures { result ≡ left_pair (reading bytes.now) }
{
    match read_datagram(bytes) {
        Err(_) => no_pair(),
        Ok(datagram) => told_pair(&Pair {
            local: datagram.source(),
            remote: datagram.destination(),
        }),
    }
}

/// The pair of a datagram from the network; all zero where the bytes are none.
pub(crate) fn reached_pair(bytes: &[u8]) -> CPair
    ensures { result ≡ reached_pair (reading bytes.now) }
{
    match read_datagram(bytes) {
        Err(_) => no_pair(),
        Ok(datagram) => told_pair(&Pair {
            local: datagram.destination(),
            remote: datagram.source(),
        }),
    }
}

/// Why a datagram of the own kernel doesn't go on.
fn unsent_cause(why: PairUnsent) -> u8
    ensures { result ≡ unsent_cause why }
{
    match why {
        PairUnsent::Unsent(Unsent::Bad(_)) => 1,
        PairUnsent::NoNode => 2,
        PairUnsent::Unsent(Unsent::Signed) => 6,
        PairUnsent::Unsent(Unsent::NoContext) => 7,
        PairUnsent::Unsent(Unsent::Range) => 8,
        PairUnsent::Unsent(Unsent::NoKey) => 9,
        PairUnsent::Unsent(Unsent::NoRoom) => 10,
        PairUnsent::Unsent(Unsent::TooLong) => 11,
        PairUnsent::Unsent(Unsent::Foreign) => 12,
        PairUnsent::Unsent(Unsent::Unkeyed) => 13,
    }
}

/// Why bytes of the own kernel are no datagram; else 0.
fn unsent_reason(why: PairUnsent) -> u8
    ensures { result ≡ unsent_reason why }
{
    match why {
        PairUnsent::Unsent(Unsent::Bad(fault)) => datagram_number(fault),
        _ => 0,
    }
}

/// Why a datagram from the network doesn't go on.
fn taken_cause(why: PairUntaken) -> u8
    ensures { result ≡ taken_cause why }
{
    match why {
        PairUntaken::Untaken(Untaken::Bad(_)) => 1,
        PairUntaken::NoNode => 2,
        PairUntaken::Untaken(Untaken::Checksum) => 4,
        PairUntaken::Untaken(Untaken::Refused(_)) => 5,
        PairUntaken::Untaken(Untaken::Foreign) => 12,
        PairUntaken::Untaken(Untaken::Unkeyed) => 13,
    }
}

/// Why bytes from the network are no datagram, or the check refuses their segment; else 0.
fn taken_reason(why: PairUntaken) -> u8
    ensures { result ≡ taken_reason why }
{
    match why {
        PairUntaken::Untaken(Untaken::Bad(fault)) => datagram_number(fault),
        PairUntaken::Untaken(Untaken::Refused(verdict)) => verdict_number(verdict),
        _ => 0,
    }
}

/// What became of a datagram of the own kernel.
pub(crate) fn left_told(pair: CPair, answer: Result<Passed, PairUnsent>) -> CShimTold
    ensures { result ≡ left_told pair answer }
{
    match answer {
        Ok(passed) => CShimTold {
            pair,
            length: passed.length,
            cause: 0,
            reason: 0,
            changed: passed.changed,
        },
        Err(why) => CShimTold {
            pair,
            length: 0,
            cause: unsent_cause(why),
            reason: unsent_reason(why),
            changed: false,
        },
    }
}

/// What became of a datagram from the network.
pub(crate) fn reached_told(pair: CPair, answer: Result<Passed, PairUntaken>) -> CShimTold
    ensures { result ≡ reached_told pair answer }
{
    match answer {
        Ok(passed) => CShimTold {
            pair,
            length: passed.length,
            cause: 0,
            reason: 0,
            changed: passed.changed,
        },
        Err(why) => CShimTold {
            pair,
            length: 0,
            cause: taken_cause(why),
            reason: taken_reason(why),
            changed: false,
        },
    }
}

/// What is saved of a connection.
pub(crate) fn saved_told(saved: &Saved) -> CSaved
    ensures { result ≡ saved_told saved.now }
{
    CSaved {
        pair: told_pair(&saved.pair),
        sent: saved.sent,
        heard: saved.heard,
        own_isn: saved.isns.own,
        peer_isn: saved.isns.peer,
        has_key: saved.key_id.is_some(),
        key_id: saved.key_id.unwrap_or(0),
    }
}
