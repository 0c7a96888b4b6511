//! A segment as one of those that are counted together.
ghost use Rattle.std.specs.Prelude.{◌≡◌, IfSome};
ghost use Rattle.book_sessions.specs.Sessions.{asked_by, carries_ids_of, first_use, is_use_of, key_id_of, marked};
ghost use Rattle.book_sessions.specs.Sessions.{passed_as, passed_row, used_again};

use crate::signs::{after_of, goes_as, is_same_flow, isns_of};
use crate::words::{is_same_id, is_same_outcome, is_same_protection};
use book_sessions::{KeyUse, SeenSegment, Signs};

fn key_id_of(segment: &SeenSegment) -> Option<u8>
    ensures { result ≡ key_id_of segment.now }
{
    segment.ids.map(|ids| ids.key_id)
}

fn asked_by(segment: &SeenSegment) -> Option<u8>
    ensures { result ≡ asked_by segment.now }
{
    segment.ids.map(|ids| ids.rnext_key_id)
}

fn passed_row(segment: &SeenSegment) -> Option<u8>
    ensures { result ≡ passed_row segment.now }
{
    segment.pass.map(|pass| pass.row)
}

fn carries_ids_of(segment: &SeenSegment, one: &KeyUse) -> bool
    ensures { result ≡ carries_ids_of segment.now one.now }
{
    (is_same_id(key_id_of(segment), one.key_id) && is_same_id(asked_by(segment), one.asked))
        && is_same_protection(segment.protection, one.protection)
}

fn passed_as(segment: &SeenSegment, one: &KeyUse) -> bool
    ensures { result ≡ passed_as segment.now one.now }
{
    is_same_id(passed_row(segment), one.row) && is_same_flow(isns_of(segment), one.isns)
}

/// Whether a segment is one of these.
pub(crate) fn is_use_of(segment: &SeenSegment, one: &KeyUse) -> bool
    ensures { result ≡ is_use_of segment.now one.now }
{
    goes_as(segment, one)
        && (carries_ids_of(segment, one)
            && (is_same_outcome(segment.outcome, one.outcome) && passed_as(segment, one)))
}

fn marked(shows: bool, packet: u64, before: u64) -> u64
    ensures { result ≡ marked shows packet before }
{
    if shows { packet } else { before }
}

/// A segment as the first of its kind, in the session of this number.
pub(crate) fn first_use(session: u64, signs: Signs, segment: &SeenSegment) -> KeyUse
    ensures { result ≡ first_use session signs segment.now }
{
    KeyUse {
        session,
        source: segment.source,
        destination: segment.destination,
        key_id: key_id_of(segment),
        asked: asked_by(segment),
        protection: segment.protection,
        outcome: segment.outcome,
        row: passed_row(segment),
        isns: isns_of(segment),
        opens: segment.bits.syn && segment.bits.ack,
        segments: 1,
        first: segment.time,
        last: segment.time,
        packet: segment.packet,
        reached: after_of(segment.pass),
        moved: marked(signs.moves, segment.packet, 0),
        reset: marked(signs.resets, segment.packet, 0),
        finished: marked(signs.finishes, segment.packet, 0),
    }
}

/// One more of its kind; None where there are 2^64 - 1.
pub(crate) fn used_again(signs: Signs, segment: &SeenSegment, one: &KeyUse) -> Option<KeyUse>
    ensures { IfSome result (λ now. now ≡ used_again signs segment.now one.now) }
{
    let segments = one.segments.checked_add(1)?;
    Some(KeyUse {
        session: one.session,
        source: one.source,
        destination: one.destination,
        key_id: one.key_id,
        asked: one.asked,
        protection: one.protection,
        outcome: one.outcome,
        row: one.row,
        isns: one.isns,
        opens: one.opens || (segment.bits.syn && segment.bits.ack),
        segments,
        first: one.first.min(segment.time),
        last: one.last.max(segment.time),
        packet: segment.packet,
        reached: one.reached.max(after_of(segment.pass)),
        moved: marked(signs.moves, segment.packet, one.moved),
        reset: marked(signs.resets, segment.packet, one.reset),
        finished: marked(signs.finishes, segment.packet, one.finished),
    })
}
