//! What a segment shows of its connection.
ghost use Rattle.std.specs.Prelude.{◌≡◌, ◌&&◌};
ghost use Rattle.book_sessions.specs.Sessions.{after_of, greater_of, goes_as, goes_past, if_passed, is_flow_of};
ghost use Rattle.book_sessions.specs.Sessions.{isns_of, knows_both, resets_at, same_flow, same_id, signs_at};

use book_sessions::{FlowIsns, KeyUse, SeenBits, SeenPass, SeenSegment, Signs};

/// Whether a segment goes the way of these.
pub(crate) fn goes_as(segment: &SeenSegment, one: &KeyUse) -> bool
    ensures { result ≡ goes_as segment.now one.now }
{
    segment.source == one.source && segment.destination == one.destination
}

/// The initial sequence numbers of the connection of a segment that passed.
pub(crate) fn isns_of(segment: &SeenSegment) -> Option<FlowIsns>
    ensures { result ≡ isns_of segment.now }
{
    segment.pass.map(|pass| pass.isns)
}

fn is_same_isn(one: Option<u32>, two: Option<u32>) -> bool
    ensures { result ≡ same_id one two }
{
    one == two
}

/// Whether both are none, or the same initial sequence numbers.
pub(crate) fn is_same_flow(one: Option<FlowIsns>, two: Option<FlowIsns>) -> bool
    ensures { result ≡ same_flow one two }
{
    match one {
        None => two.is_none(),
        Some(one) => match two {
            None => false,
            Some(two) => one.own == two.own && is_same_isn(one.peer, two.peer),
        },
    }
}

fn knows_both(isns: Option<FlowIsns>) -> bool
    ensures { result ≡ knows_both isns }
{
    match isns {
        None => false,
        Some(isns) => isns.peer.is_some(),
    }
}

/// Whether these passed in the connection of a segment, and go its way.
pub(crate) fn is_flow_of(segment: &SeenSegment, one: &KeyUse) -> bool
    ensures { result ≡ is_flow_of segment.now one.now }
{
    goes_as(segment, one)
        && (knows_both(isns_of(segment)) && is_same_flow(isns_of(segment), one.isns))
}

/// The greater of a number and of another, if there is one.
pub(crate) fn greater_of(number: u64, other: Option<u64>) -> u64
    ensures { result ≡ greater_of number other }
{
    match other {
        None => number,
        Some(other) => number.max(other),
    }
}

/// The number after the last byte of a segment that passed.
pub(crate) fn after_of(pass: Option<SeenPass>) -> u64
    ensures { result ≡ after_of pass }
{
    match pass {
        None => 0,
        Some(pass) => pass.after,
    }
}

fn goes_past(reached: u64, bits: SeenBits, pass: SeenPass) -> bool
    ensures { result ≡ goes_past reached bits pass }
{
    !bits.syn && (pass.first < pass.after && reached < pass.after)
}

fn resets_at(reached: u64, bits: SeenBits, pass: SeenPass) -> bool
    ensures { result ≡ resets_at reached bits pass }
{
    bits.rst && pass.first == reached
}

fn moves(reached: Option<u64>, segment: &SeenSegment) -> bool
    ensures { result ≡ if_passed (λ n p. goes_past n segment.now.bits p) reached segment.now.pass }
{
    match reached {
        None => false,
        Some(reached) => match segment.pass {
            None => false,
            Some(pass) => goes_past(reached, segment.bits, pass),
        },
    }
}

fn resets(reached: Option<u64>, segment: &SeenSegment) -> bool
    ensures { result ≡ if_passed (λ n p. resets_at n segment.now.bits p) reached segment.now.pass }
{
    match reached {
        None => false,
        Some(reached) => match segment.pass {
            None => false,
            Some(pass) => resets_at(reached, segment.bits, pass),
        },
    }
}

/// What a segment shows, where those in front of it in its connection came so far.
pub(crate) fn signs_at(reached: Option<u64>, segment: &SeenSegment) -> Signs
    ensures { result ≡ signs_at reached segment.now }
{
    let moves = moves(reached, segment);
    Signs {
        moves,
        resets: resets(reached, segment),
        finishes: segment.bits.fin && moves,
    }
}
