//! Which segments are of connections that go on.
ghost use Rattle.std.specs.Prelude.{◌≡◌, ◌++◌, ◌∷◌, IfOk, List, OnOk, cond, filter};
ghost use Rattle.book_sessions.specs.declared.uses.KeyUse.{KeyUse as Use};
ghost use Rattle.book_sessions.specs.Retiring.{ending_by, is_counted, is_live, may_be_right};
ghost use Rattle.capture_listener.specs.Known.{HasSession};

use crate::ending::{ending_among, is_ended};
use crate::index::SessionIndex;
use book_endpoint::Refusal;
use book_sessions::{Ending, KeyUse, SegmentOutcome};
use std::alloc::{AllocError, Global};

fn may_be_right(outcome: SegmentOutcome) -> bool
    ensures { result ≡ may_be_right outcome }
{
    match outcome {
        SegmentOutcome::Refused(why) => matches!(why, Refusal::NoContext),
        _ => true,
    }
}

/// Whether these may be segments under a key.
pub(crate) fn is_counted(one: &KeyUse) -> bool
    ensures { result ≡ is_counted one.now }
{
    one.key_id.is_some() && may_be_right(one.outcome)
}

// How the connection of a use ends, found among the uses of its own session.
fn ending_by(index: &SessionIndex, one: &KeyUse) -> Ending
    requires { HasSession index.now.uses one.now }
    ensures { result ≡ ending_by one.now index.now.uses }
{
    let uses = index.uses();
    ending_among(uses, index.places_of(one.session), one)
}

// Whether these may be segments under a key of a connection that goes on.
fn is_live(index: &SessionIndex, one: &KeyUse) -> bool
    requires { HasSession index.now.uses one.now }
    ensures { result ≡ is_live index.now.uses one.now }
{
    is_counted(one) && !is_ended(&ending_by(index, one))
}

// Puts the segments behind others, if they are chosen.
fn push_chosen(out: &mut Vec<KeyUse>, chosen: bool, one: &KeyUse) -> Result<(), AllocError>
    ensures { (others : List Use)
        → OnOk result (out.new.items ++ others ≡ out.old.items ++ cond chosen (one.now ∷ others) others) }
{
    if chosen {
        out.push(*one)?;
    }
    Ok(())
}

// Puts the segments behind others, if they are of a connection that goes on.
fn push_live(out: &mut Vec<KeyUse>, index: &SessionIndex, one: &KeyUse) -> Result<(), AllocError>
    requires { HasSession index.now.uses one.now }
    ensures { (others : List Use)
        → OnOk result (out.new.items ++ others ≡ out.old.items
        ++ cond (is_live index.now.uses one.now) (one.now ∷ others) others) }
{
    push_chosen(out, is_live(index, one), one)
}

/// The segments of connections that go on.
pub(crate) fn live_uses(alloc: Global, index: &SessionIndex) -> Result<Vec<KeyUse>, AllocError>
    ensures { IfOk result (λ v. v.items ≡ filter (is_live index.now.uses) index.now.uses) }
{
    let mut out = Vec::new(alloc);
    for one in index.uses() {
        push_live(&mut out, index, one)?;
    }
    Ok(out)
}
