//! Which sockets the session has that is drawn.
ghost use Rattle.std.specs.Prelude.{◌≡◌, ◌∷◌, ◌++◌, [], List, IfOk, OnOk};
ghost use Rattle.book_draw.specs.SessionLadders.{session_ladder};
ghost use Rattle.book_draw.specs.SessionRungs.{ends_of, is_between, rungs_of_session};
ghost use Rattle.book_draw.specs.declared.session_rung.SessionRung.{SessionRung as Segment};
ghost use Rattle.book_draw.specs.declared.span.DrawnTime.{DrawnTime as Time};
ghost use Rattle.scope_ladder.specs.Searches.{Seeks, shown_rungs, shown_text};

use crate::known::KnownEnds;
use book_draw::{SessionEnds, SessionRung};
use std::alloc::{AllocError, Global};

/// The search for a session: its number, the sessions that are known, up to it, and its sockets, once they
/// are known.
#[derive(Drop)]
pub(crate) struct Search {
    pub(crate) number: u64,
    pub(crate) known: KnownEnds,
    pub(crate) found: Option<SessionEnds>,
}

/// What is drawn of a segment.
#[derive(Clone, Copy)]
pub(crate) enum Shown {
    /// It is of another session.
    Nothing,
    /// It is the first one of the session, between these sockets.
    First(SessionEnds),
    /// It is a later one.
    Later(SessionEnds),
}

fn ends_of(rung: &SessionRung) -> SessionEnds
    ensures { result ≡ ends_of rung.now }
{
    SessionEnds {
        left: rung.source,
        right: rung.destination,
    }
}

fn is_between(ends: &SessionEnds, rung: &SessionRung) -> bool
    ensures { result ≡ is_between ends.now rung.now }
{
    (rung.source == ends.left && rung.destination == ends.right)
        || (rung.source == ends.right && rung.destination == ends.left)
}

impl Search {
    /// A search for the session of this number.
    pub(crate) fn new(alloc: Global, number: u64) -> Search
        ensures number { result.number ≡ number }
        ensures seeks { Seeks result [] }
    {
        Search {
            number,
            known: KnownEnds::new(alloc),
            found: None,
        }
    }

    // A segment, while the session isn't found.
    fn seek(&mut self, rung: &SessionRung) -> Result<Shown, AllocError>
        ensures number { self.new.number ≡ self.old.number }
        ensures seeks { (rs : List Segment) → Seeks self.old rs → self.old.found ≡ None
            → OnOk result (Seeks self.new (rs ++ rung.now ∷ [])) }
        ensures shown { (t : Time) (rs : List Segment) → Seeks self.old rs → self.old.found ≡ None
            → IfOk result (λ shown. session_ladder t self.old.number (rs ++ rung.now ∷ [])
            ≡ session_ladder t self.old.number rs ++ shown_text t shown rung.now) }
        ensures rungs { (rs : List Segment) → Seeks self.old rs → self.old.found ≡ None
            → IfOk result (λ shown. rungs_of_session self.old.number (rs ++ rung.now ∷ [])
            ≡ rungs_of_session self.old.number rs ++ shown_rungs shown rung.now) }
    {
        if self.known.has(rung) {
            return Ok(Shown::Nothing);
        }
        let ends = ends_of(rung);
        self.known.push(ends)?;
        if self.known.len() == self.number {
            self.found = Some(ends);
            return Ok(Shown::First(ends));
        }
        Ok(Shown::Nothing)
    }

    /// What is drawn of the next segment.
    pub(crate) fn place(&mut self, rung: &SessionRung) -> Result<Shown, AllocError>
        ensures number { self.new.number ≡ self.old.number }
        ensures seeks { (rs : List Segment) → Seeks self.old rs → OnOk result (Seeks self.new (rs ++ rung.now ∷ [])) }
        ensures shown { (t : Time) (rs : List Segment) → Seeks self.old rs
            → IfOk result (λ shown. session_ladder t self.old.number (rs ++ rung.now ∷ [])
            ≡ session_ladder t self.old.number rs ++ shown_text t shown rung.now) }
        ensures rungs { (rs : List Segment) → Seeks self.old rs
            → IfOk result (λ shown. rungs_of_session self.old.number (rs ++ rung.now ∷ [])
            ≡ rungs_of_session self.old.number rs ++ shown_rungs shown rung.now) }
    {
        match self.found {
            None => self.seek(rung),
            Some(ends) => {
                if is_between(&ends, rung) {
                    Ok(Shown::Later(ends))
                } else {
                    Ok(Shown::Nothing)
                }
            }
        }
    }
}
