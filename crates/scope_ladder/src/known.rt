//! The sessions that are known, each found by its two sockets.
ghost use Rattle.std.specs.Prelude.{◌≡◌, ◌∷◌, ◌++◌, [], OnOk, length};
ghost use Rattle.std.specs.List.{list_any};
ghost use Rattle.book_draw.specs.SessionRungs.{is_between};

use book_base::Pair;
use book_draw::{SessionEnds, SessionRung};
use std::alloc::{AllocError, Global};
use std::collections::BTreeSet;
use std::marker::Model;

/// The sockets of sessions, in the order of their first segments; seen as that list. Whether one of them is
/// that of a segment costs one look-up.
#[derive(Drop)]
pub(crate) struct KnownEnds {
    ends: Vec<SessionEnds>,
    pairs: BTreeSet<Pair>,
}

impl Model for KnownEnds {
    ghost use Rattle.std.specs.Prelude.{List};
    ghost use Rattle.book_draw.specs.declared.session_rung.SessionEnds.{SessionEnds as Ends};
    ghost use Rattle.scope_ladder.specs.Known.{ArePairsOf};

    ghost Value = { List Ends };

    ghost view = { λ x. x.ends.items };

    ghost invariant = { λ x. ArePairsOf x.pairs.keys x.ends.items };
}

impl KnownEnds {
    /// No session is known.
    pub(crate) fn new(alloc: Global) -> KnownEnds
        ensures { result ≡ [] }
    {
        KnownEnds {
            ends: Vec::new(alloc),
            pairs: BTreeSet::new(alloc),
        }
    }

    /// How many are known.
    pub(crate) fn len(&self) -> u64
        ensures { result ≡ length self.now }
    {
        self.ends.len() as u64
    }

    /// Whether a segment is between the sockets of one of them, in either direction.
    pub(crate) fn has(&self, rung: &SessionRung) -> bool
        ensures { result ≡ list_any (λ e. is_between e rung.now) self.now }
    {
        self.pairs
            .contains(&Pair::sorted(rung.source, rung.destination))
    }

    /// One more is known.
    pub(crate) fn push(&mut self, ends: SessionEnds) -> Result<(), AllocError>
        ensures { OnOk result (self.new ≡ self.old ++ ends ∷ []) }
    {
        self.ends.reserve(1)?;
        self.pairs.insert(Pair::sorted(ends.left, ends.right))?;
        self.ends.push_reserved(ends);
        Ok(())
    }
}
