//! What a capture shows, by which it is told whether rows may go.
ghost use Rattle.std.specs.Prelude.{◌≡◌, IfOk};
ghost use Rattle.book_sessions.specs.Retiring.{evidence_of};
ghost use Rattle.capture_listener.specs.Known.{HaveSessions};
ghost use Rattle.capture_listener.specs.Places.{places_of};

use crate::index::SessionIndex;
use crate::live::live_uses;
use crate::seen::{has_doubtful, latest_seen};
use book_sessions::KeyUse;
use std::alloc::{AllocError, Global};
use std::marker::Model;

/// What a table of sessions shows: its segments, those of connections that go on, whether a packet was passed
/// over that may be a segment, and the latest time at which a segment was seen. It is made once for all rows.
#[derive(Drop)]
pub struct Evidence<'a> {
    index: &'a SessionIndex,
    live: Vec<KeyUse>,
    doubt: bool,
    latest: u64,
}

impl<'a> Model for Evidence<'a> {
    ghost use Rattle.book_sessions.specs.Retiring.{Evidence as Shown};
    ghost use Rattle.capture_listener.specs.Known.{HaveSessions};

    ghost Value = { Shown };

    ghost view = { λ e. record { uses = e.index.now.uses; live = e.live.items; doubt = e.doubt; latest = e.latest } };

    ghost invariant = { λ e. HaveSessions e.index.now.uses e.live.items };
}

impl<'a> Evidence<'a> {
    /// What this table shows. An error for want of memory alone.
    pub fn of(alloc: Global, index: &'a SessionIndex) -> Result<Evidence<'a>, AllocError>
        ensures { IfOk result (λ e. e ≡ evidence_of index.now) }
    {
        let uses = index.uses();
        let live = live_uses(alloc, index)?;
        Ok(Evidence {
            index,
            live,
            doubt: has_doubtful(index.passed()),
            latest: latest_seen(0, uses),
        })
    }

    /// Its segments, in the order in which they were first seen, each of a known session.
    pub fn uses(&self) -> &[KeyUse]
        ensures value { result.now ≡ self.now.uses }
        ensures known { HaveSessions self.now.uses self.now.uses }
    {
        self.index.uses()
    }

    /// The places of the uses of the session of this number among all of them, in order, from 0.
    pub(crate) fn places_of(&self, number: u64) -> &[usize]
        ensures { result.now ≡ places_of number self.now.uses }
    {
        self.index.places_of(number)
    }

    /// The segments of connections that go on, each of a known session.
    pub fn live(&self) -> &[KeyUse]
        ensures value { result.now ≡ self.now.live }
        ensures known { HaveSessions self.now.uses self.now.live }
    {
        self.live.as_slice()
    }

    /// Whether a packet was passed over that may be a segment.
    pub fn doubt(&self) -> bool
        ensures { result ≡ self.now.doubt }
    {
        self.doubt
    }

    /// The latest time at which a segment was seen, in seconds since 1970.
    pub(crate) fn latest(&self) -> u64
        ensures { result ≡ self.now.latest }
    {
        self.latest
    }
}
