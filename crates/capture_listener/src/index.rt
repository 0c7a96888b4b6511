//! A table of sessions, counted segment by segment.
ghost use Rattle.std.specs.Prelude.{◌≡◌, ◌≤◌, IfOk, OnErr, OnOk, filter, true};
ghost use Rattle.book_sessions.specs.Sessions.{and_counted, and_segment, no_sessions, session_of, with_unset};
ghost use Rattle.book_sessions.specs.SessionTexts.{is_of_session};
ghost use Rattle.capture_listener.specs.Groups.{HaveOneSession};
ghost use Rattle.capture_listener.specs.Places.{places_of};

use crate::groups::{count_first, count_known, number_of, signs_among, uses_at};
use crate::passed::count_passed;
use crate::signs::signs_at;
use book_base::Pair;
use book_sessions::{KeyUse, PassedCount, PassedOver, SeenSegment};
use std::alloc::{AllocError, Global};
use std::collections::BTreeMap;
use std::marker::Model;

/// A table of sessions: what its segments use, in the order in which it was first used, what was passed over, how
/// many sessions there are, and how many segments have no header checksum; seen as that table. The uses of a session
/// are found by its two sockets and by its number, so that a segment costs one look-up among the sessions and a walk
/// over the uses of its own. Memory grows with uses, and not with segments.
#[derive(Drop)]
pub struct SessionIndex {
    uses: Vec<KeyUse>,
    passed: Vec<PassedCount>,
    groups: Vec<Vec<usize>>,
    numbers: BTreeMap<Pair, usize>,
    unset: u64,
}

impl Model for SessionIndex {
    ghost use Rattle.std.specs.Prelude.{length};
    ghost use Rattle.book_sessions.specs.Sessions.{SessionTable};
    ghost use Rattle.capture_listener.specs.Groups.{IsIndexed, lists_of};

    ghost Value = { SessionTable };

    ghost view = { λ x. record {
      sessions = length x.groups.items;
      uses = x.uses.items;
      passed = x.passed.items;
      unset = x.unset;
    } };

    ghost invariant = { λ x. IsIndexed x.uses.items (lists_of x.groups.items) x.numbers.entries };
}

impl SessionIndex {
    /// A table that counts nothing.
    pub fn new(alloc: Global) -> SessionIndex
        ensures { result ≡ no_sessions }
    {
        SessionIndex {
            uses: Vec::new(alloc),
            passed: Vec::new(alloc),
            groups: Vec::new(alloc),
            numbers: BTreeMap::new(alloc),
            unset: 0,
        }
    }

    /// What the segments use, in the order in which it was first used. Segments between the same sockets
    /// are of one session.
    pub fn uses(&self) -> &[KeyUse]
        ensures uses { result.now ≡ self.now.uses }
        ensures one { HaveOneSession self.now.uses }
    {
        self.uses.as_slice()
    }

    /// How many packets are passed over for each reason.
    pub fn passed(&self) -> &[PassedCount]
        ensures { result.now ≡ self.now.passed }
    {
        self.passed.as_slice()
    }

    /// How many segments have no header checksum.
    pub fn unset(&self) -> u64
        ensures { result ≡ self.now.unset }
    {
        self.unset
    }

    /// How many sessions there are. They have the numbers from 1 on.
    pub fn sessions(&self) -> u64
        ensures { result ≡ self.now.sessions }
    {
        self.groups.len() as u64
    }

    /// The places of the uses of the session of this number among all of them, in order, from 0. There
    /// are none where no session has this number.
    pub fn places_of(&self, number: u64) -> &[usize]
        ensures { result.now ≡ places_of number self.now.uses }
    {
        let _uses = self.uses.as_slice();
        if number == 0 {
            return &[];
        }
        if number > self.groups.len() as u64 {
            return &[];
        }
        self.groups[number as usize - 1].as_slice()
    }

    /// The uses of the session of this number, in order. An error for want of memory alone.
    pub fn uses_of(&self, alloc: Global, number: u64) -> Result<Vec<KeyUse>, AllocError>
        ensures { IfOk result (λ v. v.items ≡ filter (is_of_session number) self.now.uses) }
    {
        uses_at(alloc, self.uses(), self.places_of(number))
    }

    /// Counts a segment; it begins another session where none is known between its sockets. After an error
    /// nothing has changed: it comes for want of memory, or where 2^64 - 1 segments of its kind are counted.
    pub fn count_segment(&mut self, alloc: Global, segment: &SeenSegment) -> Result<(), AllocError>
        ensures counted { OnOk result (self.new ≡ and_segment (session_of segment.now self.old.uses) segment.now
            self.old) }
        ensures unchanged { OnErr result (self.new ≡ self.old) }
    {
        match number_of(&self.numbers, segment) {
            Some(number) => {
                let signs = signs_among(self.uses.as_slice(), &self.groups, number, segment);
                count_known(&mut self.uses, &mut self.groups, number, signs, segment)
            }
            None => count_first(
                alloc,
                &mut self.uses,
                &mut self.groups,
                &mut self.numbers,
                signs_at(None, segment),
                segment,
            ),
        }
    }

    /// Counts a segment whose header checksum isn't set. After an error nothing has changed: it comes where
    /// 2^64 - 1 are counted.
    pub fn count_unset(&mut self) -> Result<(), AllocError>
        ensures counted { OnOk result (self.new ≡ with_unset true self.old) }
        ensures unchanged { OnErr result (self.new ≡ self.old) }
    {
        self.unset = self.unset.checked_add(1).ok_or(AllocError)?;
        Ok(())
    }

    /// Counts a packet: a segment, or why it is passed over. After an error nothing has changed: it comes
    /// for want of memory, or where 2^64 - 1 packets of its kind are counted.
    pub fn count(
        &mut self,
        alloc: Global,
        seen: &Result<SeenSegment, PassedOver>,
    ) -> Result<(), AllocError>
        ensures counted { OnOk result (self.new ≡ and_counted seen.now self.old) }
        ensures unchanged { OnErr result (self.new ≡ self.old) }
    {
        match seen {
            Ok(segment) => self.count_segment(alloc, segment),
            Err(why) => count_passed(&mut self.passed, *why),
        }
    }
}
