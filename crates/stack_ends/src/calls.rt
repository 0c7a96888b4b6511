//! The end of a pair is called.
ghost use Rattle.std.specs.Prelude.{◌≡◌, ◌≤◌, ◌++◌, List, None, length, drop};
ghost use Rattle.book_endpoint.specs.States.{EndState, at_end, take_out, taking};
ghost use Rattle.tcp_endpoint.specs.Ends.{FitsEnd, Stands as EndStands, pair_at_end};
ghost use Rattle.book_keys.specs.Rows.{Row};
ghost use Rattle.book_cmd_node.specs.declared.node.Act.TheVariants as act;
ghost use Rattle.book_cmd_node.specs.NodeRuns.{NodeState, held_end};
ghost use Rattle.stack_ends.specs.Calls.{Asking, CallsAt, Gives, IsDone, Takes, Tells, acting};
ghost use Rattle.stack_ends.specs.Costs.{CostsAsked};
ghost use Rattle.stack_ends.specs.Said.{LeavesIf};
ghost use Rattle.stack_ends.specs.Stands.{Stands, most_of};

use crate::ends::Ends;
use crate::send::{Spoken, repeat, speak};
use ao_base::Steps;
use book_base::Pair;
use std::sync::ledger::Ledger;
use tcp_endpoint::{Endpoint, GiveAnswer};

/// The bytes that were taken.
#[derive(Clone, Copy, Debug, PartialEq, Eq)]
pub struct Taken {
    /// How many they are; they stand in front of the buffer.
    pub count: usize,
    /// The end of the peer's stream is reached (RFC 9293, section 3.10.7.4).
    pub at_end: bool,
}

/// The first ready bytes of an end are moved to the front of `room`.
fn take(end: &mut Endpoint, room: &mut [u8]) -> Taken
    ensures stands { (s : EndState) → EndStands end.old s → EndStands end.new (take_out (length room.old) s) }
    ensures count { (s : EndState) → EndStands end.old s → result.count ≡ length (taking (length room.old) s) }
    ensures filled { (s : EndState) → EndStands end.old s → room.new
        ≡ taking (length room.old) s ++ drop result.count room.old }
    ensures at_end { (s : EndState) → EndStands end.old s → result.at_end ≡ at_end (take_out (length room.old) s) }
    ensures pair { pair_at_end end.new ≡ pair_at_end end.old }
    ensures fits { (rows : List Row) → FitsEnd rows end.old → FitsEnd rows end.new }
{
    let count = end.take(room);
    let at_end = end.at_end();
    Taken { count, at_end }
}

impl Ends {
    /// A piece is given to the end of the pair (RFC 9293, section 3.10.2). `None` exactly where the
    /// pair isn't held.
    pub fn give(&mut self, pair: &Pair, piece: &[u8]) -> Option<GiveAnswer>
        ensures called { (rows : List Row) (n : NodeState) → Stands self.old rows n
            → let q : Asking = record { rows = rows; node = n; pair = pair.now; answers = acting (act.Give piece.now) }
            in CallsAt self.new q result Gives (held_end pair.now n.ends) }
        ensures most { most_of self.new ≡ most_of self.old }
    {
        match self.node.end_mut(pair) {
            Some(end) => Some(end.give(piece)),
            None => None,
        }
    }

    /// The first ready bytes of the end of the pair are moved to the front of `room`, as many as fit; the
    /// rest of it stays. `None` exactly where the pair isn't held.
    pub fn take(&mut self, pair: &Pair, room: &mut [u8]) -> Option<Taken>
        ensures called { (rows : List Row) (n : NodeState) → Stands self.old rows n
            → let q : Asking = record {
              rows = rows;
              node = n;
              pair = pair.now;
              answers = acting (act.Take (length room.old));
            } in
            CallsAt self.new q result (Takes room.old room.new) (held_end pair.now n.ends) }
        ensures untouched { result ≡ None → room.new ≡ room.old }
        ensures most { most_of self.new ≡ most_of self.old }
    {
        match self.node.end_mut(pair) {
            Some(end) => Some(take(end, room)),
            None => None,
        }
    }

    /// The end of the pair takes no more bytes to send (RFC 9293, section 3.10.4). `None` exactly where
    /// the pair isn't held.
    pub fn close(&mut self, pair: &Pair) -> Option<()>
        ensures called { (rows : List Row) (n : NodeState) → Stands self.old rows n
            → let q : Asking = record { rows = rows; node = n; pair = pair.now; answers = acting act.Close } in CallsAt
            self.new q result IsDone (held_end pair.now n.ends) }
        ensures most { most_of self.new ≡ most_of self.old }
    {
        match self.node.end_mut(pair) {
            Some(end) => Some(end.close()),
            None => None,
        }
    }

    /// The end of the pair is closed at once (RFC 9293, section 3.10.5). `None` exactly where the pair
    /// isn't held.
    pub fn abort(&mut self, pair: &Pair) -> Option<()>
        ensures called { (rows : List Row) (n : NodeState) → Stands self.old rows n
            → let q : Asking = record { rows = rows; node = n; pair = pair.now; answers = acting act.Abort } in CallsAt
            self.new q result IsDone (held_end pair.now n.ends) }
        ensures most { most_of self.new ≡ most_of self.old }
    {
        match self.node.end_mut(pair) {
            Some(end) => Some(end.abort()),
            None => None,
        }
    }

    /// The end of the pair makes its next segment in front of `room`, which has at least 1,500 bytes, and
    /// stays where none is made. `None` exactly where the pair isn't held. At most one step is counted, for
    /// the traffic key of a segment, and none where none is made.
    pub fn speak<L: Ledger>(
        &mut self,
        pair: &Pair,
        room: &mut [u8],
        steps: &mut Steps<L>,
    ) -> Option<Spoken>
        requires { 1500 ≤ length room.old }
        ensures called { (rows : List Row) (n : NodeState) → Stands self.old rows n
            → let q : Asking = record { rows = rows; node = n; pair = pair.now; answers = acting act.Send } in CallsAt
            self.new q result (Tells room.new) (held_end pair.now n.ends) }
        ensures room { LeavesIf room.old room.new result }
        ensures costs { CostsAsked result steps.old steps.new }
        ensures most { most_of self.new ≡ most_of self.old }
    {
        match self.node.end_mut(pair) {
            Some(end) => Some(speak(end, &self.table, self.clock, room, steps)),
            None => None,
        }
    }

    /// The end of the pair makes a segment again in front of `room`. All else is as for `speak`.
    pub fn repeat<L: Ledger>(
        &mut self,
        pair: &Pair,
        room: &mut [u8],
        steps: &mut Steps<L>,
    ) -> Option<Spoken>
        requires { 1500 ≤ length room.old }
        ensures called { (rows : List Row) (n : NodeState) → Stands self.old rows n
            → let q : Asking = record { rows = rows; node = n; pair = pair.now; answers = acting act.Resend } in
            CallsAt self.new q result (Tells room.new) (held_end pair.now n.ends) }
        ensures room { LeavesIf room.old room.new result }
        ensures costs { CostsAsked result steps.old steps.new }
        ensures most { most_of self.new ≡ most_of self.old }
    {
        match self.node.end_mut(pair) {
            Some(end) => Some(repeat(end, &self.table, self.clock, room, steps)),
            None => None,
        }
    }
}
