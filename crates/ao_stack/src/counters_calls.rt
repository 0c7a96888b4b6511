//! The connection of a pair is called.
ghost use Rattle.std.specs.Prelude.{◌≡◌, None, length};
ghost use Rattle.book_cmd_node.specs.declared.node.Act.TheVariants as act;
ghost use Rattle.book_stack.specs.Counters.{StackCounts};
ghost use Rattle.book_stack.specs.Calls.{At};
ghost use Rattle.book_stack.specs.Stacks.{StackState};
ghost use Rattle.ao_stack.specs.Answers.{IsDone, IsGiven, IsTaken};
ghost use Rattle.ao_stack.specs.CountersAnswers.{Follows};
ghost use Rattle.ao_stack.specs.CountersStands.{Stands};

use crate::counted_stack::CountedStack;
use book_base::Pair;
use stack_ends::Taken;
use tcp_endpoint::GiveAnswer;

impl CountedStack {
    /// The connection of the pair is dropped, with its tally and all else that is kept of it. False
    /// exactly where the pair isn't held; then nothing has changed.
    pub fn remove(&mut self, pair: &Pair) -> bool
        ensures { (s : StackState) (n : StackCounts) → Stands self.old s n
            → Follows self.new (At pair.now act.Remove) s n (IsDone result) }
    {
        let held = self.stack.remove(pair);
        if !held {
            return false;
        }
        self.tallies.remove(pair);
        true
    }

    /// A piece is given to the connection of the pair, to be sent (RFC 9293, section 3.10.2): all of it
    /// or, after a refusal, nothing. `None` exactly where the pair isn't held.
    pub fn give(&mut self, pair: &Pair, piece: &[u8]) -> Option<GiveAnswer>
        ensures { (s : StackState) (n : StackCounts) → Stands self.old s n
            → Follows self.new (At pair.now (act.Give piece.now)) s n (IsGiven result) }
    {
        self.stack.give(pair, piece)
    }

    /// The first bytes that the connection of the pair received are moved to the front of `room`, as many
    /// as are ready and fit; the rest of it stays (RFC 9293, section 3.10.3). `None` exactly where the
    /// pair isn't held.
    pub fn take(&mut self, pair: &Pair, room: &mut [u8]) -> Option<Taken>
        ensures taken { (s : StackState) (n : StackCounts) → Stands self.old s n
            → Follows self.new (At pair.now (act.Take (length room.old))) s n (IsTaken room.old room.new result) }
        ensures untouched { result ≡ None → room.new ≡ room.old }
    {
        self.stack.take(pair, room)
    }

    /// The connection of the pair takes no more bytes to send, and a FIN is sent behind those that it was
    /// given (RFC 9293, section 3.10.4). False exactly where the pair isn't held.
    pub fn close(&mut self, pair: &Pair) -> bool
        ensures { (s : StackState) (n : StackCounts) → Stands self.old s n
            → Follows self.new (At pair.now act.Close) s n (IsDone result) }
    {
        self.stack.close(pair)
    }

    /// The connection of the pair is closed at once, and a RST is sent where the peer may know of it (RFC
    /// 9293, section 3.10.5). False exactly where the pair isn't held.
    pub fn abort(&mut self, pair: &Pair) -> bool
        ensures { (s : StackState) (n : StackCounts) → Stands self.old s n
            → Follows self.new (At pair.now act.Abort) s n (IsDone result) }
    {
        self.stack.abort(pair)
    }
}
