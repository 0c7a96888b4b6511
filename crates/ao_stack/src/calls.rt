//! The connection of a pair is called.
ghost use Rattle.std.specs.Prelude.{◌≡◌, ℕ, List, None, length};
ghost use Rattle.book_cmd_node.specs.declared.node.Act.TheVariants as act;
ghost use Rattle.book_stack.specs.Calls.{At, kept};
ghost use Rattle.book_stack.specs.Stacks.{StackState};
ghost use Rattle.stack_ends.specs.Calls.{given_as};
ghost use Rattle.ao_stack.specs.Answers.{Follows, IsDone, IsGiven, IsTaken};
ghost use Rattle.ao_stack.specs.Stands.{Stands};

use crate::stack::Stack;
use book_base::Pair;
use stack_ends::Taken;
use tcp_endpoint::GiveAnswer;

impl Stack {
    /// The connection of the pair is dropped, with all that is kept of it. False exactly where the pair
    /// isn't held; then nothing has changed.
    pub fn remove(&mut self, pair: &Pair) -> bool
        ensures { (s : StackState) → Stands self.old s → Follows self.new (At pair.now act.Remove) s (IsDone result) }
    {
        let held = self.ends.remove(pair);
        if !held {
            return false;
        }
        self.watches.remove(pair);
        self.alarms.remove(pair);
        self.line.remove(pair);
        true
    }

    /// What follows where a piece was given to the end of the pair, or wasn't.
    fn follow_given(&mut self, pair: &Pair, answer: GiveAnswer)
        ensures { (s : StackState) (piece : List ℕ) → Stands self.old s
            → Stands self.new (kept pair.now (act.Give piece) (given_as answer) s) }
    {
        match answer {
            GiveAnswer::Ok => self.touch(pair),
            GiveAnswer::Full => {}
            GiveAnswer::Closed => {}
        }
    }

    /// A piece is given to the connection of the pair, to be sent (RFC 9293, section 3.10.2): all of it
    /// or, after a refusal, nothing. `None` exactly where the pair isn't held.
    pub fn give(&mut self, pair: &Pair, piece: &[u8]) -> Option<GiveAnswer>
        ensures { (s : StackState) → Stands self.old s → Follows self.new (At pair.now (act.Give piece.now)) s
            (IsGiven result) }
    {
        match self.ends.give(pair, piece) {
            None => None,
            Some(answer) => {
                self.follow_given(pair, answer);
                Some(answer)
            }
        }
    }

    /// The first bytes that the connection of the pair received are moved to the front of `room`, as many
    /// as are ready and fit; the rest of it stays (RFC 9293, section 3.10.3). `None` exactly where the
    /// pair isn't held.
    pub fn take(&mut self, pair: &Pair, room: &mut [u8]) -> Option<Taken>
        ensures taken { (s : StackState) → Stands self.old s
            → Follows self.new (At pair.now (act.Take (length room.old))) s (IsTaken room.old room.new result) }
        ensures untouched { result ≡ None → room.new ≡ room.old }
    {
        match self.ends.take(pair, room) {
            None => None,
            Some(taken) => {
                self.touch(pair);
                Some(taken)
            }
        }
    }

    /// The connection of the pair takes no more bytes to send, and a FIN is sent behind those that it was
    /// given (RFC 9293, section 3.10.4). False exactly where the pair isn't held.
    pub fn close(&mut self, pair: &Pair) -> bool
        ensures { (s : StackState) → Stands self.old s → Follows self.new (At pair.now act.Close) s (IsDone result) }
    {
        match self.ends.close(pair) {
            None => false,
            Some(()) => {
                self.touch(pair);
                true
            }
        }
    }

    /// The connection of the pair is closed at once, and a RST is sent where the peer may know of it (RFC
    /// 9293, section 3.10.5). False exactly where the pair isn't held.
    pub fn abort(&mut self, pair: &Pair) -> bool
        ensures { (s : StackState) → Stands self.old s → Follows self.new (At pair.now act.Abort) s (IsDone result) }
    {
        match self.ends.abort(pair) {
            None => false,
            Some(()) => {
                self.touch(pair);
                true
            }
        }
    }
}
