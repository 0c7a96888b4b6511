//! Giving bytes to an end.
ghost use Rattle.std.specs.Prelude.{◌≡◌, ◌+◌, ◌-◌, ◌≤◌, min, List, length};
ghost use Rattle.book_keys.specs.Rows.{Row};
ghost use Rattle.book_endpoint.specs.States.{EndState, room};
ghost use Rattle.tcp_endpoint.specs.declared.send.GiveAnswer.TheVariants as answers;
ghost use Rattle.tcp_endpoint.specs.Ends.{Stands, FitsEnd, pair_at_end};
ghost use Rattle.tcp_endpoint.specs.Answers.{give_answer, offered, IsRefused};

use crate::endpoint::Endpoint;
use crate::phases::is_closed;
use stream_buffers::Full;

/// The greatest number of a stream, its FIN's included.
const LAST_NUMBER: u64 = (1 << 63) - 1;

/// Whether a piece was given.
#[derive(Clone, Copy, Debug, PartialEq, Eq)]
pub enum GiveAnswer {
    /// It will be sent.
    Ok,
    /// It is longer than the room.
    Full,
    /// No more bytes are taken: `close` was called, or the end is closed.
    Closed,
}

impl Endpoint {
    /// The lesser of the queue's room and the numbers that are left.
    fn free(&self) -> usize
        ensures small { length self.now.queue ≤ 65535 }
        ensures value { result ≡ min (65535 - length self.now.queue)
            (9223372036854775807 - (self.now.isn + 1 + self.now.given)) }
    {
        let left = LAST_NUMBER - (u64::from(self.isn) + 1 + self.given);
        self.queue.room().min(left as usize)
    }

    /// How many bytes may still be given: 65,535 less those that aren't acknowledged, and so few that
    /// all numbers, the FIN's included, stay below 2^63.
    pub fn room(&self) -> usize
        ensures { (s : EndState) → Stands self.now s → result ≡ room s }
    {
        self.free()
    }

    /// A piece is given to be sent (RFC 9293, section 3.10.2): `Closed` exactly where none is taken
    /// any more, else `Full` exactly where it is longer than `room`; after both nothing has changed.
    pub fn give(&mut self, piece: &[u8]) -> GiveAnswer
        ensures answer { (s : EndState) → Stands self.old s → result ≡ give_answer s piece.now }
        ensures stands { (s : EndState) → Stands self.old s → Stands self.new (offered piece.now s) }
        ensures unchanged { IsRefused result → self.new ≡ self.old }
        ensures pair { pair_at_end self.new ≡ pair_at_end self.old }
        ensures fits { (rows : List Row) → FitsEnd rows self.old → FitsEnd rows self.new }
    {
        if self.closing || is_closed(self.phase) {
            return GiveAnswer::Closed;
        }
        if self.free() < piece.len() {
            return GiveAnswer::Full;
        }
        match self.queue.push(piece) {
            Ok(()) => {}
            Err(Full) => unreachable!(),
        }
        self.given += piece.len() as u64;
        GiveAnswer::Ok
    }
}
