//! A reader of messages.
ghost use Rattle.std.specs.Prelude.{◌≡◌, ◌≤◌, ℕ, List, [], length, take, None, IfOk, IfSome, IsSome};
ghost use Rattle.book_base.specs.Fronts.{Ends};
ghost use Rattle.book_bgp.specs.Messages.{message_front};
ghost use Rattle.bgp_messages.specs.Readers.{new_reading, fed, StandsFor, Reads, IsUsed, Gathers};

use crate::gathered::Gathered;
use crate::header::{HEADER, read_header};
use book_bgp::BgpFault;
use std::alloc::{AllocError, Global};
use std::marker::Model;

/// What a call of `feed` used of its piece, and what it found there.
#[derive(Clone, Copy, Debug, PartialEq, Eq)]
pub struct Fed {
    /// How many bytes of the piece were used.
    pub used: usize,
    pub found: Found,
}

/// What a reader found.
#[derive(Clone, Copy, Debug, PartialEq, Eq)]
pub enum Found {
    /// The whole piece was used, and ends neither a message nor a faulty header.
    More,
    /// The used bytes end a message.
    Message,
    /// The used bytes end a faulty header, or one was found before.
    Fault(BgpFault),
}

// What the bytes are that were gathered.
#[derive(Clone, Copy, Debug)]
enum State {
    Unfinished,
    Whole,
    Faulty(BgpFault),
}

/// A reader of the messages of one stream. It is seen as the bytes of its unfinished message, the
/// message that the last `feed` completed, the number of bytes of whole messages, and its fault.
#[derive(Debug, Drop)]
pub struct BgpReader {
    gathered: Gathered,
    place: u64,
    state: State,
}

impl Model for BgpReader {
    ghost use Rattle.std.specs.Prelude.{◌≡◌, true};
    ghost use Rattle.bgp_messages.specs.Readers.{Reading, seen, is_kept};

    ghost Value = { Reading };

    ghost view = { λ r. seen r.state r.gathered r.place };

    ghost invariant = { λ r. is_kept r.state r.gathered ≡ true };
}

impl BgpReader {
    /// A reader that got no byte. It takes all its memory here.
    #[tactic(auto, unfolding(book_bgp::specs::Messages::message_front))]
    pub fn new(alloc: Global) -> Result<BgpReader, AllocError>
        ensures new { IfOk result (λ r. r ≡ new_reading) }
        ensures stands { IfOk result (λ r. StandsFor r []) }
    {
        let gathered = Gathered::new(alloc)?;
        Ok(BgpReader {
            gathered,
            place: 0,
            state: State::Unfinished,
        })
    }

    /// Takes bytes of the piece up to the end of a message or of a faulty header; the caller feeds the
    /// rest again. A header is judged as soon as its 19 bytes are there. After a fault nothing more is
    /// used, and the same fault is answered.
    ///
    /// However a stream is cut into pieces, the messages found are those of the stream (RFC 4271,
    /// section 4).
    #[tactic(auto, unfolding(book_bgp::specs::Messages::message_front))]
    pub fn feed(&mut self, piece: &[u8]) -> Fed
        ensures exact { (result, self.new) ≡ fed self.old piece.now }
        ensures within { result.used ≤ length piece.now }
        ensures used { IsUsed result.found result.used piece.now self.new }
        ensures reads { (bytes : List ℕ) → StandsFor self.old bytes
            → Reads bytes (take result.used piece.now) self.new }
    {
        match self.state {
            State::Unfinished => self.feed_on(piece),
            State::Whole => {
                self.gathered.clear();
                self.state = State::Unfinished;
                self.feed_on(piece)
            }
            State::Faulty(fault) => Fed {
                used: 0,
                found: Found::Fault(fault),
            },
        }
    }

    // The same in the midst of a message.
    fn feed_on(&mut self, piece: &[u8]) -> Fed
        requires message { self.old.message ≡ None }
        requires fault { self.old.fault ≡ None }
        ensures exact { (result, self.new) ≡ fed self.old piece.now }
        ensures within { result.used ≤ length piece.now }
        ensures used { IsUsed result.found result.used piece.now self.new }
        ensures reads { (bytes : List ℕ) → StandsFor self.old bytes
            → Reads bytes (take result.used piece.now) self.new }
    {
        let fed = gather(&mut self.gathered, piece);
        match fed.found {
            Found::More => self.state = State::Unfinished,
            Found::Message => {
                let len = self.gathered.as_slice().len();
                self.place = self.place.saturating_add(len as u64);
                self.state = State::Whole;
            }
            Found::Fault(fault) => self.state = State::Faulty(fault),
        }
        fed
    }

    /// The type of the last message (RFC 4271, section 4.1); the last `feed` answered `Message`.
    pub fn kind(&self) -> u8
        requires { IsSome self.now.message }
        ensures { IfSome self.now.message (λ m. m.kind ≡ result) }
    {
        self.gathered.as_slice()[18]
    }

    /// What follows the header in the last message; the last `feed` answered `Message`.
    pub fn body(&self) -> &[u8]
        requires { IsSome self.now.message }
        ensures { IfSome self.now.message (λ m. m.body ≡ result.now) }
    {
        &self.gathered.as_slice()[HEADER..]
    }

    /// The number of bytes of whole messages so far, or 2^64 - 1 where there are more.
    pub fn place(&self) -> u64
        ensures { result ≡ self.now.place }
    {
        self.place
    }

    /// Makes the reader new, for another stream.
    #[tactic(auto, unfolding(book_bgp::specs::Messages::message_front))]
    pub fn restart(&mut self)
        ensures { self.new ≡ new_reading }
    {
        self.gathered.clear();
        self.place = 0;
        self.state = State::Unfinished;
    }
}

// Gathers bytes of the piece up to the end of a message or of a faulty header.
fn gather(gathered: &mut Gathered, piece: &[u8]) -> Fed
    requires { message_front gathered.old ≡ Ends }
    ensures { Gathers gathered.old piece.now gathered.new result }
{
    let used = gathered.fill(piece, HEADER);
    if gathered.as_slice().len() < HEADER {
        return Fed {
            used,
            found: Found::More,
        };
    }
    let len = match read_header(&gathered.as_slice()[..HEADER]) {
        Ok(len) => len,
        Err(fault) => {
            return Fed {
                used,
                found: Found::Fault(fault),
            };
        }
    };
    let used = used + gathered.fill(&piece[used..], len);
    let found = if gathered.as_slice().len() < len {
        Found::More
    } else {
        Found::Message
    };
    Fed { used, found }
}
