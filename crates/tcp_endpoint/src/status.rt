//! Looking at an end.
ghost use Rattle.std.specs.Prelude.{◌≡◌, length};
ghost use Rattle.book_endpoint.specs.States.{EndState};
ghost use Rattle.tcp_endpoint.specs.Ends.{Stands, pair_at_end};
ghost use Rattle.tcp_endpoint.specs.Numbers.{HasNumbersOf};

use crate::endpoint::Endpoint;
use crate::sequence::SequenceState;
use book_base::Pair;
use book_endpoint::Phase;

impl Endpoint {
    /// The sockets of the connection.
    pub fn pair(&self) -> Pair
        ensures { result ≡ pair_at_end self.now }
    {
        self.pair
    }

    /// Where the connection stands (RFC 9293, section 3.3.2).
    pub fn phase(&self) -> Phase
        ensures { (s : EndState) → Stands self.now s → result ≡ s.phase }
    {
        self.phase
    }

    /// ISS: the own initial sequence number.
    pub fn isn(&self) -> u32
        ensures { (s : EndState) → Stands self.now s → result ≡ s.isn }
    {
        self.isn
    }

    /// IRS: the peer's initial sequence number, once it is known.
    pub fn peer_isn(&self) -> Option<u32>
        ensures { (s : EndState) → Stands self.now s → result ≡ s.peer_isn }
    {
        self.peer_isn
    }

    /// The numbers that the end keeps, as sequence numbers with their extensions. `received` is
    /// there exactly where the peer's initial sequence number is known, and its `fin` exactly where
    /// the peer's FIN is recorded.
    pub fn sequence(&self) -> &SequenceState
        ensures { (s : EndState) → Stands self.now s → HasNumbersOf result.now s }
    {
        &self.sequence
    }

    /// SND.UNA: the oldest number that isn't acknowledged.
    pub fn una(&self) -> u64
        ensures { (s : EndState) → Stands self.now s → result ≡ s.una }
    {
        self.sequence.una.value()
    }

    /// SND.NXT: the number to send next.
    pub fn next(&self) -> u64
        ensures { (s : EndState) → Stands self.now s → result ≡ s.next }
    {
        self.sequence.next.value()
    }

    /// How many bytes were given.
    pub fn given(&self) -> u64
        ensures { (s : EndState) → Stands self.now s → result ≡ length s.given }
    {
        self.given
    }

    /// How many bytes were taken.
    pub fn delivered(&self) -> u64
        ensures { (s : EndState) → Stands self.now s → result ≡ length s.taken }
    {
        self.taken
    }
}
