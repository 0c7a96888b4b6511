//! What an end answers to an arrival.

use crate::refusal::Refusal;
use book_segments::DatagramFault;

/// The answer to an arrival: the first of these that holds (RFC 9293, section 3.10.7, in a profile).
#[derive(Clone, Copy, Debug, PartialEq, Eq)]
pub enum Arrival {
    /// The bytes are no datagram.
    Bad(DatagramFault),
    /// Its sockets aren't those of the connection.
    Foreign,
    /// Its TCP checksum is wrong.
    Checksum,
    /// The end is closed.
    Closed,
    /// The check refuses it, for this reason.
    Refused(Refusal),
    /// It isn't what the handshake waits for.
    Unexpected,
    /// It isn't acceptable at the number expected.
    Window,
    /// A reset or a SYN in the window, but not where it could be meant; an ACK is owed.
    Challenge,
    /// It has no ACK.
    NoAck,
    /// It acknowledges what wasn't sent.
    BadAck,
    /// Its bytes would make more than 64 separate runs.
    TooManyRuns,
    /// It resets the connection.
    Reset,
    /// It was taken.
    Taken,
}
