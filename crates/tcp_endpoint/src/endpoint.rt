//! One end of a connection.
ghost use Rattle.std.specs.Prelude.{is_some, length};
ghost use Rattle.tcp_segment.specs.Counter.{number};
ghost use Rattle.tcp_endpoint.specs.Halves.{Bound, Owes, Sends, Receives};
ghost use Rattle.tcp_endpoint.specs.Numbers.{expected_in, fin_in};

use crate::sequence::SequenceState;
use ao_check::Association;
use book_base::Pair;
use book_endpoint::Phase;
use stream_buffers::{Reassembly, SendQueue};

/// One end of a connection (RFC 9293, section 3.3). It keeps the bytes that are given until they
/// are acknowledged and those that came until they are taken, and no past beside.
///
/// It stands for states of the definitions. Each call says: whatever state the end stood for, it
/// stands for the next one after, and the answer is that step's answer. All memory is taken when an
/// end is made.
#[derive(Drop)]
pub struct Endpoint {
    pub(crate) association: Association,
    pub(crate) pair: Pair,
    pub(crate) isn: u32,
    pub(crate) peer_isn: Option<u32>,
    pub(crate) sequence: SequenceState,
    /// SND.WND: the peer's window.
    pub(crate) send_window: u16,
    /// How many bytes were given.
    pub(crate) given: u64,
    /// How many bytes were taken.
    pub(crate) taken: u64,
    pub(crate) phase: Phase,
    /// An ACK is owed.
    pub(crate) ack_owed: bool,
    /// `close` was called.
    pub(crate) closing: bool,
    /// A RST is owed.
    pub(crate) rst_owed: bool,
    /// The peer's maximum segment size.
    pub(crate) mss: u16,
    /// The end of TIME-WAIT, in seconds since 1970.
    pub(crate) deadline: Option<u64>,
    pub(crate) queue: SendQueue,
    pub(crate) reassembly: Reassembly,
    ghost bound: { Bound association pair isn peer_isn },
    ghost owes: { Owes rst_owed peer_isn },
    ghost sends: { Sends phase closing isn (number sequence.una) (number sequence.next) given (length queue) },
    ghost receives: { Receives phase peer_isn taken (expected_in sequence.received) (is_some sequence.received)
        (fin_in sequence.received) reassembly },
}
