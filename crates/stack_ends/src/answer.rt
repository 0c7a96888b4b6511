//! What the calls of a node answer.
ghost use Rattle.std.specs.Prelude.{◌≡◌};
ghost use Rattle.stack_ends.specs.declared.answer.NodeRefusal.TheVariants.{Memory};

use book_base::Pair;
use book_segments::DatagramFault;
use std::alloc::AllocError;
use tcp_endpoint::Arrived;

/// Why a node takes no further end.
#[derive(Clone, Copy, Debug, PartialEq, Eq)]
pub enum NodeRefusal {
    /// Memory ran out.
    Memory,
    /// The pair is held.
    InUse,
    /// The pair isn't held, and as many ends are as the node holds at most.
    Full,
}

impl From<AllocError> for NodeRefusal {
    ghost from_gives = { λ _ e. e ≡ Memory };

    fn from(_error: AllocError) -> NodeRefusal {
        NodeRefusal::Memory
    }
}

/// What a node answers to an arrival.
#[derive(Clone, Copy, Debug)]
pub enum NodeArrival<'a> {
    /// The bytes are no datagram.
    Bad(DatagramFault),
    /// No end is held whose local socket is the datagram's destination, and whose remote one its
    /// source.
    NoConnection,
    /// The end of this pair answered.
    At(Pair, Arrived<'a>),
}
