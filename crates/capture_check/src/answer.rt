//! What is said of a stored segment.

use book_cmd_check::Checksum;
use book_endpoint::{Passed, Refusal};
use book_segments::DatagramFault;

/// What a checker says of a stored segment. Whether its TCP checksum is right stands beside the verdict,
/// which doesn't look at it.
#[derive(Clone, Copy, Debug, PartialEq, Eq)]
pub enum CheckLine {
    /// The bytes are no datagram.
    Bad(DatagramFault),
    /// No node has the address that the segment goes to, or it goes from a socket to itself.
    UnknownNode,
    /// The verdict of the node that the segment goes to.
    Verdict(Result<Passed, Refusal>, Checksum),
    /// The segment passed and would fix a further connection, but 65,536 are held.
    Full(Checksum),
}
