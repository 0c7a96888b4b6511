//! What a checker reads of a segment.
ghost use Rattle.std.specs.Prelude.{◌≡◌};
ghost use Rattle.book_cmd_check.specs.Captures.{acknowledged_isn};
ghost use Rattle.book_segments.specs.Segments.{pair_reached};

use book_base::Pair;
use tcp_segment::Datagram;

/// The initial sequence number that a SYN with ACK acknowledges (RFC 9293, section 3.5).
pub fn acknowledged_isn(datagram: &Datagram<'_>) -> u32
    ensures { result ≡ acknowledged_isn datagram.now }
{
    datagram.acknowledgement().wrapping_sub(1)
}

/// The sockets of a segment as its destination sees them.
pub fn pair_at(datagram: &Datagram<'_>) -> Pair
    ensures { result ≡ pair_reached datagram.now }
{
    Pair {
        local: datagram.destination(),
        remote: datagram.source(),
    }
}
