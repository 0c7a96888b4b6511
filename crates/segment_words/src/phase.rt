//! The phases of a connection.
ghost use Rattle.std.specs.Prelude.{◌≡◌};
ghost use Rattle.book_link.specs.Reports.{phase_text};

use book_endpoint::Phase;

/// The word of a phase (RFC 9293, section 3.3.2).
pub fn phase_word(phase: Phase) -> &'static [u8]
    ensures { result.now ≡ phase_text phase }
{
    match phase {
        Phase::Listen => b"listen",
        Phase::SynSent => b"syn-sent",
        Phase::SynReceived => b"syn-received",
        Phase::Established => b"established",
        Phase::FinWait1 => b"fin-wait-1",
        Phase::FinWait2 => b"fin-wait-2",
        Phase::CloseWait => b"close-wait",
        Phase::Closing => b"closing",
        Phase::LastAck => b"last-ack",
        Phase::TimeWait => b"time-wait",
        Phase::Closed => b"closed",
    }
}
