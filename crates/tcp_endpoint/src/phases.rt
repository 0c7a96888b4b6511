//! What a phase lets an end do.
ghost use Rattle.std.specs.Prelude.{◌≡◌};
ghost use Rattle.book_endpoint.specs.States.{is_closed, hears, abort_resets};
ghost use Rattle.book_endpoint.specs.Emissions.{is_sending, is_silent, is_syn_sent, is_syn_received, resends};

use book_endpoint::Phase;

/// The end is closed.
pub(crate) fn is_closed(phase: Phase) -> bool
    ensures { result ≡ is_closed phase }
{
    matches!(phase, Phase::Closed)
}

/// Data is heard (RFC 9293, section 3.10.7.4).
pub(crate) fn hears(phase: Phase) -> bool
    ensures { result ≡ hears phase }
{
    matches!(
        phase,
        Phase::Established | Phase::FinWait1 | Phase::FinWait2
    )
}

/// Data is sent (RFC 9293, section 3.10.2).
pub(crate) fn is_sending(phase: Phase) -> bool
    ensures { result ≡ is_sending phase }
{
    matches!(phase, Phase::Established | Phase::CloseWait)
}

/// No ACK is sent.
pub(crate) fn is_silent(phase: Phase) -> bool
    ensures { result ≡ is_silent phase }
{
    matches!(phase, Phase::Listen | Phase::SynSent | Phase::Closed)
}

/// The own SYN is sent, and the peer's is waited for.
pub(crate) fn is_syn_sent(phase: Phase) -> bool
    ensures { result ≡ is_syn_sent phase }
{
    matches!(phase, Phase::SynSent)
}

/// The peer's SYN came, and the acknowledgement of the own one is waited for.
pub(crate) fn is_syn_received(phase: Phase) -> bool
    ensures { result ≡ is_syn_received phase }
{
    matches!(phase, Phase::SynReceived)
}

/// What was sent may be sent again (RFC 9293, section 3.10.8).
pub(crate) fn resends(phase: Phase) -> bool
    ensures { result ≡ resends phase }
{
    matches!(
        phase,
        Phase::Established | Phase::CloseWait | Phase::FinWait1 | Phase::Closing | Phase::LastAck
    )
}

/// An abort makes a RST owed, where `sent` tells that the own SYN was sent (RFC 9293, section
/// 3.10.5).
pub(crate) fn abort_resets(phase: Phase, sent: bool) -> bool
    ensures { result ≡ abort_resets phase sent }
{
    match phase {
        Phase::SynReceived => sent,
        Phase::Established => true,
        Phase::FinWait1 => true,
        Phase::FinWait2 => true,
        Phase::CloseWait => true,
        _ => false,
    }
}
