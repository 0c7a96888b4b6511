//! Which segment an end makes next, before the row to send with is chosen.
ghost use Rattle.std.specs.Prelude.{◌≡◌, ◌+◌, ◌-◌, ◌==◌, ◌&&◌, ◌||◌, nat_lt, ℕ, IfSome};
ghost use Rattle.tcp_segment.specs.Counter.{number};
ghost use Rattle.book_endpoint.specs.States.{EndState};
ghost use Rattle.book_endpoint.specs.Emissions as book;
ghost use Rattle.endpoint_steps.specs.Drafting as steps;
ghost use Rattle.tcp_endpoint.specs.Ends.{Stands};
ghost use Rattle.tcp_endpoint.specs.Plans.{PlansAs, IsCarried};

use crate::endpoint::Endpoint;
use crate::phases::{is_sending, is_silent, is_syn_received, is_syn_sent, resends};
use book_endpoint::Phase;

/// A segment that is about to be made. How many bytes it carries is known once the row to send with
/// is chosen.
#[derive(Clone, Copy)]
pub(crate) enum Plan {
    /// The RST that is owed.
    Reset,
    /// The SYN.
    Syn,
    /// The SYN with ACK.
    SynAck,
    /// Unsent bytes that the peer's window holds.
    Data,
    /// One unsent byte, for which the peer has no window.
    Probe,
    /// The FIN.
    Fin,
    /// An ACK alone.
    Ack,
    /// The SYN again.
    SynAgain,
    /// The SYN with ACK again.
    SynAckAgain,
    /// Sent bytes that aren't acknowledged.
    Again,
    /// The FIN again.
    FinAgain,
}

/// Whether all that was sent is acknowledged, and the peer has no window.
fn is_blocked(phase: Phase, una: u64, next: u64, window: u16) -> bool
    ensures { result ≡ (book.is_sending phase && (una == next) && (window == 0)) }
{
    is_sending(phase) && una == next && window == 0
}

impl Endpoint {
    /// How many given bytes are not sent.
    pub(crate) fn unsent(&self) -> u64
        ensures stands { (s : EndState) → Stands self.now s → result ≡ book.unsent s }
        ensures value { result ≡ self.now.isn + 1 + self.now.given - number self.now.sequence.next }
    {
        let end = u64::from(self.isn) + 1 + self.given;
        end.saturating_sub(self.sequence.next.value())
    }

    /// What is sent next: RST, SYN, SYN with ACK, data within the peer's window, FIN, ACK (RFC 9293,
    /// section 3.10).
    #[tactic(auto, unfolding(endpoint_steps::specs::Drafting::to_emit))]
    pub(crate) fn plan(&self) -> Option<Plan>
        ensures planned { (s : EndState) (most : ℕ) → Stands self.now s → PlansAs s most result (steps.to_emit s most) }
        ensures carried { IfSome result (λ p. IsCarried self.now p) }
    {
        let next = self.sequence.next.value();
        let window_end = self.sequence.una.value() + u64::from(self.send_window);
        let unsent = self.unsent();
        if self.rst_owed {
            return Some(Plan::Reset);
        }
        if is_syn_sent(self.phase) && next == u64::from(self.isn) {
            return Some(Plan::Syn);
        }
        if is_syn_received(self.phase) && next == u64::from(self.isn) {
            return Some(Plan::SynAck);
        }
        if is_sending(self.phase) && 0 < unsent && next < window_end {
            return Some(Plan::Data);
        }
        if is_sending(self.phase) && self.closing && unsent == 0 && next < window_end {
            return Some(Plan::Fin);
        }
        if self.ack_owed && !is_silent(self.phase) {
            return Some(Plan::Ack);
        }
        None
    }

    /// What is sent again: the SYN, what isn't acknowledged, or a probe of a window of zero (RFC
    /// 9293, sections 3.10.8 and 3.8.6.1).
    #[tactic(auto, unfolding(endpoint_steps::specs::Drafting::to_resend))]
    pub(crate) fn plan_again(&self) -> Option<Plan>
        ensures planned { (s : EndState) (most : ℕ) → Stands self.now s
            → PlansAs s most result (steps.to_resend s most) }
        ensures carried { IfSome result (λ p. IsCarried self.now p) }
    {
        let isn = u64::from(self.isn);
        let una = self.sequence.una.value();
        let next = self.sequence.next.value();
        let unsent = self.unsent();
        if is_syn_sent(self.phase) && isn < next {
            return Some(Plan::SynAgain);
        }
        if is_syn_received(self.phase) && isn < next {
            return Some(Plan::SynAckAgain);
        }
        if resends(self.phase) && una < next {
            if una < isn + 1 + self.given {
                return Some(Plan::Again);
            }
            return Some(Plan::FinAgain);
        }
        if !is_blocked(self.phase, una, next, self.send_window) {
            return None;
        }
        if 0 < unsent {
            return Some(Plan::Probe);
        }
        if self.closing {
            return Some(Plan::Fin);
        }
        None
    }
}
