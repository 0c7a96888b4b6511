//! What a planned segment is made of.
ghost use Rattle.std.specs.Prelude.{◌≡◌, ◌+◌, ◌-◌, ◌≤◌, ◌^◌, true, min, max, length};
ghost use Rattle.book_base.specs.Algorithms.{mac_length_of};
ghost use Rattle.book_segments.specs.Segments.{SYN as Syn};
ghost use Rattle.book_endpoint.specs.States.{EndState, own_mss};
ghost use Rattle.book_endpoint.specs.Emissions.{sets};
ghost use Rattle.tcp_segment.specs.Counter.{number};
ghost use Rattle.tcp_endpoint.specs.Ends.{Stands};
ghost use Rattle.tcp_endpoint.specs.Plans.{draft_of, flags_of, IsCarried, IsCounted, IsOutlineOf, IsWithin};

use crate::endpoint::Endpoint;
use crate::plans::Plan;
use crate::sequence::SequenceState;
use book_base::Algorithm;
use segment_writer::own_mss;
use tcp_segment::{AO_HEAD, Counter, Flag};

/// What a planned segment is made of: its number, and which bytes of the queue it carries.
#[derive(Clone, Copy)]
pub(crate) struct Outline {
    pub(crate) number: Counter,
    /// How many bytes of the queue stand before those that are carried.
    pub(crate) offset: usize,
    pub(crate) count: usize,
}

impl Outline {
    /// A segment at this number without payload.
    fn bare(number: Counter) -> Outline
        ensures { result ≡ record { number = number; offset = 0; count = 0 } }
    {
        Outline {
            number,
            offset: 0,
            count: 0,
        }
    }
}

/// The flags of a planned segment.
pub(crate) fn flags_of(plan: Plan) -> u8
    ensures { result ≡ flags_of plan }
{
    match plan {
        Plan::Reset => Flag::Rst.bit(),
        Plan::Syn => Flag::Syn.bit(),
        Plan::SynAck => Flag::Syn.bit() + Flag::Ack.bit(),
        Plan::Data => Flag::Psh.bit() + Flag::Ack.bit(),
        Plan::Probe => Flag::Psh.bit() + Flag::Ack.bit(),
        Plan::Fin => Flag::Fin.bit() + Flag::Ack.bit(),
        Plan::Ack => Flag::Ack.bit(),
        Plan::SynAgain => Flag::Syn.bit(),
        Plan::SynAckAgain => Flag::Syn.bit() + Flag::Ack.bit(),
        Plan::Again => Flag::Psh.bit() + Flag::Ack.bit(),
        Plan::FinAgain => Flag::Fin.bit() + Flag::Ack.bit(),
    }
}

impl Endpoint {
    /// How many bytes a segment carries at most: the lesser of both maximum segment sizes, less the
    /// TCP-AO option with a MAC of this algorithm (RFC 9293, section 3.7.1).
    pub(crate) fn most_bytes(&self, algorithm: Algorithm) -> u64
        ensures value { (s : EndState) → Stands self.now s → result
            ≡ min (own_mss self.now.pair.local.address) s.mss - (4 + mac_length_of algorithm) }
        ensures small { result + (4 + mac_length_of algorithm) ≤ own_mss self.now.pair.local.address }
    {
        let least = own_mss(&self.pair.local.address).min(self.mss);
        u64::from(least).saturating_sub(u64::from(AO_HEAD) + u64::from(algorithm.mac_length()))
    }

    /// What a planned segment is made of, with at most so many bytes.
    pub(crate) fn outline(&self, plan: Plan, most: u64) -> Outline
        requires carried { IsCarried self.now plan }
        ensures outlines { (s : EndState) → Stands self.now s
            → IsOutlineOf self.now.queue result (draft_of s most plan) }
        ensures number { number result.number ≤ 2 ^ 63 }
        ensures piece { result.offset + result.count ≤ length self.now.queue }
        ensures few { result.count ≤ max 1 most }
        ensures bare { sets (flags_of plan) Syn ≡ true → result.count ≡ 0 }
        ensures counted { IsCounted self.now most plan result.count }
        ensures within { IsWithin self.now plan result.count }
    {
        let isn = Counter::of(u64::from(self.isn));
        let SequenceState { una, next, .. } = self.sequence;
        match plan {
            Plan::Reset => Outline::bare(next),
            Plan::Syn => Outline::bare(isn),
            Plan::SynAck => Outline::bare(isn),
            Plan::Data => {
                let window_end = una.value() + u64::from(self.send_window);
                let free = window_end.saturating_sub(next.value());
                let count = self.unsent().min(free).min(most);
                Outline {
                    number: next,
                    offset: (next.value() - una.value()) as usize,
                    count: count as usize,
                }
            }
            Plan::Probe => Outline {
                number: next,
                offset: (next.value() - una.value()) as usize,
                count: 1,
            },
            Plan::Fin => Outline::bare(next),
            Plan::Ack => Outline::bare(next),
            Plan::SynAgain => Outline::bare(isn),
            Plan::SynAckAgain => Outline::bare(isn),
            Plan::Again => {
                let unacknowledged = self.queue.len() as u64;
                let count = (next.value() - una.value()).min(most).min(unacknowledged);
                Outline {
                    number: una,
                    offset: 0,
                    count: count as usize,
                }
            }
            Plan::FinAgain => Outline::bare(una),
        }
    }
}
