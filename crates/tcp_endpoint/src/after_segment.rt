//! The end once a planned segment is made.
ghost use Rattle.std.specs.Prelude.{◌≡◌, ℕ};
ghost use Rattle.book_endpoint.specs.States.{EndState};
ghost use Rattle.tcp_endpoint.specs.Ends.{Stands};
ghost use Rattle.tcp_endpoint.specs.Plans.{draft_of, IsCarried, IsCounted, IsWithin};

use crate::endpoint::Endpoint;
use crate::plans::Plan;
use book_endpoint::Phase;
use tcp_segment::Counter;

impl Endpoint {
    /// A planned segment with so many bytes of payload is made.
    pub(crate) fn carry_out(&mut self, plan: Plan, count: usize)
        requires carried { IsCarried self.old plan }
        requires within { IsWithin self.old plan count }
        ensures stands { (s : EndState) (most : ℕ) → Stands self.old s → IsCounted self.old most plan count
            → Stands self.new ((draft_of s most plan).state) }
        ensures bond { self.new.association ≡ self.old.association }
        ensures pair { self.new.pair ≡ self.old.pair }
    {
        match plan {
            Plan::Reset => self.rst_owed = false,
            Plan::Syn => self.sequence.next = Counter::of(u64::from(self.isn) + 1),
            Plan::SynAck => {
                self.sequence.next = Counter::of(u64::from(self.isn) + 1);
                self.ack_owed = false;
            }
            Plan::Data => {
                self.sequence.next.advance(count as u32);
                self.ack_owed = false;
            }
            Plan::Probe => {
                self.sequence.next.advance(1);
                self.ack_owed = false;
            }
            Plan::Fin => {
                self.sequence.next.advance(1);
                self.ack_owed = false;
                match self.phase {
                    Phase::Established => self.phase = Phase::FinWait1,
                    Phase::CloseWait => self.phase = Phase::LastAck,
                    _ => {}
                }
            }
            Plan::Ack => self.ack_owed = false,
            Plan::SynAgain => {}
            Plan::SynAckAgain => self.ack_owed = false,
            Plan::Again => self.ack_owed = false,
            Plan::FinAgain => self.ack_owed = false,
        }
    }
}
