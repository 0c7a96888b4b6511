//! What an acknowledgement does to an end.
ghost use Rattle.std.specs.Prelude.{◌≡◌, ◌<◌, ◌==◌, ◌&&◌, ◌||◌, nat_le, nat_lt, true, false, is_some};
ghost use Rattle.tcp_segment.specs.Counter.{number};
ghost use Rattle.book_endpoint.specs.States.{EndState};
ghost use Rattle.book_endpoint.specs.Hearing.{above, acked, acked_fin, windowed};
ghost use Rattle.tcp_endpoint.specs.Halves.{waits};
ghost use Rattle.tcp_endpoint.specs.Ends.{Stands};

use crate::endpoint::Endpoint;
use crate::sequence::Received;
use book_endpoint::Phase;
use tcp_segment::{Counter, Datagram};

/// Whether a segment tells a window that isn't older than the last one (RFC 9293, section
/// 3.10.7.4). The numbers are compared by value: the last window may lie far behind.
fn is_newer(old_una: u64, wl1: u64, wl2: u64, number: u64, acknowledged: u64) -> bool
    ensures { result
        ≡ (nat_le old_una acknowledged && (nat_lt wl1 number || ((wl1 == number) && nat_le wl2 acknowledged))) }
{
    old_una <= acknowledged && (wl1 < number || (wl1 == number && wl2 <= acknowledged))
}

impl Endpoint {
    /// An acknowledgement of what was sent: where it is a later one, the bytes below it leave the
    /// queue (RFC 9293, section 3.10.7.4).
    pub(crate) fn acknowledge(&mut self, acknowledged: Option<u64>)
        requires sent { above acknowledged (number self.old.sequence.next) ≡ false }
        requires known { waits self.old.phase ≡ false }
        ensures stands { (s : EndState) → Stands self.old s → Stands self.new (acked s acknowledged) }
        ensures bond { self.new.association ≡ self.old.association }
        ensures pair { self.new.pair ≡ self.old.pair }
        ensures phase { self.new.phase ≡ self.old.phase }
        ensures heard { self.new.sequence.received ≡ self.old.sequence.received }
        ensures later { above acknowledged (number self.old.sequence.una) ≡ true
            → self.new.isn < number self.new.sequence.una }
    {
        match acknowledged {
            Some(acknowledged) => {
                let una = self.sequence.una.value();
                if una < acknowledged {
                    let from = una.max(u64::from(self.isn) + 1);
                    let bytes = (acknowledged - from).min(self.queue.len() as u64);
                    self.queue.acknowledge(bytes as usize);
                    self.sequence.una = Counter::of(acknowledged);
                }
            }
            None => {}
        }
    }

    /// The peer's window, from a segment that isn't older than the last that told it (RFC 9293,
    /// section 3.10.7.4).
    pub(crate) fn hear_window(
        &mut self,
        old_una: u64,
        datagram: &Datagram<'_>,
        number: u64,
        acknowledged: Option<u64>,
    )
        requires { is_some self.old.sequence.received ≡ true }
        ensures stands { (s : EndState) → Stands self.old s → Stands self.new
            (windowed s old_una datagram.now number acknowledged) }
        ensures bond { self.new.association ≡ self.old.association }
        ensures pair { self.new.pair ≡ self.old.pair }
        ensures phase { self.new.phase ≡ self.old.phase }
        ensures heard { is_some self.new.sequence.received ≡ true }
    {
        match acknowledged {
            Some(acknowledged) => match self.sequence.received {
                Some(received) => {
                    if is_newer(
                        old_una,
                        received.wl1.value(),
                        received.wl2.value(),
                        number,
                        acknowledged,
                    ) {
                        self.send_window = datagram.window();
                        self.sequence.received = Some(Received {
                            expected: received.expected,
                            wl1: Counter::of(number),
                            wl2: Counter::of(acknowledged),
                            fin: received.fin,
                        });
                    }
                }
                None => unreachable!(),
            },
            None => {}
        }
    }

    /// An acknowledgement past the own FIN (RFC 9293, section 3.10.7.4).
    pub(crate) fn hear_own_fin(&mut self, acknowledged: Option<u64>)
        ensures stands { (s : EndState) → Stands self.old s → Stands self.new (acked_fin s acknowledged) }
        ensures bond { self.new.association ≡ self.old.association }
        ensures pair { self.new.pair ≡ self.old.pair }
        ensures heard { self.new.sequence.received ≡ self.old.sequence.received }
    {
        match acknowledged {
            Some(acknowledged) => {
                if u64::from(self.isn) + 1 + self.given < acknowledged {
                    match self.phase {
                        Phase::FinWait1 => self.phase = Phase::FinWait2,
                        Phase::Closing => self.phase = Phase::TimeWait,
                        Phase::LastAck => self.phase = Phase::Closed,
                        _ => {}
                    }
                }
            }
            None => {}
        }
    }
}
