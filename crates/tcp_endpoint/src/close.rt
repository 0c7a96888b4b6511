//! Closing an end, and its clock.
ghost use Rattle.std.specs.Prelude.{◌≡◌, List};
ghost use Rattle.book_keys.specs.Rows.{Row};
ghost use Rattle.book_endpoint.specs.States.{EndState, close, abort, tick};
ghost use Rattle.tcp_endpoint.specs.Ends.{Stands, FitsEnd, pair_at_end};

use crate::endpoint::Endpoint;
use crate::phases::abort_resets;
use book_endpoint::Phase;

impl Endpoint {
    /// No more bytes are given, and a FIN is sent behind those that were; in Listen and SynSent the
    /// end is closed at once, and in Closed nothing changes (RFC 9293, section 3.10.4).
    pub fn close(&mut self)
        ensures stands { (s : EndState) → Stands self.old s → Stands self.new (close s) }
        ensures pair { pair_at_end self.new ≡ pair_at_end self.old }
        ensures fits { (rows : List Row) → FitsEnd rows self.old → FitsEnd rows self.new }
    {
        match self.phase {
            Phase::Listen => self.phase = Phase::Closed,
            Phase::SynSent => self.phase = Phase::Closed,
            Phase::Closed => {}
            _ => self.closing = true,
        }
    }

    /// The end is closed at once, and a RST is owed where its SYN was sent and the peer doesn't know
    /// of an end; one that was owed before stays owed (RFC 9293, section 3.10.5).
    pub fn abort(&mut self)
        ensures stands { (s : EndState) → Stands self.old s → Stands self.new (abort s) }
        ensures pair { pair_at_end self.new ≡ pair_at_end self.old }
        ensures fits { (rows : List Row) → FitsEnd rows self.old → FitsEnd rows self.new }
    {
        let sent = u64::from(self.isn) < self.sequence.next.value();
        let resets = abort_resets(self.phase, sent);
        self.rst_owed |= resets;
        self.phase = Phase::Closed;
    }

    /// It is `now`, in seconds since 1970: TIME-WAIT ends at its deadline (RFC 9293, section 3.10.8).
    pub fn tick(&mut self, now: u64)
        ensures stands { (s : EndState) → Stands self.old s → Stands self.new (tick now s) }
        ensures pair { pair_at_end self.new ≡ pair_at_end self.old }
        ensures fits { (rows : List Row) → FitsEnd rows self.old → FitsEnd rows self.new }
    {
        match self.phase {
            Phase::TimeWait => match self.deadline {
                Some(deadline) => {
                    if deadline <= now {
                        self.phase = Phase::Closed;
                    }
                }
                None => {}
            },
            _ => {}
        }
    }
}
