//! Taking the bytes that came.
ghost use Rattle.std.specs.Prelude.{◌≡◌, ◌==◌, ◌&&◌, nat_lt, ◌++◌, List, length, drop};
ghost use Rattle.book_keys.specs.Rows.{Row};
ghost use Rattle.book_endpoint.specs.States.{EndState, taking, take_out, at_end, hears};
ghost use Rattle.tcp_endpoint.specs.Ends.{Stands, FitsEnd, pair_at_end};

use crate::endpoint::Endpoint;
use crate::phases::hears;
use book_endpoint::Phase;

/// Whether a window that was none is there again, in a phase in which data is heard.
fn opens(phase: Phase, before: u16, after: u16) -> bool
    ensures { result ≡ (hears phase && (before == 0) && nat_lt 0 after) }
{
    hears(phase) && before == 0 && 0 < after
}

impl Endpoint {
    /// Moves the first ready bytes to the front of `out`, as many as fit, and answers how many they
    /// are; the rest of `out` stays. Where the window was none and opens, an ACK is owed (RFC 9293,
    /// section 3.8.6.2.2).
    pub fn take(&mut self, out: &mut [u8]) -> usize
        ensures count { (s : EndState) → Stands self.old s → result ≡ length (taking (length out.old) s) }
        ensures taken { (s : EndState) → Stands self.old s → out.new
            ≡ taking (length out.old) s ++ drop result out.old }
        ensures stands { (s : EndState) → Stands self.old s → Stands self.new (take_out (length out.old) s) }
        ensures pair { pair_at_end self.new ≡ pair_at_end self.old }
        ensures fits { (rows : List Row) → FitsEnd rows self.old → FitsEnd rows self.new }
    {
        // It tells that the reassembly is sound, of which `take` says nothing.
        let _expected = self.reassembly.expected();
        let before = self.reassembly.window();
        let count = self.reassembly.take(out);
        self.taken += count as u64;
        let opens = opens(self.phase, before, self.reassembly.window());
        self.ack_owed |= opens;
        count
    }

    /// Whether the end of the stream is reached: the peer's FIN is passed, and no byte is ready (RFC
    /// 9293, section 3.10.7.4).
    pub fn at_end(&self) -> bool
        ensures { (s : EndState) → Stands self.now s → result ≡ at_end s }
    {
        match self.sequence.received {
            Some(received) => match received.fin {
                Some(fin) => {
                    fin.value() < received.expected.value() && self.reassembly.ready() == 0
                }
                None => false,
            },
            None => false,
        }
    }
}
