//! An arrival.
ghost use Rattle.std.specs.Prelude.{◌≡◌, ◌+◌, ◌≤◌, ℕ, Option, Some, None, true, false, is_some};
ghost use Rattle.book_base.specs.declared.address.Socket.{Socket};
ghost use Rattle.book_segments.specs.Segments.{Read, Segment, reading};
ghost use Rattle.book_endpoint.specs.States.{EndState};
ghost use Rattle.book_endpoint.specs.Arrivals as book;
ghost use Rattle.book_keys.specs.Lifetimes.{greatest_time};
ghost use Rattle.ao_check.specs.Verdicts.{IsExpected};
ghost use Rattle.tcp_endpoint.specs.Numbers.{expected_in};
ghost use Rattle.tcp_endpoint.specs.Ends.{Stands, FitsEnd, IsUnmoved, pair_at_end};
ghost use Rattle.tcp_endpoint.specs.Arrivals.{Arrives, Costs, IsBeforeCheck, LeavesAll, TellsOption};

use crate::arrival::Arrived;
use crate::endpoint::Endpoint;
use crate::phases::is_closed;
use crate::sequence::Received;
use ao_base::{Steps, is_same_socket};
use book_base::Pair;
use book_endpoint::Arrival;
use key_table::Table;
use std::sync::ledger::Ledger;
use tcp_segment::{Datagram, read_datagram};

/// Whether the sockets are the pair's seen from the other end.
fn is_from_peer(pair: &Pair, datagram: &Datagram<'_>) -> bool
    ensures told { result ≡ book.from_peer pair.now datagram.now }
    ensures source { result ≡ true → datagram.now.source ≡ pair.now.remote }
    ensures destination { result ≡ true → datagram.now.destination ≡ pair.now.local }
{
    is_same_socket(&datagram.source(), &pair.remote)
        && is_same_socket(&datagram.destination(), &pair.local)
}

/// The number expected, once something is known of the peer.
fn expected_of(received: Option<Received>) -> Option<u64>
    ensures some { is_some received ≡ true → result ≡ Some (expected_in received) }
    ensures none { is_some received ≡ false → result ≡ None }
{
    received.map(|received| received.expected.value())
}

impl Endpoint {
    /// A datagram arrives at `now`, in seconds since 1970 and at most LATEST: the first answer that
    /// holds (RFC 9293, section 3.10.7; RFC 5925, section 7.5). After `Bad`, `Foreign`, `Checksum` and
    /// `Closed` nothing has changed, and no step is counted. After `Refused` and `Unexpected` all that
    /// the end stands for is as before; a traffic key that the check derived may be kept. What passed is
    /// told with the TCP-AO option that was found in it, which nobody has to look for again.
    ///
    /// At most 66 steps are counted: one derivation, as for the check, and the links that a piece walks
    /// among the received runs. No kept key is dropped.
    #[tactic(auto, unfolding(book_endpoint::specs::Arrivals::arrive))]
    pub fn arrive<'a, L: Ledger>(
        &mut self,
        table: &Table,
        now: u64,
        bytes: &'a [u8],
        steps: &mut Steps<L>,
    ) -> Arrived<'a>
        requires fits { FitsEnd table.now.rows self.old }
        requires now { now ≤ greatest_time }
        ensures arrives { (s : EndState) → Stands self.old s
            → Arrives table.now.rows (pair_at_end self.old) (reading bytes.now) self.new result
            (book.arrive table.now.rows (pair_at_end self.old) now s (reading bytes.now)) }
        ensures option { (d : Segment) → reading bytes.now ≡ Read d → TellsOption d result }
        ensures untouched { IsBeforeCheck result.arrival → (self.new ≡ self.old) × (steps.new ≡ steps.old) }
        ensures unchanged { LeavesAll result.arrival → IsUnmoved self.old self.new }
        ensures costs { (d : Segment) → reading bytes.now ≡ Read d
            → Costs table.now.rows now d self.old self.new result steps.old steps.new }
        ensures pair { pair_at_end self.new ≡ pair_at_end self.old }
        ensures fits { FitsEnd table.now.rows self.new }
        ensures steps { steps.new ≤ steps.old + 66 }
    {
        let datagram = match read_datagram(bytes) {
            Ok(datagram) => datagram,
            Err(fault) => return Arrived::without(Arrival::Bad(fault)),
        };
        self.hear_datagram(table, now, &datagram, steps)
    }

    /// A datagram that was read arrives: the first answer that holds, which is not `Bad`. All else is
    /// as for `arrive`.
    #[tactic(auto, unfolding(book_endpoint::specs::Arrivals::arrive))]
    pub fn hear_datagram<'a, L: Ledger>(
        &mut self,
        table: &Table,
        now: u64,
        datagram: &Datagram<'a>,
        steps: &mut Steps<L>,
    ) -> Arrived<'a>
        requires fits { FitsEnd table.now.rows self.old }
        requires now { now ≤ greatest_time }
        ensures arrives { (s : EndState) → Stands self.old s
            → Arrives table.now.rows (pair_at_end self.old) (Read datagram.now) self.new result
            (book.arrive table.now.rows (pair_at_end self.old) now s (Read datagram.now)) }
        ensures option { TellsOption datagram.now result }
        ensures untouched { IsBeforeCheck result.arrival → (self.new ≡ self.old) × (steps.new ≡ steps.old) }
        ensures unchanged { LeavesAll result.arrival → IsUnmoved self.old self.new }
        ensures costs { Costs table.now.rows now datagram.now self.old self.new result steps.old steps.new }
        ensures pair { pair_at_end self.new ≡ pair_at_end self.old }
        ensures fits { FitsEnd table.now.rows self.new }
        ensures steps { steps.new ≤ steps.old + 66 }
    {
        if !is_from_peer(&self.pair, datagram) {
            return Arrived::without(Arrival::Foreign);
        }
        if !datagram.checksum_ok() {
            return Arrived::without(Arrival::Checksum);
        }
        if is_closed(self.phase) {
            return Arrived::without(Arrival::Closed);
        }
        let expected = expected_of(self.sequence.received);
        let passing = match self
            .association
            .check_with_option(table, now, expected, datagram, steps)
        {
            Ok(passing) => passing,
            Err(verdict) => return Arrived::without(Arrival::Refused(verdict)),
        };
        let number = passing.passed.number;
        let rnext = passing.option.rnext;
        let arrival = self.hear(table, datagram, number, rnext, now, steps);
        Arrived {
            arrival,
            passed: Some(passing),
        }
    }
}
