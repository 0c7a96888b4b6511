//! The events by which a segment may be made at an end, or by which bytes come.
ghost use Rattle.std.specs.Prelude.{◌≡◌, ℕ, ◌+◌, ◌≤◌, List, length, Some, IfSome};
ghost use Rattle.book_base.specs.declared.end.End.{End};
ghost use Rattle.book_segments.specs.Segments.{Bad, Read, reading};
ghost use Rattle.book_endpoint.specs.States.{EndState};
ghost use Rattle.book_keys.specs.Lifetimes.{greatest_time};
ghost use Rattle.book_keys.specs.Rows.{Row};
ghost use Rattle.book_link.specs.declared.event.Event.TheVariants.{At};
ghost use Rattle.book_link.specs.Steps.{come, on_live, step, view_of};
ghost use Rattle.book_link.specs.Worlds.{Setup, World, pair_of, side as side_of};
ghost use Rattle.link_report.specs.Segments.{emission_of, HasCome, HasSent, length_sent, made_by, sending};
ghost use Rattle.link_report.specs.Sides.{StandsSide, sockets_of, table_of};
ghost use Rattle.tcp_endpoint.specs.Arrivals.{TellsOption};
ghost use Rattle.tcp_endpoint.specs.Emissions.{Emits};
ghost use Rattle.tcp_endpoint.specs.Ends.{FitsEnd, Stands, pair_at_end};

use crate::side::Side;
use ao_base::Steps;
use book_link::Transmission;
use key_table::Table;
use std::sync::ledger::Ledger;
use tcp_endpoint::{Arrival, Arrived, Emission, Endpoint, Resent};
use tcp_segment::{Datagram, DatagramFault};

/// The answer of a resend, as that of an emit.
fn emission_of(resent: Resent) -> Emission
    ensures { result ≡ emission_of resent }
{
    match resent {
        Resent::Segment(made) => Emission::Segment(made),
        Resent::NoKey => Emission::NoKey,
        Resent::Nothing => Emission::Idle,
    }
}

/// The endpoint makes its next segment, or makes one again.
fn make<L: Ledger>(
    endpoint: &mut Endpoint,
    table: &Table,
    now: u64,
    transmission: Transmission,
    out: &mut [u8],
    steps: &mut Steps<L>,
) -> Emission
    requires fits { FitsEnd table.now.rows endpoint.old }
    requires room { 1500 ≤ length out.old }
    ensures emits { (s : EndState) → Stands endpoint.old s
        → Emits s endpoint.new out.old out.new result (made_by transmission table.now.rows (pair_at_end endpoint.old)
        now s) }
    ensures short { length_sent (Some result) ≤ 1500 }
    ensures pair { pair_at_end endpoint.new ≡ pair_at_end endpoint.old }
    ensures fits { FitsEnd table.now.rows endpoint.new }
    ensures steps { steps.new ≤ steps.old + 1 }
{
    match transmission {
        Transmission::New => endpoint.emit(table, now, out, steps),
        Transmission::Again => emission_of(endpoint.resend(table, now, out, steps)),
    }
}

impl Side {
    /// The table, as it is now.
    pub fn table(&self) -> &Table
        ensures { result.now ≡ table_of self.now }
    {
        &self.table
    }

    /// The live session makes its next segment in front of `out`, which has at least 1,500 bytes, or
    /// makes one again (RFC 9293, sections 3.10 and 3.10.8). `None` exactly where there is
    /// no session, `NoKey` where a segment would be made and no row is sendable, `Idle` where there is
    /// none to make; after these three the side stands for what it stood for, and `out` is as it was.
    /// At most one step is counted.
    pub fn send<L: Ledger>(
        &mut self,
        transmission: Transmission,
        out: &mut [u8],
        steps: &mut Steps<L>,
    ) -> Option<Emission>
        requires room { 1500 ≤ length out.old }
        ensures pair { sockets_of self.new ≡ sockets_of self.old }
        ensures sent { (setup : Setup) (w : World) (e : End) → pair_of setup e ≡ sockets_of self.old
            → StandsSide self.old (side_of w e)
            → HasSent w (step setup w (At e (sending transmission))) transmission e self.new out.old out.new result }
        ensures short { length_sent result ≤ 1500 }
        ensures steps { steps.new ≤ steps.old + 1 }
    {
        match &mut self.live {
            None => None,
            Some(live) => {
                let made = make(
                    &mut live.endpoint,
                    &self.table,
                    self.clock,
                    transmission,
                    out,
                    steps,
                );
                Some(made)
            }
        }
    }

    /// Bytes that are no datagram, by this fault, come to the live session. `None` exactly where there
    /// is no session; and nothing changes.
    pub fn come_unread(&self, fault: DatagramFault) -> Option<Arrived<'_>>
        ensures { (setup : Setup) (w : World) (e : End) (bytes : List ℕ) → reading bytes ≡ Bad fault
            → pair_of setup e ≡ sockets_of self.now → StandsSide self.now (side_of w e)
            → HasCome w (on_live w e (come bytes (view_of setup w e))) e self.now bytes result }
    {
        match &self.live {
            None => None,
            Some(_) => Some(Arrived {
                arrival: Arrival::Bad(fault),
                passed: None,
            }),
        }
    }

    /// A datagram that was read comes to the live session (RFC 9293, section 3.10.7; RFC 5925, section
    /// 7.5), and what passes is told with the option that was found in it. `None` exactly where there is no
    /// session; then all is as it was. At most 66 steps are counted.
    pub fn come<'a, L: Ledger>(
        &mut self,
        datagram: &Datagram<'a>,
        steps: &mut Steps<L>,
    ) -> Option<Arrived<'a>>
        ensures pair { sockets_of self.new ≡ sockets_of self.old }
        ensures come { (setup : Setup) (w : World) (e : End) (bytes : List ℕ) → reading bytes ≡ Read datagram.now
            → pair_of setup e ≡ sockets_of self.old → StandsSide self.old (side_of w e)
            → HasCome w (on_live w e (come bytes (view_of setup w e))) e self.new bytes result }
        ensures option { IfSome result (λ told. TellsOption datagram.now told) }
        ensures steps { steps.new ≤ steps.old + 66 }
    {
        match &mut self.live {
            None => None,
            Some(live) => {
                let arrived = live
                    .endpoint
                    .hear_datagram(&self.table, self.clock, datagram, steps);
                Some(arrived)
            }
        }
    }
}
