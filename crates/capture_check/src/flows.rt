//! Both ways of a connection.
ghost use Rattle.std.specs.Prelude.{◌≡◌, ◌≤◌, ◌^◌, Some, IfOk, IfSome, not};
ghost use Rattle.tcp_segment.specs.Counter.{number};
ghost use Rattle.ao_check.specs.Bonds.{Fits};
ghost use Rattle.capture_check.specs.Flows.{new_flows, rows_of, flow_from, way};
ghost use Rattle.capture_check.specs.Judgements.{FlowsHear, has_isns, numbers_in};

use crate::flow::Flow;
use crate::known::KnownConnection;
use ao_base::Steps;
use ao_check::{Passed, Refusal};
use book_base::Socket;
use key_table::{Table, Tables};
use std::alloc::{AllocError, Global};
use std::sync::ledger::Ledger;
use tcp_segment::Datagram;

/// What is known of a connection: the segments from the lower socket, and those from the higher one.
#[derive(Drop)]
pub(crate) struct Flows {
    pub(crate) low: Flow,
    pub(crate) high: Flow,
}

impl Flows {
    /// Both ways between two sockets, whose initial sequence numbers became known.
    pub(crate) fn new(
        alloc: Global,
        tables: &Tables,
        one: Socket,
        two: Socket,
        isn: u32,
        other: u32,
    ) -> Result<Flows, AllocError>
        ensures { IfOk result (λ h. h ≡ new_flows tables.now one two isn other) }
    {
        let from_one = Flow::new(alloc, tables, one, two, isn, other)?;
        let from_two = Flow::new(alloc, tables, two, one, other, isn)?;
        if one.is_low(two) {
            Ok(Flows {
                low: from_one,
                high: from_two,
            })
        } else {
            Ok(Flows {
                low: from_two,
                high: from_one,
            })
        }
    }

    /// Whether both ways have these initial sequence numbers, the first one that of the lower socket
    /// or of the higher one.
    pub(crate) fn has_isns(&self, low: bool, isn: u32, other: u32) -> bool
        ensures { result ≡ has_isns low self.now isn other }
    {
        if low {
            self.low.isn == isn && self.high.isn == other
        } else {
            self.high.isn == isn && self.low.isn == other
        }
    }

    /// The numbers of both ways, seen from the lower socket or from the higher one.
    pub(crate) fn numbers(&self, low: bool) -> KnownConnection
        ensures { result ≡ numbers_in low self.now }
    {
        if low {
            KnownConnection {
                source_isn: self.low.isn,
                destination_isn: self.high.isn,
                expected: self.low.expected.value(),
            }
        } else {
            KnownConnection {
                source_isn: self.high.isn,
                destination_isn: self.low.isn,
                expected: self.high.expected.value(),
            }
        }
    }

    /// The verdict on a segment without SYN that comes from the lower socket, or from the higher one,
    /// judged by the given number, at most 2^63, or else by the one that is expected.
    pub(crate) fn hear<L: Ledger>(
        &mut self,
        low: bool,
        table: &Table,
        time: u64,
        given: Option<u64>,
        datagram: &Datagram<'_>,
        steps: &mut Steps<L>,
    ) -> Result<Passed, Refusal>
        requires fits { Fits table.now.rows (way low self.old).receiver }
        requires source { datagram.now.source ≡ (way low self.old).receiver.pair.remote }
        requires destination { datagram.now.destination ≡ (way low self.old).receiver.pair.local }
        requires peer { (way low self.old).receiver.peer ≡ Some (way low self.old).isn }
        requires expected { number (way low self.old).expected ≤ 2 ^ 63 }
        requires given { IfSome given (λ n. n ≤ 2 ^ 63) }
        ensures { FlowsHear table.now.rows time given datagram.now low self.old self.new result steps.old steps.new }
    {
        if low {
            self.low.hear(table, time, given, datagram, steps)
        } else {
            self.high.hear(table, time, given, datagram, steps)
        }
    }
}
