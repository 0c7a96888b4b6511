//! What is known of the segments of a connection that go one way.
ghost use Rattle.std.specs.Prelude.{◌≡◌, ◌≤◌, ◌^◌, length, Some, IfOk, IfSome};
ghost use Rattle.capture_check.specs.Flows.{new_flow, rows_of, expected_by, FlowHears};
ghost use Rattle.tcp_segment.specs.Counter.{number};
ghost use Rattle.ao_check.specs.Bonds.{fresh, Fits};

use ao_base::Steps;
use ao_check::{Association, Passed, Refusal};
use book_base::{Pair, Socket};
use key_table::{Table, Tables};
use std::alloc::{AllocError, Global};
use std::sync::ledger::Ledger;
use tcp_segment::{Counter, Datagram};

/// One way of a connection: the initial sequence number of the sender, the number expected of it, at
/// most 2^63, and the receiver's association, which keeps the traffic keys of this way.
#[derive(Drop)]
pub(crate) struct Flow {
    pub(crate) isn: u32,
    pub(crate) expected: Counter,
    pub(crate) receiver: Association,
}

/// The association of a node, with room for the keys of its rows; a node that isn't there has none.
fn receiver_of(
    alloc: Global,
    tables: &Tables,
    pair: Pair,
    isn: u32,
) -> Result<Association, AllocError>
    ensures { IfOk result (λ a. a ≡ fresh pair isn (length (rows_of tables.now pair.local))) }
{
    match tables.table(&pair.local.address) {
        Some(table) => Association::new(alloc, table, pair, isn, table.rows()),
        None => {
            let table = Table::empty(alloc, pair.local.address);
            Association::new(alloc, &table, pair, isn, 0)
        }
    }
}

impl Flow {
    /// The way from one socket to another, whose initial sequence numbers became known (RFC 9293,
    /// section 3.5). No key is kept.
    pub(crate) fn new(
        alloc: Global,
        tables: &Tables,
        from: Socket,
        to: Socket,
        isn: u32,
        other: u32,
    ) -> Result<Flow, AllocError>
        ensures { IfOk result (λ f. f ≡ new_flow tables.now from to isn other) }
    {
        let pair = Pair {
            local: to,
            remote: from,
        };
        let mut receiver = receiver_of(alloc, tables, pair, other)?;
        receiver.learn(isn);
        Ok(Flow {
            isn,
            expected: Counter::of(u64::from(isn) + 1),
            receiver,
        })
    }

    /// The number by which a segment is judged: the given one, or else the one that is expected.
    fn expected_by(&self, given: Option<u64>) -> u64
        requires expected { number self.now.expected ≤ 2 ^ 63 }
        requires given { IfSome given (λ n. n ≤ 2 ^ 63) }
        ensures value { result ≡ expected_by given self.now }
        ensures limit { result ≤ 2 ^ 63 }
    {
        match given {
            None => self.expected.value(),
            Some(number) => number,
        }
    }

    /// The verdict on a segment without SYN that goes this way, judged by the given number, at most
    /// 2^63, or else by the one that is expected. Where it passes, what is expected is at least that
    /// number and the one behind the segment.
    pub(crate) fn hear<L: Ledger>(
        &mut self,
        table: &Table,
        time: u64,
        given: Option<u64>,
        datagram: &Datagram<'_>,
        steps: &mut Steps<L>,
    ) -> Result<Passed, Refusal>
        requires fits { Fits table.now.rows self.old.receiver }
        requires source { datagram.now.source ≡ self.old.receiver.pair.remote }
        requires destination { datagram.now.destination ≡ self.old.receiver.pair.local }
        requires peer { self.old.receiver.peer ≡ Some self.old.isn }
        requires expected { number self.old.expected ≤ 2 ^ 63 }
        requires given { IfSome given (λ n. n ≤ 2 ^ 63) }
        ensures { FlowHears table.now.rows time given datagram.now self.old self.new result steps.old steps.new }
    {
        let expected = self.expected_by(given);
        let verdict = self
            .receiver
            .check(table, time, Some(expected), datagram, steps);
        if let Ok(passed) = &verdict {
            self.expected = Counter::of(expected.max(passed.number + datagram.segment_length()));
        }
        verdict
    }
}
