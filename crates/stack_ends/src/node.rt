//! A node with many connections.
ghost use Rattle.std.specs.Prelude.{◌≡◌, ◌≤◌, ◌+◌, [], false, true, is_some, option_map, IfOk, OnOk, OnErr, Some, None};
ghost use Rattle.std.specs.Borrow.{sem};
ghost use Rattle.std.specs.Option.{option_copied_mut};
ghost use Rattle.book_segments.specs.Segments.{Read, reading};
ghost use Rattle.book_keys.specs.Lifetimes.{greatest_time};
ghost use Rattle.book_endpoint.specs.States.{connected, listening, started};
ghost use Rattle.book_cmd_node.specs.NodeRuns.{most_ends};
ghost use Rattle.book_base.specs.Addresses.{IsOneFamily};
ghost use Rattle.tcp_endpoint.specs.declared.endpoint.Endpoint.{Endpoint as OneEnd};
ghost use Rattle.stack_ends.specs.EndsArrivals.{Comes};
ghost use Rattle.stack_ends.specs.EndsCosts.{CostsHeard, CostsRead};
ghost use Rattle.stack_ends.specs.Held.{Adds, Begins, FitsAll, IsRefused, Removes, Ticks, end_at, holds, refusal};
ghost use Rattle.stack_ends.specs.Loans.{LendsEnd};

use crate::answer::{NodeArrival, NodeRefusal};
use ao_base::Steps;
use book_base::Pair;
use key_table::Table;
use std::alloc::{AllocError, Global};
use std::collections::BTreeMap;
use std::marker::Model;
use std::sync::ledger::Ledger;
use tcp_endpoint::Endpoint;
use tcp_segment::{Datagram, read_datagram};

/// A node: an end for each of its connections, by the pair of its sockets, and how many it holds at
/// most. Seen as this number and a finite map from pairs to ends. Nothing ties an end to the pair
/// that it is held for, so any end may be written through `end_mut`.
#[derive(Drop)]
pub struct Node {
    most: u16,
    ends: BTreeMap<Pair, Endpoint>,
}

impl Model for Node {
    ghost use Rattle.stack_ends.specs.Held.{Holding};

    ghost Value = { Holding };

    ghost view = { λ n. record { most = n.most; entries = n.ends.entries } };
}

impl Node {
    /// A node that holds no end, and at most `most`, 1 to 1,024. Each end takes its memory when it
    /// is made.
    pub fn new(alloc: Global, most: u16) -> Result<Node, AllocError>
        requires low { 1 ≤ most }
        requires high { most ≤ most_ends }
        ensures { IfOk result (λ n. n ≡ record { most = most; entries = [] }) }
    {
        Ok(Node {
            most,
            ends: BTreeMap::new(alloc),
        })
    }

    /// Whether a further end is taken for the pair.
    fn admit(&self, pair: &Pair) -> Result<(), NodeRefusal>
        ensures refused { IsRefused result (refusal self.now pair.now) }
        ensures told { OnErr result (is_some (refusal self.now pair.now) ≡ true) }
    {
        if self.ends.contains_key(pair) {
            return Err(NodeRefusal::InUse);
        }
        if self.ends.len() >= usize::from(self.most) {
            return Err(NodeRefusal::Full);
        }
        Ok(())
    }

    /// The end is held for a pair that isn't. After want of memory nothing has changed.
    fn put(&mut self, pair: &Pair, endpoint: Endpoint) -> Result<(), AllocError>
        requires apart { holds self.old pair.now ≡ false }
        ensures added { OnOk result (Adds self.old self.new pair.now endpoint) }
        ensures unchanged { OnErr result (self.new ≡ self.old) }
    {
        self.ends.insert(*pair, endpoint)?;
        Ok(())
    }

    /// An end for the pair opens actively (RFC 9293, section 3.10.1), with `isn` as its own initial
    /// sequence number. The addresses of the pair are of one family.
    ///
    /// `InUse` exactly where the pair is held, else `Full` exactly where as many ends are held as the
    /// node holds at most; `Memory` only for want of memory. After each of these nothing has changed.
    pub fn connect(
        &mut self,
        alloc: Global,
        table: &Table,
        pair: Pair,
        isn: u32,
    ) -> Result<(), NodeRefusal>
        requires family { IsOneFamily pair.local.address pair.remote.address }
        ensures refused { IsRefused result (refusal self.old pair) }
        ensures unchanged { OnErr result (self.new ≡ self.old) }
        ensures added { OnOk result ((e : OneEnd) × Adds self.old self.new pair e
            × Begins table.now.rows pair (connected pair isn) e) }
    {
        self.admit(&pair)?;
        let endpoint = Endpoint::connect(alloc, table, pair, isn)?;
        self.put(&pair, endpoint)?;
        Ok(())
    }

    /// An end for the pair waits for the SYN of its peer (RFC 9293, section 3.10.1). All else is as for
    /// `connect`.
    pub fn listen(
        &mut self,
        alloc: Global,
        table: &Table,
        pair: Pair,
        isn: u32,
    ) -> Result<(), NodeRefusal>
        requires family { IsOneFamily pair.local.address pair.remote.address }
        ensures refused { IsRefused result (refusal self.old pair) }
        ensures unchanged { OnErr result (self.new ≡ self.old) }
        ensures added { OnOk result ((e : OneEnd) × Adds self.old self.new pair e
            × Begins table.now.rows pair (listening pair isn) e) }
    {
        self.admit(&pair)?;
        let endpoint = Endpoint::listen(alloc, table, pair, isn)?;
        self.put(&pair, endpoint)?;
        Ok(())
    }

    /// An end for the pair begins with both initial sequence numbers known, without a handshake (own).
    /// All else is as for `connect`.
    pub fn start(
        &mut self,
        alloc: Global,
        table: &Table,
        pair: Pair,
        own_isn: u32,
        peer_isn: u32,
    ) -> Result<(), NodeRefusal>
        requires family { IsOneFamily pair.local.address pair.remote.address }
        ensures refused { IsRefused result (refusal self.old pair) }
        ensures unchanged { OnErr result (self.new ≡ self.old) }
        ensures added { OnOk result ((e : OneEnd) × Adds self.old self.new pair e
            × Begins table.now.rows pair (started pair own_isn peer_isn) e) }
    {
        self.admit(&pair)?;
        let endpoint = Endpoint::start(alloc, table, pair, own_isn, peer_isn)?;
        self.put(&pair, endpoint)?;
        Ok(())
    }

    /// Drops the end of the pair. False exactly where the pair isn't held; then nothing has changed.
    pub fn remove(&mut self, pair: &Pair) -> bool
        ensures held { result ≡ holds self.old pair.now }
        ensures removed { Removes self.old self.new pair.now }
        ensures unchanged { result ≡ false → self.new ≡ self.old }
    {
        self.ends.remove(pair).is_some()
    }

    /// The end of the pair. `None` exactly where the pair isn't held.
    pub fn end(&self, pair: &Pair) -> Option<&Endpoint>
        ensures { option_map (λ e. e.now) result ≡ end_at self.now pair.now }
    {
        self.ends.get(pair)
    }

    /// The end of the pair, for calls that change it. `None` exactly where the pair isn't held. What
    /// is written through it changes this end alone.
    pub fn end_mut(&mut self, pair: &Pair) -> Option<&mut Endpoint>
        ensures* writes { sem 𝓛 (LendsEnd self.entry pair.now result) }
        ensures end { option_copied_mut result ≡ end_at self.old pair.now }
    {
        self.ends.get_mut(pair)
    }

    /// A datagram arrives at `now`, in seconds since 1970 and at most LATEST. `Bad` exactly where the
    /// bytes are no datagram; `NoConnection` exactly where no pair is held with the datagram's
    /// destination as its local socket and the source as its remote one; after these two nothing has
    /// changed. Else the end of this pair answers, and all others stay. The table fits each end. At
    /// most 66 steps are counted: none where no end hears it; else at most one derivation of a traffic
    /// key, and at most 65 links where a piece passed, as its end counts them.
    pub fn arrive<'a, L: Ledger>(
        &mut self,
        table: &Table,
        now: u64,
        bytes: &'a [u8],
        steps: &mut Steps<L>,
    ) -> NodeArrival<'a>
        requires fits { FitsAll table.now.rows self.old }
        requires now { now ≤ greatest_time }
        ensures comes { Comes table.now.rows now self.old self.new result (reading bytes.now) }
        ensures costs { CostsRead table.now.rows now (reading bytes.now) self.old self.new result steps.old steps.new }
        ensures steps { steps.new ≤ steps.old + 66 }
    {
        let datagram = match read_datagram(bytes) {
            Err(fault) => return NodeArrival::Bad(fault),
            Ok(datagram) => datagram,
        };
        self.hear_datagram(table, now, &datagram, steps)
    }

    /// A datagram that was read arrives, so the answer is not `Bad`. All else is as for `arrive`.
    pub fn hear_datagram<'a, L: Ledger>(
        &mut self,
        table: &Table,
        now: u64,
        datagram: &Datagram<'a>,
        steps: &mut Steps<L>,
    ) -> NodeArrival<'a>
        requires fits { FitsAll table.now.rows self.old }
        requires now { now ≤ greatest_time }
        ensures comes { Comes table.now.rows now self.old self.new result (Read datagram.now) }
        ensures costs { CostsHeard table.now.rows now datagram.now self.old self.new result steps.old steps.new }
        ensures steps { steps.new ≤ steps.old + 66 }
    {
        let pair = Pair {
            local: datagram.destination(),
            remote: datagram.source(),
        };
        match self.ends.get_mut(&pair) {
            None => NodeArrival::NoConnection,
            Some(end) => NodeArrival::At(pair, end.hear_datagram(table, now, datagram, steps)),
        }
    }

    /// It is `now`, in seconds since 1970, at every end (RFC 9293, section 3.10.8).
    pub fn tick(&mut self, now: u64)
        ensures { Ticks now self.old self.new }
    {
        self.ends.retain(|_, end| {
            end.tick(now);
            true
        });
    }
}
