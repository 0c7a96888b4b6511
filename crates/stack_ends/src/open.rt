//! Ends begin, are dropped, and tick.
ghost use Rattle.std.specs.Prelude.{◌≡◌, ◌≤◌, List, IfOk};
ghost use Rattle.book_keys.specs.Lifetimes.{greatest_time};
ghost use Rattle.book_keys.specs.Rows.{Row};
ghost use Rattle.book_endpoint.specs.States.{connected, listening};
ghost use Rattle.book_cmd_node.specs.NodeRuns.{NodeState, most_ends, no_ends, ends_ticked, held_end};
ghost use Rattle.book_base.specs.Addresses.{IsOneFamily};
ghost use Rattle.stack_ends.specs.Stands.{Stands, Begun, Removed, most_of};

use crate::answer::NodeRefusal;
use crate::ends::Ends;
use crate::node::Node;
use book_base::Pair;
use key_table::Table;
use std::alloc::{AllocError, Global};

impl Ends {
    /// No end, and at most `most`, at clock 0; `AllocError` only for want of memory.
    pub fn new(alloc: Global, table: Table, most: u16) -> Result<Ends, AllocError>
        requires low { 1 ≤ most }
        requires high { most ≤ most_ends }
        ensures stands { IfOk result (λ k. Stands k table.rows no_ends) }
        ensures most { IfOk result (λ k. most_of k ≡ most) }
    {
        let node = Node::new(alloc, most)?;
        Ok(Ends {
            table,
            node,
            clock: 0,
        })
    }

    /// An end for the pair opens actively (RFC 9293, section 3.10.1). `InUse` exactly where the pair is
    /// held, else `Full` exactly where as many ends are held as may be; `Memory` only for want of
    /// memory. After each of these it stands for what it stood for.
    pub fn open(&mut self, alloc: Global, pair: Pair, isn: u32) -> Result<(), NodeRefusal>
        requires family { IsOneFamily pair.local.address pair.remote.address }
        ensures begun { (rows : List Row) (n : NodeState) → Stands self.old rows n
            → Begun self.new rows n (record { pair = pair; state = connected pair isn }) result }
        ensures most { most_of self.new ≡ most_of self.old }
    {
        self.node.connect(alloc, &self.table, pair, isn)
    }

    /// An end for the pair waits for the SYN of its peer (RFC 9293, section 3.10.1). All else is as for
    /// `open`.
    pub fn listen(&mut self, alloc: Global, pair: Pair, isn: u32) -> Result<(), NodeRefusal>
        requires family { IsOneFamily pair.local.address pair.remote.address }
        ensures begun { (rows : List Row) (n : NodeState) → Stands self.old rows n
            → Begun self.new rows n (record { pair = pair; state = listening pair isn }) result }
        ensures most { most_of self.new ≡ most_of self.old }
    {
        self.node.listen(alloc, &self.table, pair, isn)
    }

    /// Drops the end of the pair. False exactly where the pair isn't held.
    pub fn remove(&mut self, pair: &Pair) -> bool
        ensures removed { (rows : List Row) (n : NodeState) → Stands self.old rows n
            → Removed self.new rows n pair.now result (held_end pair.now n.ends) }
        ensures most { most_of self.new ≡ most_of self.old }
    {
        self.node.remove(pair)
    }

    /// The second that the ends were told last.
    pub fn clock(&self) -> u64
        ensures time { result ≤ greatest_time }
        ensures clock { (rows : List Row) (n : NodeState) → Stands self.now rows n → result ≡ n.clock }
    {
        self.clock
    }

    /// It is `seconds` since 1970 at every end (RFC 9293, section 3.10.8).
    pub fn tick(&mut self, seconds: u64)
        requires { seconds ≤ greatest_time }
        ensures ticks { (rows : List Row) (n : NodeState) → Stands self.old rows n
            → Stands self.new rows (record { clock = seconds; ends = ends_ticked seconds n.ends }) }
        ensures most { most_of self.new ≡ most_of self.old }
    {
        self.node.tick(seconds);
        self.clock = seconds;
    }
}
