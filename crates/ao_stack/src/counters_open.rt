//! A stack that counts begins, and connections begin.
ghost use Rattle.std.specs.Prelude.{◌≡◌, ◌≤◌, IfOk};
ghost use Rattle.book_cmd_node.specs.NodeRuns.{most_ends};
ghost use Rattle.book_cmd_node.specs.declared.node.Act.TheVariants as act;
ghost use Rattle.book_stack.specs.Counters.{StackCounts, no_stack_counts};
ghost use Rattle.book_stack.specs.Calls.{At};
ghost use Rattle.book_stack.specs.Stacks.{StackState, empty_stack};
ghost use Rattle.book_base.specs.Addresses.{IsOneFamily};
ghost use Rattle.ao_stack.specs.CountersAnswers.{BeginsAs};
ghost use Rattle.ao_stack.specs.CountersStands.{Stands};

use crate::counted_stack::CountedStack;
use crate::counts::no_counters;
use crate::stack::Stack;
use crate::tallies::Tallies;
use book_base::Pair;
use key_table::Table;
use stack_ends::NodeRefusal;
use std::alloc::{AllocError, Global};

impl CountedStack {
    /// A stack without connections that holds at most `most`, 1 to 1,024, at clock 0, and has counted
    /// nothing. `AllocError` only for want of memory.
    pub fn new(alloc: Global, table: Table, most: u16) -> Result<CountedStack, AllocError>
        requires low { 1 ≤ most }
        requires high { most ≤ most_ends }
        ensures { IfOk result (λ k. Stands k (empty_stack table.rows most) no_stack_counts) }
    {
        let stack = Stack::new(alloc, table, most)?;
        Ok(CountedStack {
            stack,
            tallies: Tallies::new(alloc),
            node: no_counters(),
        })
    }

    /// A connection of the pair opens actively (RFC 9293, section 3.10.1), with `isn` as its own initial
    /// sequence number, and a new tally. The addresses of the pair are of one family.
    ///
    /// `InUse` exactly where the pair is held, else `Full` exactly where as many connections are held as
    /// the stack holds at most; `Memory` only for want of memory. After each of these the stack and its
    /// counters are as they were.
    pub fn open(&mut self, alloc: Global, pair: Pair, isn: u32) -> Result<(), NodeRefusal>
        requires family { IsOneFamily pair.local.address pair.remote.address }
        ensures { (s : StackState) (n : StackCounts) → Stands self.old s n
            → BeginsAs self.new (At pair (act.Open isn)) s n result }
    {
        let before = self.tallies.get(&pair);
        self.tallies.put(&pair)?;
        match self.stack.open(alloc, pair, isn) {
            Ok(()) => Ok(()),
            Err(refusal) => {
                self.tallies.put_back(&pair, before);
                Err(refusal)
            }
        }
    }

    /// A connection of the pair waits for the SYN of its peer (RFC 9293, section 3.10.1). All else is as
    /// for `open`.
    pub fn listen(&mut self, alloc: Global, pair: Pair, isn: u32) -> Result<(), NodeRefusal>
        requires family { IsOneFamily pair.local.address pair.remote.address }
        ensures { (s : StackState) (n : StackCounts) → Stands self.old s n
            → BeginsAs self.new (At pair (act.Listen isn)) s n result }
    {
        let before = self.tallies.get(&pair);
        self.tallies.put(&pair)?;
        match self.stack.listen(alloc, pair, isn) {
            Ok(()) => Ok(()),
            Err(refusal) => {
                self.tallies.put_back(&pair, before);
                Err(refusal)
            }
        }
    }

    /// A connection of the pair begins with both initial sequence numbers known, without a handshake
    /// (own). All else is as for `open`.
    pub fn start(
        &mut self,
        alloc: Global,
        pair: Pair,
        isn: u32,
        peer_isn: u32,
    ) -> Result<(), NodeRefusal>
        requires family { IsOneFamily pair.local.address pair.remote.address }
        ensures { (s : StackState) (n : StackCounts) → Stands self.old s n
            → BeginsAs self.new (At pair (act.Start isn peer_isn)) s n result }
    {
        let before = self.tallies.get(&pair);
        self.tallies.put(&pair)?;
        match self.stack.start(alloc, pair, isn, peer_isn) {
            Ok(()) => Ok(()),
            Err(refusal) => {
                self.tallies.put_back(&pair, before);
                Err(refusal)
            }
        }
    }
}
