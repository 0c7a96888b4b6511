//! A stack begins, and connections begin.
ghost use Rattle.std.specs.Prelude.{◌≡◌, ◌≤◌, IfOk, OnErr, OnOk};
ghost use Rattle.book_cmd_node.specs.NodeRuns.{most_ends};
ghost use Rattle.book_cmd_node.specs.declared.node.Act.TheVariants as act;
ghost use Rattle.book_stack.specs.Calls.{At};
ghost use Rattle.book_stack.specs.Stacks.{StackState, empty_stack, touched};
ghost use Rattle.book_base.specs.Addresses.{IsOneFamily};
ghost use Rattle.ao_stack.specs.Answers.{BeginsAs};
ghost use Rattle.ao_stack.specs.Stands.{Stands, TakesBack};

use crate::stack::Stack;
use book_base::Pair;
use key_table::Table;
use stack_ends::{Ends, NodeRefusal};
use stack_timers::{Alarms, Line, Watches};
use std::alloc::{AllocError, Global};

impl Stack {
    /// A stack without connections that holds at most `most`, 1 to 1,024, at clock 0, with the memory of
    /// its deadlines and its line. `AllocError` only for want of memory.
    pub fn new(alloc: Global, table: Table, most: u16) -> Result<Stack, AllocError>
        requires low { 1 ≤ most }
        requires high { most ≤ most_ends }
        ensures { IfOk result (λ k. Stands k (empty_stack table.rows most)) }
    {
        let alarms = Alarms::new(alloc, usize::from(most))?;
        let line = Line::new(alloc, usize::from(most))?;
        let ends = Ends::new(alloc, table, most)?;
        Ok(Stack {
            ends,
            watches: Watches::new(alloc),
            alarms,
            line,
        })
    }

    /// Settles what was put for the pair, where its end began or didn't.
    fn settle(&mut self, pair: &Pair, began: Result<(), NodeRefusal>) -> Result<(), NodeRefusal>
        ensures answer { result ≡ began }
        ensures ok { OnOk began ((s : StackState) → Stands self.old s → Stands self.new (touched pair.now s)) }
        ensures err { OnErr began (TakesBack self.old self.new pair.now) }
    {
        match began {
            Ok(()) => {
                self.touch(pair);
                Ok(())
            }
            Err(refusal) => {
                self.watches.remove(pair);
                Err(refusal)
            }
        }
    }

    /// A connection of the pair opens actively (RFC 9293, section 3.10.1), with `isn` as its own initial
    /// sequence number. The addresses of the pair are of one family.
    ///
    /// `InUse` exactly where the pair is held, else `Full` exactly where as many connections are held as
    /// the stack holds at most; `Memory` only for want of memory. After each of these the stack is as it
    /// was.
    pub fn open(&mut self, alloc: Global, pair: Pair, isn: u32) -> Result<(), NodeRefusal>
        requires family { IsOneFamily pair.local.address pair.remote.address }
        ensures { (s : StackState) → Stands self.old s → BeginsAs self.new (At pair (act.Open isn)) s result }
    {
        if self.holds(&pair) {
            return Err(NodeRefusal::InUse);
        }
        self.watches.put(&pair)?;
        let began = self.ends.open(alloc, pair, isn);
        self.settle(&pair, began)
    }

    /// A connection of the pair waits for the SYN of its peer (RFC 9293, section 3.10.1). All else is as
    /// for `open`.
    pub fn listen(&mut self, alloc: Global, pair: Pair, isn: u32) -> Result<(), NodeRefusal>
        requires family { IsOneFamily pair.local.address pair.remote.address }
        ensures { (s : StackState) → Stands self.old s → BeginsAs self.new (At pair (act.Listen isn)) s result }
    {
        if self.holds(&pair) {
            return Err(NodeRefusal::InUse);
        }
        self.watches.put(&pair)?;
        let began = self.ends.listen(alloc, pair, isn);
        self.settle(&pair, began)
    }
    /// A connection of the pair begins with both initial sequence numbers known, without a handshake
    /// (own). All else is as for `open`.
    pub fn start(
        &mut self,
        alloc: Global,
        pair: Pair,
        isn: u32,
        peer_isn: u32,
    ) -> Result<(), NodeRefusal>
        requires family { IsOneFamily pair.local.address pair.remote.address }
        ensures { (s : StackState) → Stands self.old s → BeginsAs self.new (At pair (act.Start isn peer_isn)) s result }
    {
        if self.holds(&pair) {
            return Err(NodeRefusal::InUse);
        }
        self.watches.put(&pair)?;
        let began = self.ends.start(alloc, pair, isn, peer_isn);
        self.settle(&pair, began)
    }
}
