//! A list linked by indexes, both ways, in a pool of fixed size.
ghost use Rattle.std.specs.Prelude.{◌≡◌, ◌+◌, ◌<◌, ◌↔◌, [], ◌∷◌, ◌++◌, length, IfSome, IfOk, IfErr, IsOk};
ghost use Rattle.std.specs.Option.{ForSome};
ghost use Rattle.stream_buffers.specs.Links.{node_of, slot_of};
ghost use Rattle.stream_buffers.specs.Pool.{At, Behind, Holds, IsPool, first_slot, last_slot, pool};

use crate::slot::Slot;
use ao_base::Steps;
use std::alloc::{AllocError, Global};
use std::marker::Model;
use std::sync::ledger::Ledger;

/// A list linked by indexes in a pool of fixed size, seen as its capacity and its pairs of a slot
/// and an item, in order; no slot is there twice. A slot that is handed in must be in the list.
///
/// The nodes lie in three vectors: the item of a node, and the nodes after and before it. The used
/// ones make a circle with the node at index `capacity`, which has no item. The unused ones follow
/// each other from `free` on through `next`, up to that same node.
#[derive(Drop)]
pub struct Slots<T: Copy> {
    capacity: u32,
    items: Vec<Option<T>>,
    next: Vec<u32>,
    prev: Vec<u32>,
    free: u32,
}

impl<T: Copy> Model for Slots<T> {
    ghost use Rattle.stream_buffers.specs.Pool.{Pool, pool_code};

    ghost Value = { Pool T };

    ghost coded = { pool_code T.code };

    ghost use Rattle.stream_buffers.specs.Links.{IsLinked, seen};

    ghost view = { λ s. seen s.capacity s.items.items s.next.items };

    ghost invariant = { λ s. IsLinked s.capacity s.items.items s.next.items s.prev.items s.free };
}

impl<T: Copy> Slots<T> {
    /// An empty list with room for `capacity` items, with all its memory; `AllocError` is want of
    /// memory.
    pub fn new(alloc: Global, capacity: u32) -> Result<Slots<T>, AllocError>
        ensures { IfOk result (λ s. s ≡ pool capacity []) }
    {
        let places = capacity as usize + 1;
        let items = vec![in alloc; None; places]?;
        let prev = vec![in alloc; capacity; places]?;
        let mut next = vec![in alloc; capacity; places]?;
        for index in 0..capacity {
            next[index as usize] = index + 1;
        }
        Ok(Slots {
            capacity,
            items,
            next,
            prev,
            free: 0,
        })
    }

    /// Puts an item behind the one of a slot, or first where no slot is named, and answers its
    /// slot. `Err` hands the item back, exactly where the list has as many items as its capacity;
    /// then nothing changes.
    pub fn insert_after(&mut self, at: Option<Slot>, item: T) -> Result<Slot, T>
        requires { ForSome at (λ slot. Holds self.old.pairs slot) }
        ensures variant { IsOk result ↔ (length self.old.pairs < self.old.capacity) }
        ensures ok { IfOk result (λ slot. Behind self.old.pairs at (λ before after.
            self.new ≡ pool self.old.capacity (before ++ (slot, item) ∷ after))) }
        ensures held { IfOk result (λ slot. Holds self.new.pairs slot) }
        ensures err { IfErr result (λ back. (back ≡ item) × (self.new ≡ self.old)) }
        ensures sound { IsPool self.new }
    {
        let index = self.free;
        if index == self.capacity {
            return Err(item);
        }
        let here = node_of(at, self.capacity);
        let after = self.next[here as usize];
        self.free = self.next[index as usize];
        self.items[index as usize] = Some(item);
        self.next[index as usize] = after;
        self.prev[index as usize] = here;
        self.next[here as usize] = index;
        self.prev[after as usize] = index;
        Ok(Slot { index })
    }

    /// Takes the item of a slot out of the list.
    pub fn remove(&mut self, at: Slot) -> T
        requires { Holds self.old.pairs at }
        ensures value { At self.old.pairs at (λ before x after. result ≡ x) }
        ensures rest { At self.old.pairs at (λ before x after.
            self.new ≡ pool self.old.capacity (before ++ after)) }
        ensures sound { IsPool self.new }
    {
        let item = self.items[at.index as usize].unwrap();
        let before = self.prev[at.index as usize];
        let after = self.next[at.index as usize];
        self.next[before as usize] = after;
        self.prev[after as usize] = before;
        self.next[at.index as usize] = self.free;
        self.free = at.index;
        item
    }

    /// The item of a slot.
    pub fn get(&self, at: Slot) -> T
        requires { Holds self.now.pairs at }
        ensures value { At self.now.pairs at (λ before x after. result ≡ x) }
        ensures sound { IsPool self.now }
    {
        self.items[at.index as usize].unwrap()
    }

    /// Puts an item in the place of the one of a slot.
    pub fn set(&mut self, at: Slot, item: T)
        requires { Holds self.old.pairs at }
        ensures item { At self.old.pairs at (λ before x after.
            self.new ≡ pool self.old.capacity (before ++ (at, item) ∷ after)) }
        ensures sound { IsPool self.new }
    {
        self.items[at.index as usize] = Some(item);
    }

    /// The slot of the first item; `None` exactly where the list is empty.
    pub fn first(&self) -> Option<Slot>
        ensures first { result ≡ first_slot self.now.pairs }
        ensures held { IfSome result (λ slot. Holds self.now.pairs slot) }
        ensures sound { IsPool self.now }
    {
        slot_of(self.next[self.capacity as usize], self.capacity)
    }

    /// The slot of the next item; `None` exactly at the last one. It counts one step.
    pub fn next<L: Ledger>(&self, at: Slot, steps: &mut Steps<L>) -> Option<Slot>
        requires { Holds self.now.pairs at }
        ensures next { At self.now.pairs at (λ before x after. result ≡ first_slot after) }
        ensures held { IfSome result (λ slot. Holds self.now.pairs slot) }
        ensures counted { steps.new ≡ steps.old + 1 }
        ensures sound { IsPool self.now }
    {
        steps.count();
        slot_of(self.next[at.index as usize], self.capacity)
    }

    /// The slot of the item before; `None` exactly at the first one. It counts one step.
    pub fn prev<L: Ledger>(&self, at: Slot, steps: &mut Steps<L>) -> Option<Slot>
        requires { Holds self.now.pairs at }
        ensures prev { At self.now.pairs at (λ before x after. result ≡ last_slot before) }
        ensures held { IfSome result (λ slot. Holds self.now.pairs slot) }
        ensures counted { steps.new ≡ steps.old + 1 }
        ensures sound { IsPool self.now }
    {
        steps.count();
        slot_of(self.prev[at.index as usize], self.capacity)
    }
}

/// The node of a slot; the closing node where none is named.
fn node_of(at: Option<Slot>, end: u32) -> u32
    ensures { result ≡ node_of end at }
{
    match at {
        Some(slot) => slot.index,
        None => end,
    }
}

/// The slot of a node; the closing node has none.
fn slot_of(node: u32, end: u32) -> Option<Slot>
    ensures { result ≡ slot_of end node }
{
    if node == end {
        None
    } else {
        Some(Slot { index: node })
    }
}
