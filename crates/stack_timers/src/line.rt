//! The ends that may have something to send.
ghost use Rattle.std.specs.Prelude.{◌≡◌, ◌<◌, ◌≤◌, [], IfOk, IfSome, length};
ghost use Rattle.std.specs.List.{position_from};
ghost use Rattle.book_stack.specs.Alarms.{lined, without_pair};
ghost use Rattle.book_cmd_node.specs.NodeRuns.{same_pair};
ghost use Rattle.stack_timers.specs.Places.{behind_first, first_of, is_pair};

use book_base::Pair;
use pair_table::PairTable;
use std::alloc::{AllocError, Global};
use std::collections::VecDeque;
use std::marker::Model;

/// Pairs of connections in the order of their turns, each once. Seen as this list, and how many there
/// are at most. Beside the line stands a table of the same pairs, in which one is looked up.
#[derive(Drop)]
pub struct Line {
    items: VecDeque<Pair>,
    standing: PairTable<()>,
}

impl Model for Line {
    ghost use Rattle.stack_timers.specs.Places.{Lined};

    ghost Value = { Lined };

    ghost use Rattle.std.specs.VecDeque.{deque_capacity};
    ghost use Rattle.stack_timers.specs.Indexes.{IsKept, pair_entries};

    ghost view = { λ a. record { pairs = a.items.items; most = a.standing.most } };

    ghost invariant = { λ a. IsKept (deque_capacity a.items) a.standing (pair_entries a.items.items) };
}

/// Whether two pairs are the same.
pub fn is_same_pair(one: &Pair, other: &Pair) -> bool
    ensures { result ≡ same_pair one.now other.now }
{
    one.local == other.local && one.remote == other.remote
}

/// The place of a pair.
fn place_of(pairs: &[Pair], pair: &Pair) -> Option<usize>
    ensures found { result ≡ position_from (is_pair pair.now) 0 pairs.now }
    ensures within { IfSome result (λ i. i < length pairs.now) }
{
    for (i, one) in pairs.iter().enumerate() {
        if is_same_pair(one, pair) {
            return Some(i);
        }
    }
    None
}

impl Line {
    /// Nobody in line, and room for `most`, with all its memory.
    pub fn new(alloc: Global, most: usize) -> Result<Line, AllocError>
        ensures { IfOk result (λ a. a ≡ record { pairs = []; most = most }) }
    {
        let items = VecDeque::with_capacity(alloc, most)?;
        let standing = PairTable::new(alloc, most)?;
        Ok(Line { items, standing })
    }

    /// How many stand in line.
    pub fn len(&self) -> usize
        ensures { result ≡ length self.now.pairs }
    {
        self.items.len()
    }

    /// Takes the first out of the line.
    pub fn take_first(&mut self) -> Option<Pair>
        ensures taken { result ≡ first_of self.old.pairs }
        ensures left { self.new.pairs ≡ behind_first self.old.pairs }
        ensures most { self.new.most ≡ self.old.most }
    {
        let _count = self.standing.len();
        let pair = self.items.pop_front()?;
        let _standing = self.standing.remove(&pair);
        Some(pair)
    }

    /// The pair stands at the end of the line, unless it stands in it, while there is room.
    pub fn put(&mut self, pair: &Pair)
        ensures pairs { self.new.pairs ≡ lined self.old.most pair.now self.old.pairs }
        ensures most { self.new.most ≡ self.old.most }
    {
        if self.standing.get(pair).is_some() || self.standing.len() >= self.standing.most() {
            return;
        }
        match self.items.push_back(*pair) {
            Ok(()) => self.standing.insert(*pair, ()),
            Err(_) => unreachable!(),
        }
    }

    /// The pair doesn't stand in line any more.
    pub fn remove(&mut self, pair: &Pair)
        ensures pairs { self.new.pairs ≡ without_pair pair.now self.old.pairs }
        ensures most { self.new.most ≡ self.old.most }
    {
        let _count = self.standing.len();
        if self.standing.remove(pair).is_none() {
            return;
        }
        match place_of(self.items.make_contiguous(), pair) {
            Some(place) => {
                let _pair = self.items.remove(place);
            }
            None => {}
        }
    }
}
