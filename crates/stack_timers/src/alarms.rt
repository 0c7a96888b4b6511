//! The deadlines of all timers that run, the earliest first.
ghost use Rattle.std.specs.Prelude.{◌≡◌, ◌<◌, ◌≤◌, ℕ, [], Some, None, IfOk, IfSome, drop, length, slice_index_or};
ghost use Rattle.std.specs.List.{insert, position_from};
ghost use Rattle.std.specs.List.Sorted.{IsNonDecreasingBy};
ghost use Rattle.std.specs.BTreeMap.{is_at};
ghost use Rattle.std.specs.Map.{lookup};
ghost use Rattle.book_base.specs.Orders.{by_pair};
ghost use Rattle.book_stack.specs.declared.alarm.Alarm.{Alarm as OneAlarm};
ghost use Rattle.book_stack.specs.Alarms.{earliest, placed, put_alarm, with_alarm, without_alarm};
ghost use Rattle.stack_timers.specs.Indexes.{alarm_entries};
ghost use Rattle.stack_timers.specs.Places.{is_of, left_due, taken_due};

use crate::line::is_same_pair;
use book_base::Pair;
use book_stack::Alarm;
use pair_table::PairTable;
use std::alloc::{AllocError, Global};
use std::marker::Model;

/// Deadlines, each with the pair of its connection, the earliest first, and of those that are the same
/// the one that was set first. Seen as this list, and how many there are at most. Beside the list stands
/// a table that has the deadline of each pair, and so where in the list it is.
#[derive(Drop)]
pub struct Alarms {
    items: Vec<Alarm>,
    deadlines: PairTable<u64>,
}

impl Model for Alarms {
    ghost use Rattle.stack_timers.specs.Places.{Alarmed};

    ghost Value = { Alarmed };

    ghost use Rattle.std.specs.Prelude.{vec_capacity};
    ghost use Rattle.std.specs.List.Sorted.{IsNonDecreasingBy};
    ghost use Rattle.book_stack.specs.declared.alarm.Alarm.{Alarm as OneAlarm};
    ghost use Rattle.stack_timers.specs.Indexes.{IsKept, alarm_entries};

    ghost view = { λ a. record { alarms = a.items.items; most = a.deadlines.most } };

    ghost invariant = { λ a. IsKept (vec_capacity a.items) a.deadlines (alarm_entries a.items.items)
        × IsNonDecreasingBy (λ (b : OneAlarm). b.deadline) a.items.items };
}

/// The place of a new deadline: behind all that aren't later.
fn place_for(alarms: &[Alarm], deadline: u64) -> usize
    requires { IsNonDecreasingBy (λ (b : OneAlarm). b.deadline) alarms.now }
    ensures within { result ≤ length alarms.now }
    ensures placed { (a : OneAlarm) → a.deadline ≡ deadline → insert alarms.now result a ≡ placed a alarms.now }
    ensures rising { (a : OneAlarm) → a.deadline ≡ deadline
        → IsNonDecreasingBy (λ (b : OneAlarm). b.deadline) (insert alarms.now result a) }
{
    alarms.partition_point(|alarm| alarm.deadline <= deadline)
}

/// The place of the first deadline that isn't earlier.
fn first_place(alarms: &[Alarm], deadline: u64) -> usize
    requires { IsNonDecreasingBy (λ (b : OneAlarm). b.deadline) alarms.now }
    ensures within { result ≤ length alarms.now }
    ensures earlier { (k : ℕ) (d : OneAlarm) → k < result → (slice_index_or alarms.now k d).deadline < deadline }
{
    alarms.partition_point(|alarm| alarm.deadline < deadline)
}

/// The place of a pair's deadline, searched from a place on.
fn place_from(alarms: &[Alarm], from: usize, pair: &Pair) -> Option<usize>
    requires { from ≤ length alarms.now }
    ensures found { result ≡ position_from (is_of pair.now) from (drop from alarms.now) }
    ensures within { IfSome result (λ i. i < length alarms.now) }
{
    for i in from..alarms.len() {
        if is_same_pair(&alarms[i].pair, pair) {
            return Some(i);
        }
    }
    None
}

/// The place of the deadline of a pair, which is this one.
fn place_of(alarms: &[Alarm], pair: &Pair, deadline: u64) -> Option<usize>
    requires rising { IsNonDecreasingBy (λ (b : OneAlarm). b.deadline) alarms.now }
    requires deadline { lookup (is_at (by_pair pair.now)) (alarm_entries alarms.now) ≡ Some deadline }
    ensures found { result ≡ position_from (is_of pair.now) 0 alarms.now }
    ensures within { IfSome result (λ i. i < length alarms.now) }
{
    let from = first_place(alarms, deadline);
    place_from(alarms, from, pair)
}

impl Alarms {
    /// No deadline, and room for `most`, with all its memory.
    pub fn new(alloc: Global, most: usize) -> Result<Alarms, AllocError>
        ensures { IfOk result (λ a. a ≡ record { alarms = []; most = most }) }
    {
        let items = Vec::with_capacity(alloc, most)?;
        let deadlines = PairTable::new(alloc, most)?;
        Ok(Alarms { items, deadlines })
    }

    /// How many deadlines there are.
    pub fn len(&self) -> usize
        ensures { result ≡ length self.now.alarms }
    {
        self.items.len()
    }

    /// The earliest deadline.
    pub fn earliest(&self) -> Option<u64>
        ensures { result ≡ earliest self.now.alarms }
    {
        self.items.as_slice().first().map(|alarm| alarm.deadline)
    }

    /// Takes the earliest out, where its deadline is reached.
    pub fn take_due(&mut self, now: u64) -> Option<Pair>
        ensures taken { result ≡ taken_due now self.old.alarms }
        ensures left { self.new.alarms ≡ left_due now self.old.alarms }
        ensures most { self.new.most ≡ self.old.most }
    {
        if now < self.earliest()? {
            return None;
        }
        let _count = self.deadlines.len();
        let pair = self.items.remove(0).pair;
        let _deadline = self.deadlines.remove(&pair);
        Some(pair)
    }

    /// The pair's deadline is taken out, if it has one.
    fn take_out(&mut self, pair: &Pair)
        ensures alarms { self.new.alarms ≡ without_alarm pair.now self.old.alarms }
        ensures gone { lookup (is_at (by_pair pair.now)) (alarm_entries self.new.alarms) ≡ None }
        ensures most { self.new.most ≡ self.old.most }
    {
        let _count = self.deadlines.len();
        match self.deadlines.remove(pair) {
            None => {}
            Some(deadline) => match place_of(self.items.as_slice(), pair, deadline) {
                None => {}
                Some(place) => {
                    let _alarm = self.items.remove(place);
                }
            },
        }
    }

    /// The pair has no deadline any more.
    pub fn remove(&mut self, pair: &Pair)
        ensures alarms { self.new.alarms ≡ without_alarm pair.now self.old.alarms }
        ensures most { self.new.most ≡ self.old.most }
    {
        self.take_out(pair);
    }

    /// The pair, which has no deadline, gets this one, while there is room.
    fn put(&mut self, pair: &Pair, deadline: u64)
        requires { lookup (is_at (by_pair pair.now)) (alarm_entries self.old.alarms) ≡ None }
        ensures alarms { self.new.alarms
            ≡ put_alarm self.old.most (record { pair = pair.now; deadline = deadline }) self.old.alarms }
        ensures most { self.new.most ≡ self.old.most }
    {
        if self.deadlines.len() >= self.deadlines.most() {
            return;
        }
        let alarm = Alarm {
            pair: *pair,
            deadline,
        };
        let place = place_for(self.items.as_slice(), deadline);
        match self.items.insert(place, alarm) {
            Ok(()) => self.deadlines.insert(*pair, deadline),
            Err(_) => unreachable!(),
        }
    }

    /// The pair's deadline becomes this one, or none.
    pub fn set(&mut self, pair: &Pair, deadline: Option<u64>)
        ensures alarms { self.new.alarms ≡ with_alarm self.old.most pair.now deadline self.old.alarms }
        ensures most { self.new.most ≡ self.old.most }
    {
        self.take_out(pair);
        match deadline {
            Some(deadline) => self.put(pair, deadline),
            None => {}
        }
    }
}
