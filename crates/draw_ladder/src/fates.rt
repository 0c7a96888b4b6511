//! What was seen of rungs: which segments came, and which came last.
ghost use Rattle.std.specs.Prelude.{◌≡◌, ◌∷◌, ◌||◌, ◌==◌, ◌<◌, ◌+◌, max, Some, ℕ, List, [], OnOk, IfOk, false, drop};
ghost use Rattle.std.specs.Prelude.{get_or, length};
ghost use Rattle.book_base.specs.declared.end.End.{End as OneEnd};
ghost use Rattle.book_draw.specs.declared.rung.Rung.{Rung as Step};
ghost use Rattle.both_ends.specs.Values.{at};
ghost use Rattle.book_draw.specs.Fates.{delivery_of, delivery_to, has_come, newest_at, number_come};

use book_base::End;
use book_draw::{Brought, Delivery, Rung};
use both_ends::BothEnds;
use std::alloc::{AllocError, Global};

/// What was seen of rungs.
#[derive(Drop)]
pub struct Seen {
    /// At each number, whether the segment of this number came.
    pub(crate) marks: Vec<bool>,
    /// The greatest number of the segments that came to an end; 0 where none did.
    pub(crate) newest: BothEnds<u32>,
    /// The last rung.
    pub(crate) last: Option<Rung>,
}

/// Grows the marks until there is one at the number.
fn make_room(marks: &mut Vec<bool>, number: u32) -> Result<(), AllocError>
    ensures same { OnOk result ((n : ℕ) → get_or marks.new.items n false ≡ get_or marks.old.items n false) }
    ensures long { OnOk result (number < length marks.new.items) }
{
    let missing = (number as usize + 1).saturating_sub(marks.len());
    for _more in 0..missing {
        marks.push(false)?;
    }
    Ok(())
}

/// Sets the mark at the number.
fn mark(marks: &mut Vec<bool>, number: u32) -> Result<(), AllocError>
    ensures { OnOk result ((n : ℕ) → get_or marks.new.items n false
        ≡ ((n == number) || get_or marks.old.items n false)) }
{
    make_room(marks, number)?;
    marks[number as usize] = true;
    Ok(())
}

/// The delivery of a segment, if it is one.
fn delivery_to(end: End, what: Brought) -> Option<Delivery>
    ensures { result ≡ delivery_to end what }
{
    match what {
        Brought::Segment(name) => Some(Delivery { at: end, name }),
        Brought::Altered(_) => None,
        Brought::Injected => None,
    }
}

/// The delivery of a segment in the rung, if there is one.
pub(crate) fn delivery_of(rung: Rung) -> Option<Delivery>
    ensures { result ≡ delivery_of rung }
{
    match rung {
        Rung::Clock(_, _) => None,
        Rung::Made(_, _, _) => None,
        Rung::Came(end, what, _) => delivery_to(end, what),
        Rung::Call(_, _, _) => None,
        Rung::Turned(_, _) => None,
    }
}

/// The rung at a place, in front of those behind it.
fn rung_at(rungs: &[Rung], place: usize) -> Rung
    requires { place < length rungs.now }
    ensures { drop place rungs.now ≡ result ∷ drop (place + 1) rungs.now }
{
    rungs[place]
}

impl Seen {
    ghost use Rattle.draw_ladder.specs.Sights.{Saw};

    /// Before anything was seen.
    pub fn new(alloc: Global) -> Seen
        ensures { Saw result [] }
    {
        Seen {
            marks: Vec::new(alloc),
            newest: BothEnds { a: 0, b: 0 },
            last: None,
        }
    }

    /// Whether the segment of this number came.
    pub fn has_come(&self, name: u32) -> bool
        ensures { (rs : List Step) → Saw self.now rs → result ≡ has_come name rs }
    {
        self.marks.get(name as usize).is_some_and(|mark| *mark)
    }

    /// The greatest number of the segments that came to the end, 0 where none did.
    pub(crate) fn newest(&self, end: End) -> u32
        ensures { (rs : List Step) → Saw self.now rs → result ≡ newest_at end rs }
    {
        *self.newest.at(end)
    }

    /// Takes the number of the segment for the greatest of its end, where it is greater.
    fn raise(&mut self, delivery: Delivery)
        ensures newest { (end : OneEnd) → at end self.new.newest
            ≡ max (number_come end (Some delivery)) (at end self.old.newest) }
        ensures marks { self.new.marks ≡ self.old.marks }
    {
        let newest = self.newest.at_mut(delivery.at);
        *newest = delivery.name.max(*newest);
    }

    /// Sees one rung more, before those that were seen. An error only for want of memory.
    pub fn see(&mut self, rung: Rung) -> Result<(), AllocError>
        ensures { OnOk result ((rs : List Step) → Saw self.old rs → Saw self.new (rung ∷ rs)) }
    {
        if let Some(delivery) = delivery_of(rung) {
            mark(&mut self.marks, delivery.name)?;
            self.raise(delivery);
        }
        self.last = Some(rung);
        Ok(())
    }

    /// What is seen of all rungs. An error only for want of memory.
    pub fn of(alloc: Global, rungs: &[Rung]) -> Result<Seen, AllocError>
        ensures { IfOk result (λ s. Saw s rungs.now) }
    {
        let mut seen = Seen::new(alloc);
        for done in 0..rungs.len() {
            seen.see(rung_at(rungs, rungs.len() - 1 - done))?;
        }
        Ok(seen)
    }
}
