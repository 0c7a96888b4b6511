//! A link and the timers of its two ends.
ghost use Rattle.std.specs.Prelude.{◌≡◌, ◌<◌, ◌≤◌, IfSome, List, Ok, OnOk, Some, length};
ghost use Rattle.book_cmd_link.specs.TimedRuns.{due_at, most_events};
ghost use Rattle.book_cmd_link.specs.TimedRuns.{end_of_event as end_at};
ghost use Rattle.book_keys.specs.Lifetimes.{greatest_time};
ghost use Rattle.book_link.specs.declared.event.Event.{Event as OneEvent};
ghost use Rattle.book_link.specs.Worlds.{Setup as Plan};
ghost use Rattle.link_world.specs.Events.{CanHappen};
ghost use Rattle.link_world.specs.Stands.{StandsFor, steps_taken};
ghost use Rattle.cmd_link.specs.Links.{Does, expires, progress, steps, untils, up_to};

use crate::change::{Change, end_of, is_begin, is_done, is_sent, transmission_of};
use crate::unfinished::Unfinished;
use crate::watch::Watch;
use book_base::End;
use book_link::{Action, Event};
use both_ends::BothEnds;
use link_world::World;
use std::alloc::{AllocError, Global};

/// The most events of a plain run.
const MOST_EVENTS: usize = 20_000;

/// A link and the timers of its two ends.
#[derive(Drop)]
pub(crate) struct Link {
    pub(crate) world: World,
    pub(crate) watches: BothEnds<Watch>,
}

impl Link {
    /// Steps through an event of this end, and its timer follows.
    fn step_at(&mut self, alloc: Global, end: End, event: &Event) -> Result<(), AllocError>
        requires end { end_at event.now ≡ Some end }
        requires event { CanHappen event.now }
        requires steps { steps_taken self.old.world < most_events }
        requires few { (setup : Plan) (past : List OneEvent) → StandsFor self.old.world setup past
            → length past < most_events }
        ensures { OnOk result (Does (steps event.now) self.old self.new (Ok tt)) }
    {
        let old = self.world.front(end);
        self.world.step(alloc, event)?;
        let outcome = self.world.outcome();
        let change = Change {
            begins: is_begin(event),
            done: is_done(outcome),
            transmission: transmission_of(event),
            sent: is_sent(outcome),
            reading: self.world.reading(end),
            old,
            new: self.world.front(end),
        };
        self.watches.at_mut(end).apply(&change);
        Ok(())
    }

    /// Steps through a plain event, unless the plain run has all its events.
    pub(crate) fn step(&mut self, alloc: Global, event: &Event) -> Result<(), Unfinished>
        requires { CanHappen event.now }
        ensures { Does (steps event.now) self.old self.new result }
    {
        if self.world.outcomes().len() >= MOST_EVENTS {
            return Err(Unfinished::TooMany);
        }
        match end_of(event) {
            None => {
                self.world.step(alloc, event)?;
                Ok(())
            }
            Some(end) => {
                self.step_at(alloc, end, event)?;
                Ok(())
            }
        }
    }

    /// The end's clock goes to this reading, unless it is there.
    pub(crate) fn until(&mut self, alloc: Global, end: End, to: u64) -> Result<(), Unfinished>
        requires { to ≤ greatest_time }
        ensures { Does (untils end to) self.old self.new result }
    {
        if self.world.reading(end) == to {
            return Ok(());
        }
        self.step(alloc, &Event::At(end, Action::Clock(to)))
    }

    /// When the end's timer expires next, where that is at this reading at the latest.
    pub(crate) fn due(&self, end: End, to: u64) -> Option<u64>
        ensures time { (setup : Plan) (past : List OneEvent) → StandsFor self.now.world setup past
            → result ≡ up_to to (due_at (progress self.now setup past) end) }
        ensures early { IfSome result (λ at. at ≤ to) }
    {
        let reading = self.world.reading(end);
        self.watches.at(end).due(reading).filter(|at| *at <= to)
    }

    /// The end's timer expires at this reading: the clock goes to it, the end sends again, and the timer
    /// runs anew with twice its value.
    pub(crate) fn expire(&mut self, alloc: Global, end: End, at: u64) -> Result<(), Unfinished>
        requires { at ≤ greatest_time }
        ensures { Does (expires end at) self.old self.new result }
    {
        self.step(alloc, &Event::At(end, Action::Clock(at)))?;
        self.step(alloc, &Event::At(end, Action::Resend))?;
        let reading = self.world.reading(end);
        self.watches.at_mut(end).expire(reading);
        Ok(())
    }
}
