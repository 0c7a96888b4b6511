//! The events of a link with timers, each as the plain events that it is.
ghost use Rattle.std.specs.Prelude.{◌≤◌, All};
ghost use Rattle.book_keys.specs.Lifetimes.{greatest_time};
ghost use Rattle.book_cmd_link.specs.declared.timed.TimedEvent.TheVariants.{Wait};
ghost use Rattle.cmd_link.specs.Events.{CanPass};
ghost use Rattle.cmd_link.specs.Links.{Does, expands, happens, waits};

use crate::timed_link::Link;
use crate::unfinished::Unfinished;
use book_base::End;
use book_cmd_link::TimedEvent;
use book_keys::LATEST;
use std::alloc::Global;

impl Link {
    /// The end waits up to this reading: its timer expires, at most so many times, while that comes
    /// before it.
    fn wait_until(&mut self, alloc: Global, end: End, to: u64, most: u32) -> Result<(), Unfinished>
        requires { to ≤ greatest_time }
        ensures { Does (waits most end to) self.old self.new result }
    {
        for _turn in 0..most {
            match self.due(end, to) {
                None => return self.until(alloc, end, to),
                Some(at) => self.expire(alloc, end, at)?,
            }
        }
        self.until(alloc, end, to)
    }

    /// So many seconds pass at the end, up to LATEST.
    fn wait(&mut self, alloc: Global, end: End, count: u16) -> Result<(), Unfinished>
        ensures { Does (happens (Wait end count)) self.old self.new result }
    {
        let to = (self.world.reading(end) + u64::from(count)).min(LATEST);
        self.wait_until(alloc, end, to, u32::from(count) + 1)
    }

    fn happen(&mut self, alloc: Global, event: &TimedEvent) -> Result<(), Unfinished>
        requires { CanPass event.now }
        ensures { Does (happens event.now) self.old self.new result }
    {
        match event {
            TimedEvent::Plain(event) => self.step(alloc, event),
            TimedEvent::Wait(end, count) => self.wait(alloc, *end, *count),
        }
    }

    /// All events happen, in order, unless the plain events are too many or memory runs out.
    pub(crate) fn happen_all(
        &mut self,
        alloc: Global,
        events: &[TimedEvent],
    ) -> Result<(), Unfinished>
        requires { All CanPass events.now }
        ensures { Does (expands events.now) self.old self.new result }
    {
        for event in events {
            self.happen(alloc, event)?;
        }
        Ok(())
    }
}
