//! An event of a link, and an action at its end.
ghost use Rattle.std.specs.Prelude.{◌≡◌, ◌<◌, IsTrue, Ok, Err};
ghost use Rattle.book_link.specs.declared.event.Event.TheVariants.{At};
ghost use Rattle.book_link.specs.Steps.{step};
ghost use Rattle.link_report.specs.Logs.{forgery_count, made_count};
ghost use Rattle.link_world.specs.Events.{CanHappen};
ghost use Rattle.link_world.specs.Changes.{Acts, Happens, by_event};
ghost use Rattle.link_world.specs.Links.{AreOfEnd, AreOfLink};

use crate::acts::told;
use crate::arrivals::{Change, alter, deliver, inject};
use crate::send::send;
use crate::texts::dump;
use book_base::End;
use book_link::{Action, Event, Transmission};
use both_ends::BothEnds;
use link_report::{Log, Outcome, Side};
use std::alloc::{AllocError, Global};

/// An action at its end, with the log of the link.
fn act(
    side: &mut Side,
    log: &mut Log,
    alloc: Global,
    end: End,
    action: &Action,
) -> Result<Outcome, AllocError>
    requires at { ∥ AreOfEnd end side.old log.old ∥₁ }
    requires made { made_count log.old < 4294967295 }
    requires forged { forgery_count log.old < 4294967295 }
    requires event { CanHappen (At end action.now) }
    ensures { Acts end side.old side.new log.old log.new (by_event (At end action.now)) result }
{
    match action {
        Action::Clock(seconds) => Ok(told(side.set_clock(*seconds))),
        Action::Connect(isn) => Ok(told(side.connect(alloc, *isn)?)),
        Action::Listen(isn) => Ok(told(side.listen(alloc, *isn)?)),
        Action::Start(isn, peer_isn) => Ok(told(side.start(alloc, *isn, *peer_isn)?)),
        Action::Give(piece) => Ok(told(side.give(piece))),
        Action::Fill(count, byte) => Ok(told(side.fill(alloc, *count, *byte)?)),
        Action::Send => send(side, log, alloc, end, Transmission::New),
        Action::Resend => send(side, log, alloc, end, Transmission::Again),
        Action::Deliver(name) => Ok(deliver(side, log, end, *name)),
        Action::Inject(bytes) => Ok(inject(side, log, end, None, bytes.as_slice())),
        Action::Alter(name, place, mask, fixing) => {
            let change = Change {
                place: *place,
                mask: *mask,
                fixing: *fixing,
            };
            alter(side, log, alloc, end, *name, change)
        }
        Action::Take(count) => Ok(told(side.take(alloc, *count)?)),
        Action::Close => Ok(told(side.close())),
        Action::Abort => Ok(told(side.abort())),
        Action::AddRow(row) => Ok(told(side.add_row(alloc, row)?)),
        Action::Withdraw(number) => Ok(told(side.withdraw(*number))),
    }
}

/// An event of a link: an action at its end, or a look at the log.
pub(crate) fn happen(
    sides: &mut BothEnds<Side>,
    log: &mut Log,
    alloc: Global,
    event: &Event,
) -> Result<Outcome, AllocError>
    requires link { ∥ AreOfLink sides.old log.old ∥₁ }
    requires made { made_count log.old < 4294967295 }
    requires forged { forgery_count log.old < 4294967295 }
    requires event { CanHappen event.now }
    ensures { Happens sides.old sides.new log.old log.new (by_event event.now) result }
{
    match event {
        Event::At(end, action) => act(sides.at_mut(*end), log, alloc, *end, action),
        Event::Dump(name) => dump(log, alloc, *name),
    }
}
