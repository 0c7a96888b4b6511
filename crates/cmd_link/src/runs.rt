//! The run of a link with timers.
ghost use Rattle.std.specs.Prelude.{◌≡◌, All, IfOk, true};
ghost use Rattle.book_segments.specs.Sockets.{are_two_of_a_family};
ghost use Rattle.link_world.specs.Stands.{setup_of};
ghost use Rattle.cmd_link.specs.Events.{CanPass};
ghost use Rattle.cmd_link.specs.Reports.{Reports};

use crate::timed_link::Link;
use crate::unfinished::Unfinished;
use crate::watch::Watch;
use book_base::Bytes;
use book_cmd_link::TimedEvents;
use both_ends::BothEnds;
use link_world::{Setup, World};
use stack_timers::Rto;
use std::alloc::{AllocError, Global};

/// What the run of a link with timers answers.
#[derive(Debug, Drop)]
pub enum TimedRun {
    /// The report of its plain run, and how many forgeries that counts.
    Report(Bytes, u32),
    /// The plain run would have more than 20,000 events.
    TooMany,
}

/// Runs the events of a link whose ends have retransmission timers (RFC 6298): the report is that of
/// the plain run that the events are, with `clock` and `resend` for each wait. `TooMany` exactly where
/// that has more than 20,000 events. After a report `timers` are those of the two ends, as the run
/// leaves them; else no more is said of them.
///
/// The addresses of the two ends differ and are of one family, a clock is set to LATEST at most, and
/// a row that is added is one of a link file.
pub fn run_timed(
    alloc: Global,
    setup: Setup,
    events: &TimedEvents,
    timers: &mut BothEnds<Rto>,
) -> Result<TimedRun, AllocError>
    requires family { are_two_of_a_family setup.a.address setup.b.address ≡ true }
    requires events { All CanPass events.now }
    ensures { IfOk result (λ run. Reports (setup_of setup) events.now timers.new run) }
{
    let mut link = Link {
        world: World::new(alloc, setup)?,
        watches: BothEnds {
            a: Watch::new(),
            b: Watch::new(),
        },
    };
    match link.happen_all(alloc, events.as_slice()) {
        Ok(()) => {}
        Err(Unfinished::TooMany) => return Ok(TimedRun::TooMany),
        Err(Unfinished::Memory(error)) => return Err(error),
    }
    let Link {
        world,
        watches: BothEnds { a, b },
    } = link;
    let report = world.report(alloc)?;
    *timers = BothEnds {
        a: a.timer,
        b: b.timer,
    };
    Ok(TimedRun::Report(report, world.forgeries()))
}
