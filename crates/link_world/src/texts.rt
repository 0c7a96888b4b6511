//! The report of a run, and its summary.
ghost use Rattle.std.specs.Prelude.{◌≡◌, List, IfOk};
ghost use Rattle.book_link.specs.declared.event.Event.{Event as Happening};
ghost use Rattle.book_link.specs.Steps.{image_of};
ghost use Rattle.book_link.specs.Reports.{report, summary};
ghost use Rattle.book_link.specs.Runs.{run};
ghost use Rattle.book_link.specs.Worlds.{Happening as Entry, Setup as Link, segment_named};
ghost use Rattle.link_report.specs.Logs.{StandsLog};
ghost use Rattle.link_report.specs.Outcomes.{Shows};

use crate::world::World;
use book_base::Bytes;
use link_report::{Log, Outcome, push_outcomes, push_summary};
use std::alloc::{AllocError, Global};

/// Shows the segment of this name: a copy of its bytes.
pub(crate) fn dump(log: &Log, alloc: Global, name: u32) -> Result<Outcome, AllocError>
    ensures { IfOk result (λ told. (history : List Entry) → StandsLog log.now history
        → Shows told (image_of (segment_named name history))) }
{
    match log.segment(name) {
        None => Ok(Outcome::NoSegment),
        Some(entry) => {
            let copy = Vec::from_slice(alloc, entry.bytes.as_slice())?;
            Ok(Outcome::Image(Bytes::from_vec(copy)))
        }
    }
}

impl World {
    ghost use Rattle.link_world.specs.Stands.{StandsFor};

    /// The summary: a line for each session of each end, and the counts of segments and forgeries.
    pub fn summary(&self, alloc: Global) -> Result<Bytes, AllocError>
        ensures { IfOk result (λ text. (setup : Link) (events : List Happening) → StandsFor self.now setup events
            → text ≡ summary (run setup events)) }
    {
        let mut out = Vec::new(alloc);
        let sides = &self.sides;
        push_summary(&mut out, &sides.a, &sides.b, self.made(), self.forgeries())?;
        Ok(Bytes::from_vec(out))
    }

    /// The report of the run: a line for each outcome, a line for each session of each end, and the
    /// counts of segments and forgeries.
    pub fn report(&self, alloc: Global) -> Result<Bytes, AllocError>
        ensures { IfOk result (λ text. (setup : Link) (events : List Happening) → StandsFor self.now setup events
            → text ≡ report setup events) }
    {
        let mut out = Vec::new(alloc);
        push_outcomes(&mut out, self.outcomes.as_slice())?;
        let sides = &self.sides;
        push_summary(&mut out, &sides.a, &sides.b, self.made(), self.forgeries())?;
        Ok(Bytes::from_vec(out))
    }
}
