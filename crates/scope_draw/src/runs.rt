//! The rungs of a run.
ghost use Rattle.std.specs.Prelude.{◌≡◌, ◌<◌, ◌≤◌, ◌+◌, ◌++◌, ◌∷◌, [], IfOk, OnOk, List, length, true};
ghost use Rattle.std.specs.List.{All};
ghost use Rattle.book_lines.specs.Lines.{most_lines};
ghost use Rattle.book_segments.specs.Sockets.{are_two_of_a_family};
ghost use Rattle.book_draw.specs.Rungs.{ahead, phase_at, rungs, rungs_at};
ghost use Rattle.book_link.specs.declared.event.Event.{Event as Happening};
ghost use Rattle.book_link.specs.Runs.{run};
ghost use Rattle.book_link.specs.Worlds.{Setup as Link};
ghost use Rattle.link_world.specs.Events.{CanHappen};
ghost use Rattle.link_world.specs.Stands.{StandsFor, setup_of, steps_taken};

use crate::outcomes::{rung_of, turned};
use book_base::End;
use book_draw::Rung;
use book_endpoint::Phase;
use book_link::Event;
use link_world::{Setup, World};
use std::alloc::{AllocError, Global};

/// The phase of the end's live session; none exactly where it has none.
fn phase_at(world: &World, end: End) -> Option<Phase>
    ensures { (setup : Link) (events : List Happening) → StandsFor world.now setup events
        → result ≡ phase_at (run setup events) end }
{
    match world.live(end) {
        Some(endpoint) => Some(endpoint.phase()),
        None => None,
    }
}

/// Puts the rung behind the others, if there is one.
fn push_rung(rungs: &mut Vec<Rung>, rung: Option<Rung>) -> Result<(), AllocError>
    ensures { OnOk result (rungs.new.items ≡ rungs.old.items ++ ahead rung []) }
{
    if let Some(rung) = rung {
        rungs.push(rung)?;
    }
    Ok(())
}

/// Steps through one event, and puts its rungs behind the others.
fn step(
    alloc: Global,
    world: &mut World,
    rungs: &mut Vec<Rung>,
    event: &Event,
) -> Result<(), AllocError>
    requires steps { steps_taken world.old < 4294967295 }
    requires event { CanHappen event.now }
    ensures stands { OnOk result ((setup : Link) (events : List Happening) → StandsFor world.old setup events
        → StandsFor world.new setup (events ++ event.now ∷ [])) }
    ensures rungs { OnOk result ((setup : Link) (events : List Happening) → StandsFor world.old setup events
        → rungs.new.items ≡ rungs.old.items ++ rungs_at setup (run setup events) event.now) }
    ensures steps { OnOk result (steps_taken world.new ≡ steps_taken world.old + 1) }
{
    let a_before = phase_at(world, End::A);
    let b_before = phase_at(world, End::B);
    let outcome = world.step(alloc, event)?;
    let a_after = phase_at(world, End::A);
    let b_after = phase_at(world, End::B);
    push_rung(rungs, rung_of(event, &outcome))?;
    push_rung(rungs, turned(End::A, a_before, a_after))?;
    push_rung(rungs, turned(End::B, b_before, b_after))?;
    Ok(())
}

/// The rungs of the run of these events, at most 20,000: clocks are set to LATEST at most, and rows that
/// are added are those of a link file. An error only for want of memory.
pub fn rungs_of(alloc: Global, setup: Setup, events: &[Event]) -> Result<Vec<Rung>, AllocError>
    requires family { are_two_of_a_family setup.a.address setup.b.address ≡ true }
    requires events { All CanHappen events.now }
    requires few { length events.now ≤ most_lines }
    ensures { IfOk result (λ r. r.items ≡ rungs (setup_of setup) events.now) }
{
    let mut world = World::new(alloc, setup)?;
    let mut rungs = Vec::new(alloc);
    for event in events {
        step(alloc, &mut world, &mut rungs, event)?;
    }
    Ok(rungs)
}
