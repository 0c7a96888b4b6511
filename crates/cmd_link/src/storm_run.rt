//! The run of a storm.
ghost use Rattle.std.specs.Prelude.{◌≡◌, ◌≤◌, IfOk, []};
ghost use Rattle.book_answer.specs.Answers.{stormed};
ghost use Rattle.book_link.specs.Storm.{storm_events, storm_setup, storm_starts};
ghost use Rattle.command_report.specs.Reports.{Reports};
ghost use Rattle.link_world.specs.Stands.{StandsFor, steps_taken};

use crate::draw::{draw, drawn};
use crate::event::event_of;
use book_base::{Address, Algorithm, End, Socket};
use book_link::{Action, Event};
use command_report::{Report, Stop};
use key_table::Tables;
use link_world::{Setup, World};
use std::alloc::{AllocError, Global};

/// The initial sequence numbers of the two ends, that of end a soon before a lap.
const OF_A: u32 = 4_294_960_000;

const OF_B: u32 = 4_000_000_000;

/// The link of a storm, before anything happened.
fn link(alloc: Global) -> Result<World, AllocError>
    ensures stands { IfOk result (λ w. StandsFor w storm_setup []) }
    ensures steps { IfOk result (λ w. steps_taken w ≡ 0) }
{
    let a = Socket {
        address: Address::V4([10, 0, 0, 1]),
        port: 1000,
    };
    let b = Socket {
        address: Address::V4([10, 0, 0, 2]),
        port: 2000,
    };
    let master = [11; 20];
    let tables = Tables::shared(
        alloc,
        a.address,
        b.address,
        Algorithm::HmacSha1,
        master.as_slice(),
    )?;
    World::new(alloc, Setup { tables, a, b })
}

/// The link of a storm with both ends established.
fn started(alloc: Global) -> Result<World, AllocError>
    ensures stands { IfOk result (λ w. StandsFor w storm_setup storm_starts) }
    ensures steps { IfOk result (λ w. steps_taken w ≡ 2) }
{
    let mut world = link(alloc)?;
    world.step(alloc, &Event::At(End::A, Action::Start(OF_A, OF_B)))?;
    world.step(alloc, &Event::At(End::B, Action::Start(OF_B, OF_A)))?;
    Ok(world)
}

/// The link after so many drawn events.
fn drawn_out(alloc: Global, seed: u64, count: u32) -> Result<World, AllocError>
    requires { count ≤ 10000 }
    ensures { IfOk result (λ w. StandsFor w storm_setup (storm_events seed count)) }
{
    let mut world = started(alloc)?;
    let mut state = seed;
    for _done in 0..count {
        state = drawn(state);
        let event = event_of(&world, draw(state));
        world.step(alloc, &event)?;
    }
    Ok(world)
}

/// The answer of `storm`: the summary of the run of so many events, at most 10,000, that are drawn
/// from a seed, over a link whose two ends begin established. `Memory` only for want of memory, and
/// no other stop comes.
pub fn answer_storm(alloc: Global, seed: u64, count: u32) -> Result<Report, Stop>
    requires { count ≤ 10000 }
    ensures { Reports result (stormed (storm_events seed count)) }
{
    let world = drawn_out(alloc, seed, count)?;
    let text = world.summary(alloc)?;
    let is_amiss = world.forgeries() != 0;
    Ok(Report { text, is_amiss })
}
