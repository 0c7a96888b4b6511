//! A run of a link whose delivered bytes are read as messages.
ghost use Rattle.std.specs.Prelude.{◌≡◌, ℕ, suc, ◌+◌, ◌<◌, ◌≤◌, true, All, List, [], ◌∷◌, ◌++◌, IfOk, OnOk, length};
ghost use Rattle.book_lines.specs.Lines.{most_lines};
ghost use Rattle.bgp_messages.specs.Readers.{StandsFor, new_reading, greatest_place};
ghost use Rattle.book_cmd_link.specs.BgpRuns.{bgp_faults, bgp_text, taken_by};
ghost use Rattle.book_segments.specs.Sockets.{are_two_of_a_family};
ghost use Rattle.book_link.specs.declared.event.Event.{Event as One};
ghost use Rattle.book_link.specs.Runs.{run};
ghost use Rattle.book_link.specs.Worlds.{Setup as Link, forgeries, live, side};
ghost use Rattle.link_world.specs.Events.{CanHappen};
ghost use Rattle.link_world.specs.Stands.{StandsFor as WorldStands, setup_of, steps_taken};
ghost use Rattle.cmd_link.specs.Follows.{Follows, IsHeard, is_done, renewed, taken_in, turn_of};
ghost use Rattle.cmd_link.specs.Reads.{count_of};
ghost use Rattle.cmd_link.specs.Tellings.{TellsRun};

use crate::lines::Place;
use crate::pieces::read_piece;
use bgp_messages::BgpReader;
use book_base::{Bytes, End};
use book_link::{Action, Event, Events};
use both_ends::BothEnds;
use link_world::{Outcome, Setup, World};
use std::alloc::{AllocError, Global};

/// What the run of a link says of the messages of its sessions.
#[derive(Debug, Drop)]
pub struct BgpRun {
    /// A line for each message and for each fault, and the summary of the run.
    pub text: Bytes,
    /// How many arrivals passed the check although the other end hadn't made what passed.
    pub forgeries: u32,
    /// How many sessions reached a faulty header.
    pub faults: u32,
}

/// What an event may bring a reader.
#[derive(Clone, Copy)]
enum Turn {
    /// A session of the end begins, unless its initial sequence number was used before.
    Begins(End),
    /// The live session of the end is asked for bytes, where there is one.
    Takes(End),
    /// No session begins, and none is asked for bytes.
    Neither,
}

fn turn_of(event: &Event) -> Turn
    ensures { result ≡ turn_of event.now }
{
    match event {
        Event::At(end, Action::Connect(_)) => Turn::Begins(*end),
        Event::At(end, Action::Listen(_)) => Turn::Begins(*end),
        Event::At(end, Action::Start(_, _)) => Turn::Begins(*end),
        Event::At(end, Action::Take(_)) => Turn::Takes(*end),
        _ => Turn::Neither,
    }
}

/// The lines so far, and how many faults are among them.
#[derive(Drop)]
struct Said {
    text: Vec<u8>,
    faults: u32,
}

/// The bytes that a take gave; none after another outcome.
fn taken_in(outcome: &Outcome) -> &[u8]
    ensures { result.now ≡ taken_in outcome.now }
{
    match outcome {
        Outcome::Took(bytes, _) => bytes.as_slice(),
        _ => &[],
    }
}

fn is_done(outcome: &Outcome) -> bool
    ensures { result ≡ is_done outcome.now }
{
    matches!(outcome, Outcome::Done)
}

fn count_of(reached: bool) -> u32
    ensures value { result ≡ count_of reached }
    ensures small { result ≤ 1 }
{
    if reached { 1 } else { 0 }
}

/// Has the reader take what a take gave.
fn hear(
    piece: &[u8],
    place: &Place,
    reader: &mut BgpReader,
    said: &mut Said,
) -> Result<(), AllocError>
    requires few { said.old.faults < 4294967295 }
    ensures heard { OnOk result ((bytes : List ℕ) → StandsFor reader.old bytes
        → length bytes + length piece.now ≤ greatest_place
        → IsHeard place.now bytes piece.now said.old.text.items said.new.text.items reader.new said.old.faults
        said.new.faults) }
    ensures few { OnOk result (said.new.faults ≤ said.old.faults + 1) }
{
    let reached = read_piece(reader, piece, place, &mut said.text)?;
    said.faults += count_of(reached);
    Ok(())
}

/// Makes the reader new, where a session began.
fn renew(began: bool, reader: &mut BgpReader)
    ensures { reader.new ≡ renewed began reader.old }
{
    if began {
        reader.restart();
    }
}

/// How many bytes the end's live session delivered; 0 where there is none.
fn delivered(world: &World, end: End) -> u64
    ensures { (setup : Link) (events : List One) → WorldStands world.now setup events
        → result ≡ length (taken_by (live (side (run setup events) end).sessions)) }
{
    match world.live(end) {
        Some(endpoint) => endpoint.delivered(),
        None => 0,
    }
}

/// A session of the end began, or its initial sequence number was used before.
fn begin(world: &World, end: End, readers: &mut BothEnds<BgpReader>)
    requires steps { 0 < steps_taken world.now }
    ensures { (setup : Link) (events : List One) (event : One) (text : List ℕ) (faults : ℕ)
        → WorldStands world.now setup (events ++ event ∷ [])
        → turn_of event ≡ Turn.Begins end → Follows setup events readers.old text faults
        → Follows setup (events ++ event ∷ []) readers.new text faults }
{
    renew(is_done(world.outcome()), readers.at_mut(end));
}

/// The live session of the end was asked for bytes, where there is one.
fn take(
    world: &World,
    number: u32,
    end: End,
    readers: &mut BothEnds<BgpReader>,
    said: &mut Said,
) -> Result<(), AllocError>
    requires steps { 0 < steps_taken world.now }
    requires few { said.old.faults < 4294967295 }
    ensures follows { OnOk result ((setup : Link) (events : List One) (event : One)
        → WorldStands world.now setup (events ++ event ∷ [])
        → turn_of event ≡ Turn.Takes end → number ≡ suc (length events)
        → Follows setup events readers.old said.old.text.items said.old.faults
        → Follows setup (events ++ event ∷ []) readers.new said.new.text.items said.new.faults) }
    ensures few { OnOk result (said.new.faults ≤ said.old.faults + 1) }
{
    let place = Place {
        number,
        end,
        session: world.sessions(end),
    };
    // It fits into 64 bits, so that the reader's place tells all of it.
    let _delivered = delivered(world, end);
    let piece = taken_in(world.outcome());
    hear(piece, &place, readers.at_mut(end), said)
}

/// Has the readers follow the event that was stepped through last, of this number.
fn follow(
    world: &World,
    number: u32,
    event: &Event,
    readers: &mut BothEnds<BgpReader>,
    said: &mut Said,
) -> Result<(), AllocError>
    requires steps { 0 < steps_taken world.now }
    requires few { said.old.faults < 4294967295 }
    ensures follows { OnOk result ((setup : Link) (events : List One)
        → WorldStands world.now setup (events ++ event.now ∷ [])
        → number ≡ suc (length events) → Follows setup events readers.old said.old.text.items said.old.faults
        → Follows setup (events ++ event.now ∷ []) readers.new said.new.text.items said.new.faults) }
    ensures few { OnOk result (said.new.faults ≤ said.old.faults + 1) }
{
    match turn_of(event) {
        Turn::Begins(end) => {
            begin(world, end, readers);
            Ok(())
        }
        Turn::Takes(end) => take(world, number, end, readers, said),
        Turn::Neither => Ok(()),
    }
}

/// Runs the events on the link, and reads what the takes of each session gave as the messages of one
/// stream (RFC 4271, section 4): a line for each message that a take completes, one for the fault of
/// a session, with its kind and its place, and then the summary of the run. `faults` is how many of
/// the lines are of faults. Both readers are new; afterwards each stands for the bytes that its end's
/// live session delivered, and for no byte where there is none.
///
/// The two addresses differ and are of one family. There are at most 20,000 events: clocks are set to
/// LATEST at most, and rows that are added are those of a link file. An error comes only for want of
/// memory, and leaves readers that have to be restarted.
pub fn run_bgp(
    alloc: Global,
    setup: Setup,
    events: &Events,
    readers: &mut BothEnds<BgpReader>,
) -> Result<BgpRun, AllocError>
    requires family { are_two_of_a_family setup.a.address setup.b.address ≡ true }
    requires events { All CanHappen events.now }
    requires few { length events.now ≤ most_lines }
    requires a { readers.old.a ≡ new_reading }
    requires b { readers.old.b ≡ new_reading }
    ensures text { IfOk result (λ r. r.text ≡ bgp_text (setup_of setup) events.now) }
    ensures forgeries { IfOk result (λ r. r.forgeries ≡ forgeries (run (setup_of setup) events.now).history) }
    ensures faults { IfOk result (λ r. r.faults ≡ bgp_faults (run (setup_of setup) events.now)) }
    ensures told { IfOk result (λ r. TellsRun (run (setup_of setup) events.now) r.text r.faults) }
    ensures a { OnOk result (StandsFor readers.new.a (taken_by (live (run (setup_of setup) events.now).a.sessions))) }
    ensures b { OnOk result (StandsFor readers.new.b (taken_by (live (run (setup_of setup) events.now).b.sessions))) }
{
    let mut world = World::new(alloc, setup)?;
    let mut said = Said {
        text: Vec::new(alloc),
        faults: 0,
    };
    let mut number: u32 = 0;
    for event in events.as_slice() {
        world.step(alloc, event)?;
        number += 1;
        follow(&world, number, event, readers, &mut said)?;
    }
    let summary = world.summary(alloc)?;
    let Said { mut text, faults } = said;
    text.extend_from_slice(summary.as_slice())?;
    Ok(BgpRun {
        text: Bytes::from_vec(text),
        forgeries: world.forgeries(),
        faults,
    })
}
