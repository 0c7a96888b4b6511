//! A link between two ends.
ghost use Rattle.std.specs.Prelude.{◌≡◌, ◌<◌, ◌≤◌, ◌+◌, ◌^◌, IfOk, List, OnOk, OnErr, true, [], ◌∷◌, ◌++◌, length};
ghost use Rattle.book_base.specs.declared.end.End.TheVariants.{A, B};
ghost use Rattle.book_segments.specs.Sockets.{are_two_of_a_family};
ghost use Rattle.book_link.specs.declared.event.Event.{Event as Happening};
ghost use Rattle.book_link.specs.Steps.{step};
ghost use Rattle.book_link.specs.Runs.{empty, outcomes_from, run};
ghost use Rattle.book_link.specs.Worlds.{Setup as Link};
ghost use Rattle.law_link.specs.Headline.{few_events};
ghost use Rattle.law_link.specs.Laws.{TablesFit};
ghost use Rattle.law_headline.specs.GetsThrough.{GetsThrough};
ghost use Rattle.law_headline.specs.Lawful.{Lawful};
ghost use Rattle.link_report.specs.Logs.{forgery_count, made_count};
ghost use Rattle.link_report.specs.Outcomes.{AreShown, Shows};
ghost use Rattle.link_world.specs.Events.{CanHappen};
ghost use Rattle.link_world.specs.Links.{AreOfLink};

use crate::events::happen;
use crate::ranges::{see_event, see_rows, see_sockets};
use crate::room::room_for;
use crate::setup::{Setup, take_table};
use book_base::Pair;
use book_link::Event;
use both_ends::BothEnds;
use link_report::{Log, Outcome, Side};
use std::alloc::{AllocError, Global};

/// A link between two ends: all that happened, and what each event answered.
#[derive(Drop)]
pub struct World {
    pub(crate) sides: BothEnds<Side>,
    pub(crate) log: Log,
    pub(crate) outcomes: Vec<Outcome>,
    ghost link: { ∥ AreOfLink sides log ∥₁ },
    ghost few: { length outcomes.items < 2 ^ 32 },
    ghost made: { made_count log ≤ length outcomes.items },
    ghost forged: { forgery_count log ≤ length outcomes.items },
}

impl World {
    ghost use Rattle.link_world.specs.Stands.{StandsFor, setup_of, steps_taken};

    /// A link on which nothing happened yet: both clocks are 0, there is no session and no segment. Its
    /// two addresses differ and are of one family.
    pub fn new(alloc: Global, setup: Setup) -> Result<World, AllocError>
        requires family { are_two_of_a_family setup.a.address setup.b.address ≡ true }
        ensures stands { IfOk result (λ w. StandsFor w (setup_of setup) []) }
        ensures steps { IfOk result (λ w. steps_taken w ≡ 0) }
    {
        let Setup { mut tables, a, b } = setup;
        see_sockets(&a, &b);
        let a_table = take_table(alloc, &mut tables, a.address);
        let b_table = take_table(alloc, &mut tables, b.address);
        see_rows(&a_table);
        see_rows(&b_table);
        let a_pair = Pair {
            local: a,
            remote: b,
        };
        let b_pair = Pair {
            local: b,
            remote: a,
        };
        Ok(World {
            sides: BothEnds {
                a: Side::new(alloc, a_pair, a_table),
                b: Side::new(alloc, b_pair, b_table),
            },
            log: Log::new(alloc),
            outcomes: Vec::new(alloc),
        })
    }

    /// Steps through one event, and answers its outcome. Fewer than 2^32 - 1 were stepped through
    /// before, a clock is set to LATEST at most, and a row that is added is one of a link file. Out of
    /// memory the world stands for what it stood for.
    ///
    /// The run so far is lawful, this event with it: what sessions took begins what their partners were
    /// given, and the other laws of every run, at each moment and of each event. Where the first tables
    /// have no overlap and there were few events, what is given gets through.
    pub fn step(&mut self, alloc: Global, event: &Event) -> Result<Outcome, AllocError>
        requires steps { steps_taken self.old < 4294967295 }
        requires event { CanHappen event.now }
        ensures stands { OnOk result ((setup : Link) (events : List Happening) → StandsFor self.old setup events
            → StandsFor self.new setup (events ++ event.now ∷ [])) }
        ensures shows { IfOk result (λ told. (setup : Link) (events : List Happening) → StandsFor self.old setup events
            → Shows told (step setup (run setup events) event.now).outcome) }
        ensures lawful { OnOk result ((setup : Link) (events : List Happening) → StandsFor self.old setup events
            → Lawful setup (events ++ event.now ∷ [])) }
        ensures gets_through { OnOk result ((setup : Link) (events : List Happening) → StandsFor self.old setup events
            → TablesFit setup → length (events ++ event.now ∷ []) ≤ few_events
            → GetsThrough setup (events ++ event.now ∷ [])) }
        ensures steps { OnOk result (steps_taken self.new ≡ steps_taken self.old + 1) }
        ensures same { OnErr result ((setup : Link) (events : List Happening) → StandsFor self.old setup events
            → StandsFor self.new setup events) }
        ensures unstepped { OnErr result (steps_taken self.new ≡ steps_taken self.old) }
    {
        see_event(event);
        self.outcomes.reserve(1)?;
        let room = room_for(&self.log, alloc, event)?;
        let outcome = happen(&mut self.sides, &mut self.log, alloc, event)?;
        let told = outcome.copied(room);
        let pushed: Result<_, _> = self.outcomes.push(outcome);
        pushed.unwrap();
        Ok(told)
    }

    /// The outcome of the last event. There was one.
    pub fn outcome(&self) -> &Outcome
        requires { 0 < steps_taken self.now }
        ensures { (setup : Link) (events : List Happening) (event : Happening)
            → StandsFor self.now setup (events ++ event ∷ [])
            → Shows result.now (step setup (run setup events) event).outcome }
    {
        &self.outcomes[self.outcomes.len() - 1]
    }

    /// The outcomes of all events, in order.
    pub fn outcomes(&self) -> &[Outcome]
        ensures shown { (setup : Link) (events : List Happening) → StandsFor self.now setup events
            → AreShown result.now (outcomes_from setup (empty setup) events) }
        ensures steps { length result.now ≡ steps_taken self.now }
    {
        self.outcomes.as_slice()
    }
}
