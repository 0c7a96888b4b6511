//! Looking at a link.
ghost use Rattle.std.specs.Prelude.{◌≡◌, ◌≤◌, List, length, None, Some, MatchOption, option_map};
ghost use Rattle.book_keys.specs.Lifetimes.{greatest_time};
ghost use Rattle.book_link.specs.declared.event.Event.{Event as Happening};
ghost use Rattle.book_link.specs.Runs.{run};
ghost use Rattle.book_link.specs.SendFronts.{front_at};
ghost use Rattle.book_link.specs.Worlds.{Session, Setup as Link, forgeries, live, segment_named, segments, side};
ghost use Rattle.link_report.specs.Logs.{MadeBy};
ghost use Rattle.link_report.specs.Sides.{StandsSide};
ghost use Rattle.tcp_endpoint.specs.Ends.{Stands};
ghost use Rattle.link_world.specs.Fronts.{front_of};

use crate::front::Front;
use crate::world::World;
use book_base::End;
use link_report::Side;
use tcp_endpoint::{Endpoint, Phase};

impl World {
    ghost use Rattle.link_world.specs.Stands.{StandsFor, segments_made};

    /// One of the two ends.
    pub(crate) fn side(&self, end: End) -> &Side
        ensures { (setup : Link) (events : List Happening) → StandsFor self.now setup events
            → StandsSide result.now (side (run setup events) end) }
    {
        self.sides.at(end)
    }

    /// The end's clock, in seconds since 1970, at most LATEST.
    pub fn reading(&self, end: End) -> u64
        ensures latest { result ≤ greatest_time }
        ensures reads { (setup : Link) (events : List Happening) → StandsFor self.now setup events
            → result ≡ (side (run setup events) end).clock }
    {
        self.side(end).clock()
    }

    /// The endpoint of the end's live session; none exactly where the end has no session.
    pub fn live(&self, end: End) -> Option<&Endpoint>
        ensures { (setup : Link) (events : List Happening) → StandsFor self.now setup events
            → MatchOption result (live (side (run setup events) end).sessions ≡ None)
            (λ e. (s : Session) × (live (side (run setup events) end).sessions ≡ Some s) × Stands e.now s.state) }
    {
        match self.side(end).live() {
            Some(live) => Some(live.endpoint()),
            None => None,
        }
    }

    /// How many sessions the end has had, with the live one.
    pub fn sessions(&self, end: End) -> usize
        ensures { (setup : Link) (events : List Happening) → StandsFor self.now setup events
            → result ≡ length (side (run setup events) end).sessions }
    {
        let side = self.side(end);
        match side.live() {
            Some(_) => side.dropped().len() + 1,
            None => 0,
        }
    }

    /// How far the end's live session has sent; none exactly where the end has no session, or its phase
    /// is Closed.
    pub fn front(&self, end: End) -> Option<Front>
        ensures { (setup : Link) (events : List Happening) → StandsFor self.now setup events
            → option_map front_of result ≡ front_at (run setup events) end }
    {
        match self.live(end) {
            None => None,
            Some(endpoint) => match endpoint.phase() {
                Phase::Closed => None,
                _ => Some(Front {
                    una: endpoint.una(),
                    next: endpoint.next(),
                }),
            },
        }
    }

    /// How many segments were made. Each has the next name from 1.
    pub fn made(&self) -> u32
        ensures count { result ≡ segments_made self.now }
        ensures segments { (setup : Link) (events : List Happening) → StandsFor self.now setup events
            → result ≡ segments (run setup events).history }
    {
        self.log.made()
    }

    /// The end that made the segment of this name, which is from 1 to `made`.
    pub fn maker(&self, name: u32) -> End
        requires low { 1 ≤ name }
        requires high { name ≤ segments_made self.now }
        ensures { (setup : Link) (events : List Happening) → StandsFor self.now setup events
            → MadeBy result (segment_named name (run setup events).history) }
    {
        self.log.maker(name)
    }

    /// How many arrivals passed the check although the other end hadn't made what passed.
    pub fn forgeries(&self) -> u32
        ensures { (setup : Link) (events : List Happening) → StandsFor self.now setup events
            → result ≡ forgeries (run setup events).history }
    {
        self.log.forgeries()
    }
}
