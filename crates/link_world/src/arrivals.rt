//! The events by which a datagram comes to an end.
ghost use Rattle.std.specs.Prelude.{◌≡◌, ◌<◌, ◌≤◌, ◌+◌, ℕ, List, Option, length, Ok};
ghost use Rattle.std.specs.Option.{ForSome};
ghost use Rattle.book_link.specs.declared.event.Event.TheVariants.{At};
ghost use Rattle.book_link.specs.declared.event.Action.TheVariants.{Alter, Deliver};
ghost use Rattle.book_base.specs.declared.address.Pair.{Pair};
ghost use Rattle.book_segments.specs.Options.{One, find_ao};
ghost use Rattle.book_segments.specs.Segments.{Bad, Read, bit_of, reading};
ghost use Rattle.book_endpoint.specs.Verdicts.{Finding};
ghost use Rattle.tcp_segment.specs.Views.{view_ao};
ghost use Rattle.tcp_endpoint.specs.Arrivals.{TellsPassed, found_of};
ghost use Rattle.book_link.specs.Worlds.{Happening, Setup, World, forged, pair_of, side as side_of};
ghost use Rattle.link_report.specs.Sides.{StandsSide, sockets_of};
ghost use Rattle.link_report.specs.Logs.{StandsLog, forgery_count, made_count};
ghost use Rattle.link_world.specs.Changes.{Acts, by_bytes, by_event};
ghost use Rattle.link_world.specs.Links.{AreOfEnd, StandsAt};
ghost use Rattle.link_world.specs.Arrivals.{Counts, HasReceived, outcome_come};

use crate::copies::altered;
use ao_base::Steps;
use book_base::End;
use book_endpoint::Arrival;
use book_link::Fixing;
use key_table::Table;
use link_report::{Log, Outcome, Side};
use std::alloc::{AllocError, Global};
use std::marker::Brand;
use std::sync::ledger::{Blank, Ledger};
use tcp_endpoint::Passing;
use tcp_segment::{Datagram, DatagramFault, read_datagram};

/// What is altered in a copy of a segment: the byte at this place, counted from the TCP header, is
/// xored with this mask; its TCP checksum is then kept or set right.
#[derive(Clone, Copy)]
pub(crate) struct Change {
    pub(crate) place: u16,
    pub(crate) mask: u8,
    pub(crate) fixing: Fixing,
}

/// The answer to a datagram that came, and whether it is a forgery.
#[derive(Clone, Copy)]
pub(crate) struct Answered {
    pub(crate) arrival: Arrival,
    pub(crate) forged: bool,
}

/// Whether a datagram that came is a forgery: the log is asked of one that passed.
fn is_forged(
    table: &Table,
    log: &Log,
    at: End,
    name: Option<u32>,
    datagram: &Datagram<'_>,
    passed: Option<Passing<'_>>,
) -> bool
    requires low { ForSome passed (λ p. 1 ≤ p.passed.row) }
    requires high { ForSome passed (λ p. p.passed.row ≤ length table.now.rows) }
    requires option { ForSome passed (λ p. find_ao datagram.now.area ≡ One (view_ao p.option)) }
    ensures { (pair : Pair) (history : List Happening) (found : Option Finding) → StandsLog log.now history
        → TellsPassed table.now.rows pair (Read datagram.now) (found_of passed.entry) found
        → forged at found history ≡ bit_of result }
{
    match passed {
        None => false,
        Some(passing) => {
            let row = table.row(passing.passed.row);
            log.is_forged(at, name, datagram, row, &passing)
        }
    }
}

/// Bytes that are no datagram, by this fault, come to the live session of the end: they are no
/// forgery. None where there is no session.
fn unread(side: &Side, fault: DatagramFault) -> Option<Answered>
    ensures { (setup : Setup) (w : World) (at : End) (bytes : List ℕ) → reading bytes ≡ Bad fault
        → pair_of setup at ≡ sockets_of side.now → StandsSide side.now (side_of w at)
        → HasReceived w (by_bytes at bytes setup w) at side.now result }
{
    match side.come_unread(fault) {
        None => None,
        Some(arrived) => Some(Answered {
            arrival: arrived.arrival,
            forged: false,
        }),
    }
}

/// Bytes come to the live session of the end, a copy of the segment of this name if there is one; none
/// where there is no session.
fn come<L: Ledger>(
    blank: Blank,
    side: &mut Side,
    log: &Log,
    at: End,
    name: Option<u32>,
    bytes: &[u8],
) -> Option<Answered>
    requires name { blank.name ≡ L.name }
    requires parts { blank.parts ≡ L.parts }
    requires part { 0 < blank.parts }
    requires at { ∥ AreOfEnd at side.old log.now ∥₁ }
    ensures pair { sockets_of side.new ≡ sockets_of side.old }
    ensures received { (setup : Setup) (w : World) → StandsAt at side.old log.now setup w
        → HasReceived w (by_bytes at bytes.now setup w) at side.new result }
{
    let datagram = match read_datagram(bytes) {
        Ok(datagram) => datagram,
        Err(fault) => return unread(side, fault),
    };
    let mut steps = Steps::<L>::new(blank);
    match side.come(&datagram, &mut steps) {
        None => None,
        Some(arrived) => {
            let forged = is_forged(side.table(), log, at, name, &datagram, arrived.passed);
            Some(Answered {
                arrival: arrived.arrival,
                forged,
            })
        }
    }
}

/// Takes notice of what came, if there was a session, and tells the outcome.
fn count(log: &mut Log, answered: Option<Answered>) -> Outcome
    requires { forgery_count log.old < 4294967295 }
    ensures made { made_count log.new ≡ made_count log.old }
    ensures most { forgery_count log.new ≤ forgery_count log.old + 1 }
    ensures stands { (history after : List Happening) → StandsLog log.old history → Counts answered history after
        → StandsLog log.new after }
    ensures outcome { result ≡ outcome_come answered }
{
    match answered {
        None => Outcome::NoSession,
        Some(came) => {
            log.count(came.forged);
            Outcome::Arrival(came.arrival)
        }
    }
}

/// A datagram comes to the end, a copy of the segment of this name if there is one.
pub(crate) fn inject(
    side: &mut Side,
    log: &mut Log,
    at: End,
    name: Option<u32>,
    bytes: &[u8],
) -> Outcome
    requires at { ∥ AreOfEnd at side.old log.old ∥₁ }
    requires forged { forgery_count log.old < 4294967295 }
    ensures { Acts at side.old side.new log.old log.new (by_bytes at bytes.now) (Ok result) }
{
    let answered = come::<Brand>(Blank::new(1), side, log, at, name, bytes);
    count(log, answered)
}

/// The segment of this name comes to the end as it was made; its bytes are lent by the log.
pub(crate) fn deliver(side: &mut Side, log: &mut Log, at: End, name: u32) -> Outcome
    requires at { ∥ AreOfEnd at side.old log.old ∥₁ }
    requires forged { forgery_count log.old < 4294967295 }
    ensures { Acts at side.old side.new log.old log.new (by_event (At at (Deliver name))) (Ok result) }
{
    match log.segment(name) {
        None => Outcome::NoSegment,
        Some(entry) => {
            let bytes = entry.bytes.as_slice();
            let answered = come::<Brand>(Blank::new(1), side, log, at, Some(name), bytes);
            count(log, answered)
        }
    }
}

/// An altered copy of the segment of this name comes to the end.
pub(crate) fn alter(
    side: &mut Side,
    log: &mut Log,
    alloc: Global,
    at: End,
    name: u32,
    change: Change,
) -> Result<Outcome, AllocError>
    requires at { ∥ AreOfEnd at side.old log.old ∥₁ }
    requires forged { forgery_count log.old < 4294967295 }
    ensures { Acts at side.old side.new log.old log.new (by_event
        (At at (Alter name change.place change.mask change.fixing))) result }
{
    match log.segment(name) {
        None => Ok(Outcome::NoSegment),
        Some(entry) => {
            let bytes = entry.bytes.as_slice();
            let copy = altered(alloc, bytes, change.place, change.mask, change.fixing)?;
            match copy {
                None => Ok(Outcome::NoPlace),
                Some(copy) => Ok(inject(side, log, at, Some(name), copy.as_slice())),
            }
        }
    }
}
