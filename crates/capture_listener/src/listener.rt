//! A listener: what is heard of a capture whose beginning may not have been seen.
ghost use Rattle.std.specs.Prelude.{◌≡◌, [], IfOk, OnErr, OnOk};
ghost use Rattle.book_segments.specs.Segments.{Read};
ghost use Rattle.book_cmd_check.specs.Handshakes.{and_given, has_room};
ghost use Rattle.book_sessions.specs.Listening.{Listening, listen, listening_behind};
ghost use Rattle.capture_listener.specs.Listeners.{Knows, KnowsStill, Listens};

use crate::anew::is_opened_anew;
use crate::glimpses::{glimpse, note_opening};
use crate::laps::hear_over;
use crate::lines::{is_unknown, told_anew};
use crate::openings::Openings;
use crate::outcomes::{HeardSegment, by_line, by_seen_line};
use crate::passes::seen_pass;
use ao_base::Steps;
use book_cmd_check::GivenIsns;
use capture_check::Connections;
use key_table::Tables;
use std::alloc::{AllocError, Global};
use std::marker::Model;
use std::sync::ledger::Ledger;
use tcp_segment::Datagram;

/// A listener: the tables of all nodes, over how many laps of the sequence space it searches, what it
/// knows of the connections whose handshakes passed and of those that are taken to have begun by initial
/// sequence numbers that were seen, at most 65,536 of either, and the SYNs that were seen.
#[derive(Drop)]
pub struct Listener {
    tables: Tables,
    laps: u32,
    held: Connections,
    guesses: Connections,
    openings: Openings,
}

impl Model for Listener {
    ghost use Rattle.capture_check.specs.Checkers.{IsSound};
    ghost use Rattle.capture_listener.specs.Listeners.{Hearing};

    ghost Value = { Hearing };

    ghost view = { λ l. record {
      judging = record { tables = l.tables; laps = l.laps };
      held = l.held;
      guessed = l.guesses;
      openings = l.openings.isns.entries;
    } };

    ghost invariant = { λ l. IsSound l.tables l.held × IsSound l.tables l.guesses };
}

impl Listener {
    /// A listener that knows nothing. It judges by these tables, and searches so many laps.
    pub fn new(alloc: Global, tables: Tables, laps: u32) -> Listener
        ensures judging { result.judging ≡ record { tables = tables; laps = laps } }
        ensures knows { Knows result (listening_behind []) }
    {
        Listener {
            tables,
            laps,
            held: Connections::new(alloc),
            guesses: Connections::new(alloc),
            openings: Openings::new(alloc),
        }
    }

    /// A listener behind handshakes with the given initial sequence numbers.
    pub fn behind(
        alloc: Global,
        tables: Tables,
        laps: u32,
        isns: &[GivenIsns],
    ) -> Result<Listener, AllocError>
        ensures judging { IfOk result (λ l. l.judging ≡ record { tables = tables; laps = laps }) }
        ensures knows { IfOk result (λ l. Knows l (listening_behind isns.now)) }
    {
        let mut listener = Listener::new(alloc, tables, laps);
        for given in isns {
            let _has_room = listener.hold(alloc, *given)?;
        }
        Ok(listener)
    }

    /// The tables of all nodes.
    pub fn tables(&self) -> &Tables
        ensures { result.now ≡ self.now.judging.tables }
    {
        &self.tables
    }

    /// Takes it that a handshake with these initial sequence numbers passed: the connections held are
    /// those of the definition, whatever was known. False exactly where there is no room: the connection
    /// isn't held and 65,536 others are; then, and after want of memory, the listener is as it was.
    pub fn hold(&mut self, alloc: Global, given: GivenIsns) -> Result<bool, AllocError>
        ensures knows { (k : Listening) → Knows self.old k → OnOk result
            (Knows self.new (record { held = and_given given k.held; guessed = k.guessed; openings = k.openings })) }
        ensures room { (k : Listening) → Knows self.old k → IfOk result (λ room. room ≡ has_room given k.held) }
        ensures judging { self.new.judging ≡ self.old.judging }
        ensures unchanged { OnErr result (self.new ≡ self.old) }
    {
        self.held.hold(alloc, &self.tables, given)
    }

    /// What comes of a datagram that was stored at a time, in seconds since 1970, and what the check found of it
    /// where it is verified: the answer, and what
    /// the listener knows afterwards, are those of the definition, whatever was known. After want of
    /// memory it knows what was known, but perhaps the connection too that the datagram shows to have
    /// begun, or the SYN that it is.
    pub fn hear<L: Ledger>(
        &mut self,
        alloc: Global,
        time: u64,
        datagram: &Datagram<'_>,
        steps: &mut Steps<L>,
    ) -> Result<HeardSegment, AllocError>
        ensures heard { (k : Listening) → Knows self.old k → IfOk result
            (λ told. Listens self.new told datagram.now (listen self.old.judging k time (Read datagram.now))) }
        ensures still { (k : Listening) → Knows self.old k → OnErr result
            (KnowsStill self.new self.old.judging k time datagram.now) }
        ensures judging { self.new.judging ≡ self.old.judging }
    {
        let anew = is_opened_anew(&self.held, &self.openings, datagram);
        let line = hear_over(
            &mut self.held,
            alloc,
            &self.tables,
            self.laps,
            time,
            datagram,
            steps,
        )?;
        let told = told_anew(anew, line);
        glimpse(
            &mut self.guesses,
            alloc,
            &self.tables,
            &self.openings,
            datagram,
            &told,
        )?;
        note_opening(&mut self.openings, datagram, &line)?;
        if !is_unknown(&told) {
            return Ok(HeardSegment {
                outcome: by_line(&line),
                pass: seen_pass(&self.held, datagram, &line),
            });
        }
        let further = hear_over(
            &mut self.guesses,
            alloc,
            &self.tables,
            self.laps,
            time,
            datagram,
            steps,
        )?;
        Ok(HeardSegment {
            outcome: by_seen_line(&further),
            pass: None,
        })
    }
}
