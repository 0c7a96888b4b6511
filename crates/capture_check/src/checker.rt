//! A checker of stored segments.
ghost use Rattle.std.specs.Prelude.{◌≡◌, ◌≤◌, ◌+◌, ◌^◌, [], false, true, List, IfOk, IfSome, OnErr, OnOk, None};
ghost use Rattle.book_segments.specs.Segments.{Segment, Read, reading, has, SYN};
ghost use Rattle.book_segments.specs.Sockets.{same_socket};
ghost use Rattle.book_cmd_check.specs.Captures.{Connection, hear, hear_read};
ghost use Rattle.book_cmd_check.specs.Handshakes.{and_given, given_after, has_room};
ghost use Rattle.capture_check.specs.Checkers.{IsSound, StandsFor, Hears, KeepsKeys, Derives};
ghost use Rattle.capture_check.specs.Answers.{is_computed};
ghost use Rattle.capture_check.specs.Expecting.{hear_as, known_numbers};
ghost use Rattle.capture_check.specs.Flows.{rows_of};

use crate::answer::CheckLine;
use crate::connections::Connections;
use crate::known::KnownConnection;
use ao_base::Steps;
use book_base::Socket;
use book_cmd_check::GivenIsns;
use key_table::Tables;
use std::alloc::{AllocError, Global};
use std::marker::Model;
use std::sync::ledger::Ledger;
use tcp_segment::{Datagram, read_datagram};

/// A checker of stored segments: the tables of all nodes, and what it knows of each connection, at
/// most 65,536 of them. Seen as the tables and what is known by the two sockets of a connection.
#[derive(Drop)]
pub struct Checker {
    tables: Tables,
    connections: Connections,
}

impl Model for Checker {
    ghost use Rattle.capture_check.specs.Checkers.{Checking, IsSound};

    ghost Value = { Checking };

    ghost view = { λ c. record { tables = c.tables; entries = c.connections } };

    ghost invariant = { λ c. IsSound c.tables c.connections };
}

impl Checker {
    /// A checker that knows no connection.
    pub fn new(alloc: Global, tables: Tables) -> Result<Checker, AllocError>
        ensures new { IfOk result (λ c. c ≡ record { tables = tables; entries = [] }) }
        ensures stands { IfOk result (λ c. StandsFor c.entries []) }
    {
        Ok(Checker {
            tables,
            connections: Connections::new(alloc),
        })
    }

    /// A checker behind handshakes with the given initial sequence numbers.
    pub fn behind(alloc: Global, tables: Tables, isns: &[GivenIsns]) -> Result<Checker, AllocError>
        ensures tables { IfOk result (λ c. c.tables ≡ tables) }
        ensures stands { IfOk result (λ c. StandsFor c.entries (given_after [] isns.now)) }
    {
        let mut checker = Checker::new(alloc, tables)?;
        for given in isns {
            let _has_room = checker.hold(alloc, *given)?;
        }
        Ok(checker)
    }

    /// The tables of all nodes.
    pub fn tables(&self) -> &Tables
        ensures { result.now ≡ self.now.tables }
    {
        &self.tables
    }

    /// Takes it that a handshake with these initial sequence numbers passed: the connections that the
    /// checker knows afterwards are those of the definition, whatever connections it knew. False exactly
    /// where there is no room: the connection isn't known and 65,536 others are; then, and after want of
    /// memory, the checker is as it was. Kept keys are dropped exactly where the initial sequence numbers
    /// of their connection are fixed anew.
    pub fn hold(&mut self, alloc: Global, given: GivenIsns) -> Result<bool, AllocError>
        ensures stands { (held : List Connection) → StandsFor self.old.entries held
            → OnOk result (StandsFor self.new.entries (and_given given held)) }
        ensures room { (held : List Connection) → StandsFor self.old.entries held
            → IfOk result (λ room. room ≡ has_room given held) }
        ensures tables { self.new.tables ≡ self.old.tables }
        ensures unchanged { OnErr result (self.new ≡ self.old) }
        ensures keys { KeepsKeys self.old.entries self.new.entries }
    {
        self.connections.hold(alloc, &self.tables, given)
    }

    /// What is said of the bytes that were stored at a time, in seconds since 1970: the answer, and
    /// the connections that the checker knows afterwards, are those of the definition, whatever
    /// connections it knew. After want of memory it is as it was.
    ///
    /// At most one step is counted: none where the segment is refused before its MAC is judged, and none
    /// for a segment without SYN where a key is kept for its connection, direction and row; a key that
    /// is derived for such a segment is kept. Kept keys are dropped exactly where the initial sequence
    /// numbers of their connection are fixed anew.
    pub fn next<L: Ledger>(
        &mut self,
        alloc: Global,
        time: u64,
        bytes: &[u8],
        steps: &mut Steps<L>,
    ) -> Result<CheckLine, AllocError>
        ensures heard { (held : List Connection) → StandsFor self.old.entries held
            → IfOk result (λ line. Hears self.new.entries line (hear self.old.tables held time bytes.now)) }
        ensures tables { self.new.tables ≡ self.old.tables }
        ensures unchanged { OnErr result (self.new ≡ self.old) }
        ensures keys { KeepsKeys self.old.entries self.new.entries }
        ensures derives { (d : Segment) → reading bytes.now ≡ Read d
            → Derives self.old.entries self.new.entries (rows_of self.old.tables d.destination) time d steps.old
            steps.new }
        ensures idle { IfOk result (λ line. is_computed line ≡ false → steps.new ≡ steps.old) }
        ensures least { steps.old ≤ steps.new }
        ensures most { steps.new ≤ steps.old + 1 }
    {
        match read_datagram(bytes) {
            Err(fault) => Ok(CheckLine::Bad(fault)),
            Ok(datagram) => self.hear(alloc, time, &datagram, steps),
        }
    }

    /// What is said of a datagram that was stored at a time, in seconds since 1970: as `next` says of its
    /// bytes. The answer, and the connections that the checker knows afterwards, are those of the
    /// definition, whatever connections it knew. After want of memory it is as it was. Steps are counted,
    /// and keys are kept, as by `next`.
    pub fn hear<L: Ledger>(
        &mut self,
        alloc: Global,
        time: u64,
        datagram: &Datagram<'_>,
        steps: &mut Steps<L>,
    ) -> Result<CheckLine, AllocError>
        ensures heard { (held : List Connection) → StandsFor self.old.entries held
            → IfOk result (λ line. Hears self.new.entries line
            (hear_read self.old.tables held time (Read datagram.now))) }
        ensures tables { self.new.tables ≡ self.old.tables }
        ensures unchanged { OnErr result (self.new ≡ self.old) }
        ensures keys { KeepsKeys self.old.entries self.new.entries }
        ensures derives { Derives self.old.entries self.new.entries (rows_of self.old.tables datagram.now.destination)
            time datagram.now steps.old steps.new }
        ensures idle { IfOk result (λ line. is_computed line ≡ false → steps.new ≡ steps.old) }
        ensures least { steps.old ≤ steps.new }
        ensures most { steps.new ≤ steps.old + 1 }
    {
        self.connections
            .hear(alloc, &self.tables, time, datagram, steps)
    }

    /// What is said of a segment without SYN as if this number, at most 2^63, were expected of its
    /// sender: where it passes, the answer and the connections that the checker knows afterwards are those
    /// of `hear` with this number expected; where it doesn't, the answer is that one, and the connections
    /// stay. Where no connection is known between its sockets, all is as by `hear`. After want of memory
    /// the checker is as it was. Steps are counted, and keys are kept, as by `next`.
    pub fn hear_as<L: Ledger>(
        &mut self,
        alloc: Global,
        time: u64,
        datagram: &Datagram<'_>,
        expected: u64,
        steps: &mut Steps<L>,
    ) -> Result<CheckLine, AllocError>
        requires later { has SYN datagram.now ≡ false }
        requires expected { expected ≤ 2 ^ 63 }
        ensures heard { (held : List Connection) → StandsFor self.old.entries held
            → IfOk result (λ line. Hears self.new.entries line
            (hear_as self.old.tables held time datagram.now expected)) }
        ensures tables { self.new.tables ≡ self.old.tables }
        ensures unchanged { OnErr result (self.new ≡ self.old) }
        ensures keys { KeepsKeys self.old.entries self.new.entries }
        ensures derives { Derives self.old.entries self.new.entries (rows_of self.old.tables datagram.now.destination)
            time datagram.now steps.old steps.new }
        ensures idle { IfOk result (λ line. is_computed line ≡ false → steps.new ≡ steps.old) }
        ensures least { steps.old ≤ steps.new }
        ensures most { steps.new ≤ steps.old + 1 }
    {
        self.connections
            .hear_as(alloc, &self.tables, time, datagram, expected, steps)
    }

    /// The numbers of the connection between two sockets, as the first of them sees it: those of the
    /// definition, whatever connections the checker knows. None exactly where no connection is known
    /// between them, or they are one socket.
    pub fn known(&self, source: Socket, destination: Socket) -> Option<KnownConnection>
        ensures known { (held : List Connection) → StandsFor self.now.entries held
            → same_socket source destination ≡ false → result ≡ known_numbers source destination held }
        ensures one { same_socket source destination ≡ true → result ≡ None }
        ensures limit { IfSome result (λ k. k.expected ≤ 2 ^ 63) }
    {
        self.connections.known(source, destination)
    }
}
