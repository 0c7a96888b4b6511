//! What is known of each connection, for tables that stand elsewhere.
ghost use Rattle.std.specs.Prelude.{◌≡◌, ◌≤◌, ◌+◌, ◌^◌, [], false, true, List, IfOk, IfSome, OnErr, OnOk, None};
ghost use Rattle.book_segments.specs.Segments.{Read, has, SYN};
ghost use Rattle.book_segments.specs.Sockets.{same_socket};
ghost use Rattle.book_keys.specs.Rows.{Table as Sheet};
ghost use Rattle.book_cmd_check.specs.Captures.{Connection, hear_read};
ghost use Rattle.book_cmd_check.specs.Handshakes.{and_given, has_room};
ghost use Rattle.capture_check.specs.Checkers.{IsSound, StandsFor, Hears, KeepsKeys, Derives};
ghost use Rattle.capture_check.specs.Answers.{is_computed};
ghost use Rattle.capture_check.specs.Expecting.{hear_as, known_numbers};
ghost use Rattle.capture_check.specs.Flows.{rows_of};

use crate::answer::CheckLine;
use crate::datagrams::{hear_datagram, hold, known};
use crate::flows::Flows;
use crate::known::KnownConnection;
use ao_base::Steps;
use book_base::{Pair, Socket};
use book_cmd_check::GivenIsns;
use key_table::Tables;
use std::alloc::{AllocError, Global};
use std::collections::BTreeMap;
use std::marker::Model;
use std::sync::ledger::Ledger;
use tcp_segment::Datagram;

/// What a checker knows of each connection, at most 65,536 of them, seen by the two sockets of a
/// connection. It fits the tables of all nodes that each call is given, which are the same ones.
#[derive(Drop)]
pub struct Connections {
    flows: BTreeMap<Pair, Flows>,
}

impl Model for Connections {
    ghost use Rattle.std.specs.Prelude.{List};
    ghost use Rattle.book_base.specs.declared.address.Pair.{Pair as Key};
    ghost use Rattle.capture_check.specs.declared.flows.Flows.{Flows as Ways};

    ghost Value = { List (Key × Ways) };

    ghost view = { λ c. c.flows.entries };
}

impl Connections {
    /// No connection is known, which fits any tables.
    pub fn new(alloc: Global) -> Connections
        ensures new { result ≡ [] }
        ensures stands { StandsFor result [] }
        ensures sound { (tables : List Sheet) → IsSound tables result }
    {
        Connections {
            flows: BTreeMap::new(alloc),
        }
    }

    /// Takes it that a handshake with these initial sequence numbers passed, as `Checker::hold` does.
    pub fn hold(
        &mut self,
        alloc: Global,
        tables: &Tables,
        given: GivenIsns,
    ) -> Result<bool, AllocError>
        requires sound { IsSound tables.now self.old }
        ensures stands { (held : List Connection) → StandsFor self.old held
            → OnOk result (StandsFor self.new (and_given given held)) }
        ensures room { (held : List Connection) → StandsFor self.old held
            → IfOk result (λ room. room ≡ has_room given held) }
        ensures unchanged { OnErr result (self.new ≡ self.old) }
        ensures sound { IsSound tables.now self.new }
        ensures keys { KeepsKeys self.old self.new }
    {
        hold(&mut self.flows, alloc, tables, given)
    }

    /// What is said of a datagram, as `Checker::hear` says.
    pub fn hear<L: Ledger>(
        &mut self,
        alloc: Global,
        tables: &Tables,
        time: u64,
        datagram: &Datagram<'_>,
        steps: &mut Steps<L>,
    ) -> Result<CheckLine, AllocError>
        requires sound { IsSound tables.now self.old }
        ensures heard { (held : List Connection) → StandsFor self.old held
            → IfOk result (λ line. Hears self.new line (hear_read tables.now held time (Read datagram.now))) }
        ensures unchanged { OnErr result (self.new ≡ self.old) }
        ensures sound { IsSound tables.now self.new }
        ensures keys { KeepsKeys self.old self.new }
        ensures derives { Derives self.old self.new (rows_of tables.now datagram.now.destination) time datagram.now
            steps.old steps.new }
        ensures idle { IfOk result (λ line. is_computed line ≡ false → steps.new ≡ steps.old) }
    {
        hear_datagram(&mut self.flows, alloc, tables, time, None, datagram, steps)
    }

    /// What is said of a segment without SYN as if this number, at most 2^63, were expected of its
    /// sender, as `Checker::hear_as` says.
    pub fn hear_as<L: Ledger>(
        &mut self,
        alloc: Global,
        tables: &Tables,
        time: u64,
        datagram: &Datagram<'_>,
        expected: u64,
        steps: &mut Steps<L>,
    ) -> Result<CheckLine, AllocError>
        requires sound { IsSound tables.now self.old }
        requires later { has SYN datagram.now ≡ false }
        requires expected { expected ≤ 2 ^ 63 }
        ensures heard { (held : List Connection) → StandsFor self.old held
            → IfOk result (λ line. Hears self.new line (hear_as tables.now held time datagram.now expected)) }
        ensures unchanged { OnErr result (self.new ≡ self.old) }
        ensures sound { IsSound tables.now self.new }
        ensures keys { KeepsKeys self.old self.new }
        ensures derives { Derives self.old self.new (rows_of tables.now datagram.now.destination) time datagram.now
            steps.old steps.new }
        ensures idle { IfOk result (λ line. is_computed line ≡ false → steps.new ≡ steps.old) }
    {
        hear_datagram(
            &mut self.flows,
            alloc,
            tables,
            time,
            Some(expected),
            datagram,
            steps,
        )
    }

    /// The numbers of the connection between two sockets, as `Checker::known` tells them.
    pub fn known(&self, source: Socket, destination: Socket) -> Option<KnownConnection>
        ensures known { (held : List Connection) → StandsFor self.now held → same_socket source destination ≡ false
            → result ≡ known_numbers source destination held }
        ensures one { same_socket source destination ≡ true → result ≡ None }
        ensures limit { (tables : List Sheet) → IsSound tables self.now → IfSome result (λ k. k.expected ≤ 2 ^ 63) }
    {
        known(&self.flows, source, destination)
    }
}
