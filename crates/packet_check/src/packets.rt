//! Who checks the packets of a capture, one after another.
ghost use Rattle.std.specs.Prelude.{◌≡◌, ◌<◌, ◌||◌, [], IfOk, IsSome, List, OnOk, Some, if◌then◌else◌, not};
ghost use Rattle.book_captures.specs.Captures.{CapturePacket};
ghost use Rattle.book_cmd_check.specs.Captures.{Connection};
ghost use Rattle.book_sessions.specs.declared.class.PacketClass.{PacketClass};
ghost use Rattle.book_sessions.specs.CheckedLines.{is_foreign_class};
ghost use Rattle.capture_check.specs.Checkers.{StandsFor};
ghost use Rattle.packet_check.specs.Checking.{ChecksPacket};
ghost use Rattle.packet_check.specs.Reading.{HearsPacket, StandsAfter, asked_after};
ghost use Rattle.packet_check.specs.Tallies.{Tallies};

use crate::checked::check_shown;
use crate::class::is_foreign;
use crate::tally::Tally;
use ao_base::{Sink, Steps};
use book_sessions::{GivenIsns, PacketClass};
use capture_check::Checker;
use capture_walk::{CaptureReader, HearHalt, Heard, Hearer, tell};
use key_table::Tables;
use std::alloc::{AllocError, Global};
use std::marker::Brand;
use std::sync::ledger::{Blank, Ledger};

/// Checks each packet that it hears, counts it, and writes its line if it is listed: all are, or those that aren't
/// foreign. It keeps the room for one line.
#[derive(Drop)]
pub(crate) struct PacketChecker {
    pub(crate) checker: Checker,
    pub(crate) tally: Tally,
    pub(crate) all: bool,
    line: Vec<u8>,
    alloc: Global,
}

// Checks the packet that the reader shows, with a counter of derivations.
fn check_counted<L: Ledger>(
    checker: &mut Checker,
    alloc: Global,
    reader: &CaptureReader,
    line: &mut Vec<u8>,
    blank: Blank,
) -> Result<PacketClass, AllocError>
    requires name { blank.name ≡ L.name }
    requires parts { blank.parts ≡ L.parts }
    requires part { 0 < blank.parts }
    requires shown { IsSome reader.now.packet }
    ensures checks { (p : CapturePacket) (held : List Connection) → reader.now.packet ≡ Some p
        → StandsFor checker.old.entries held
        → IfOk result (λ class. ChecksPacket checker.old.tables held p checker.new.entries line.new.items class) }
    ensures tables { checker.new.tables ≡ checker.old.tables }
{
    let mut steps = Steps::<L>::new(blank);
    check_shown(checker, alloc, &mut steps, reader, line)
}

// Whether the line of a packet is listed that counts as this.
fn is_listed(all: bool, class: PacketClass) -> bool
    ensures { result ≡ (all || not (is_foreign_class class)) }
{
    all || !is_foreign(class)
}

// Empties the line, unless it is listed.
fn keep_listed(line: &mut Vec<u8>, listed: bool)
    ensures { line.new.items ≡ (if listed then line.old.items else []) }
{
    if !listed {
        line.clear();
    }
}

impl PacketChecker {
    /// One that has heard no packet, after handshakes with the given initial sequence numbers.
    pub(crate) fn behind(
        alloc: Global,
        all: bool,
        tables: Tables,
        isns: &[GivenIsns],
    ) -> Result<PacketChecker, AllocError>
        ensures { IfOk result (λ p. StandsAfter (asked_after all tables isns.now) p.checker.tables p.all
            p.checker.entries p.tally []) }
    {
        let checker = Checker::behind(alloc, tables, isns)?;
        Ok(PacketChecker {
            checker,
            tally: Tally::new(),
            all,
            line: Vec::new(alloc),
            alloc,
        })
    }

    // Checks the packet that the reader shows, counts it, and keeps its line if it is listed.
    fn check(&mut self, reader: &CaptureReader) -> Result<(), AllocError>
        requires { IsSome reader.now.packet }
        ensures hears { (p : CapturePacket) (held : List Connection) (classes : List PacketClass)
            → reader.now.packet ≡ Some p → StandsFor self.old.checker.entries held → Tallies self.old.tally classes
            → OnOk result (HearsPacket self.old.checker.tables self.old.all held p classes
            self.new.checker.entries self.new.tally self.new.line.items) }
        ensures tables { self.new.checker.tables ≡ self.old.checker.tables }
        ensures all { self.new.all ≡ self.old.all }
    {
        let class = check_counted::<Brand>(
            &mut self.checker,
            self.alloc,
            reader,
            &mut self.line,
            Blank::new(1),
        )?;
        self.tally = self.tally.with(class)?;
        keep_listed(&mut self.line, is_listed(self.all, class));
        Ok(())
    }
}

impl Hearer for PacketChecker {
    ghost use Rattle.packet_check.specs.Reading.{CheckAsked, lines_from};

    ghost Asked = { CheckAsked };

    ghost told = { λ q. lines_from q.all q.tables q.held };

    ghost stands = { λ q checker packets.
        StandsAfter q checker.checker.tables checker.all checker.checker.entries checker.tally packets };

    ghost stops = { λ q checker packets last. ⊥ };

    fn hear<O: Sink>(&mut self, shown: &CaptureReader, out: &mut O) -> Result<Heard, HearHalt> {
        match self.check(shown) {
            Ok(()) => tell(self.line.as_slice(), out),
            Err(_) => Err(HearHalt::Memory),
        }
    }
}
