//! The packets of a capture, counted one after another.
ghost use Rattle.std.specs.Prelude.{◌≡◌, ◌≤◌, ◌<◌, ℕ, List, IfOk, IsSome, OnOk, Some, length};
ghost use Rattle.toml.specs.View.{table_view};
ghost use Rattle.ao_base.specs.Outside.{Side};
ghost use Rattle.book_captures.specs.Captures.{CapturePacket};
ghost use Rattle.book_sessions.specs.Listening.{Listening};
ghost use Rattle.book_sessions.specs.Sessions.{captured_by};
ghost use Rattle.capture_listener.specs.Listeners.{Knows};
ghost use Rattle.scope_lines.specs.Writes.{found_in};
ghost use Rattle.scope_sessions.specs.Counting.{CountsPacket, CountsStored};
ghost use Rattle.scope_sessions.specs.Reading.{Counts, fault_behind, series_of};

use crate::due::{counted_since, second_of, write_due};
use crate::stored::count_stored;
use ao_base::{Sink, Source, Steps};
use book_sessions::{GivenIsns, PassedOver};
use capture_listener::{Listener, SessionIndex};
use capture_reader::FoundDatagram;
use capture_walk::{
    CaptureFault, CaptureReader, HearHalt, Heard, Hearer, Skipped, WalkEnd, WalkHalt, walk,
};
use key_table::Tables;
use page_sessions_json::TableRequest;
use scope_lines::judged;
use std::alloc::{AllocError, Global};
use std::marker::Brand;
use std::sync::ledger::{Blank, Ledger};

/// How many nanoseconds a second has.
const NANOSECONDS: u64 = 1_000_000_000;

/// The packets of a capture, counted; the fault that the capture has behind them, if it has one; and the
/// listener that judged them, with its tables.
#[derive(Drop)]
pub(crate) struct Counted {
    pub(crate) listener: Listener,
    pub(crate) index: SessionIndex,
    pub(crate) fault: Option<CaptureFault>,
}

// Counts a packet whose frame has this datagram, or none for this reason.
fn count_found<L: Ledger>(
    listener: &mut Listener,
    index: &mut SessionIndex,
    alloc: Global,
    steps: &mut Steps<L>,
    packet: u64,
    time: Option<u64>,
    frame: &[u8],
    found: Result<FoundDatagram, Skipped>,
) -> Result<(), AllocError>
    requires { IfOk found (λ d. (d.first ≤ d.after) × (d.after ≤ length frame.now)) }
    ensures counts { (k : Listening) → Knows listener.old k → OnOk result
        (CountsStored listener.old.judging k listener.new index.old index.new
        (captured_by packet time (found_in frame.now found))) }
    ensures judging { listener.new.judging ≡ listener.old.judging }
{
    match found {
        Err(why) => index.count(alloc, &Err(PassedOver::NoDatagram(why))),
        Ok(datagram) => match time {
            None => index.count(alloc, &Err(PassedOver::NoTime)),
            Some(time) => count_stored(
                listener,
                index,
                alloc,
                steps,
                packet,
                time / NANOSECONDS,
                judged(frame, datagram.first),
            ),
        },
    }
}

// Counts the packet that the reader shows, with a counter of derivations.
fn count_packet<L: Ledger>(
    listener: &mut Listener,
    index: &mut SessionIndex,
    alloc: Global,
    reader: &CaptureReader,
    blank: Blank,
) -> Result<(), AllocError>
    requires name { blank.name ≡ L.name }
    requires parts { blank.parts ≡ L.parts }
    requires part { 0 < blank.parts }
    requires shown { IsSome reader.now.packet }
    ensures counts { (k : Listening) (p : CapturePacket) → reader.now.packet ≡ Some p → Knows listener.old k
        → OnOk result
        (CountsPacket listener.old.judging k listener.new index.old index.new p) }
    ensures judging { listener.new.judging ≡ listener.old.judging }
{
    let mut steps = Steps::<L>::new(blank);
    count_found(
        listener,
        index,
        alloc,
        &mut steps,
        reader.number(),
        reader.time(),
        reader.frame(),
        reader.datagram(),
    )
}

/// Counts each packet that it hears, and writes the table that is due in front of it before it is counted.
#[derive(Drop)]
struct PacketCounter<'a> {
    listener: Listener,
    index: SessionIndex,
    since: Option<u64>,
    document: &'a toml::Table,
    request: TableRequest,
    alloc: Global,
}

impl Hearer for PacketCounter<'_> {
    ghost use Rattle.toml.specs.View.{table_view};
    ghost use Rattle.page_sessions_json.specs.TableSeries.{Series, early_text};
    ghost use Rattle.scope_sessions.specs.Counting.{StandsAfter};

    ghost Asked = { Series };

    ghost told = { early_text };

    ghost stands = { λ s counter packets. StandsAfter s (table_view counter.document.now) counter.request
        counter.listener counter.index counter.since packets };

    ghost stops = { λ s counter packets last. ⊥ };

    fn hear<O: Sink>(&mut self, shown: &CaptureReader, out: &mut O) -> Result<Heard, HearHalt> {
        let now = second_of(shown.time());
        write_due(
            self.alloc,
            self.request,
            self.document,
            self.listener.tables(),
            &self.index,
            self.since,
            now,
            out,
        )?;
        self.since = counted_since(self.request.every, self.since, now);
        match count_packet::<Brand>(
            &mut self.listener,
            &mut self.index,
            self.alloc,
            shown,
            Blank::new(1),
        ) {
            Ok(()) => Ok(Heard::Next),
            Err(_) => Err(HearHalt::Memory),
        }
    }
}

// The fault that the capture has behind its packets, if it has one, where the walk ended so.
fn ended(walked: Result<WalkEnd, WalkHalt>) -> Result<Option<CaptureFault>, WalkHalt>
    ensures { result ≡ fault_behind walked }
{
    match walked {
        Ok(_) => Ok(None),
        Err(WalkHalt::Broken(fault)) => Ok(Some(fault)),
        Err(WalkHalt::TooLong) => Err(WalkHalt::TooLong),
        Err(WalkHalt::Read) => Err(WalkHalt::Read),
        Err(WalkHalt::Write) => Err(WalkHalt::Write),
        Err(WalkHalt::Memory) => Err(WalkHalt::Memory),
    }
}

/// Counts the packets of a capture, judged by the tables and over so many laps as behind handshakes with the
/// given initial sequence numbers, up to its end or its fault, and writes each table that is due in front of a packet
/// before that packet is counted. Read only where the source's count of faults rose; Write only where the
/// sink's did; TooLong only where the source gave more than 2^63 bytes; and Memory where memory ran out, or
/// where 2^64 - 1 packets of one kind are counted. Broken doesn't come: the fault is beside what was counted.
pub(crate) fn count_capture<I: Source, O: Sink>(
    alloc: Global,
    tables: Tables,
    laps: u32,
    isns: &[GivenIsns],
    document: &toml::Table,
    request: TableRequest,
    input: &mut I,
    out: &mut O,
) -> Result<Counted, WalkHalt>
    ensures { (given : List ℕ) × Counts (series_of (table_view document.now) tables laps isns.now request) given
        (I.side input.old) (I.side input.new) (O.side out.old) (O.side out.new) result }
{
    let mut reader = match CaptureReader::new(alloc) {
        Ok(reader) => reader,
        Err(_) => return Err(WalkHalt::Memory),
    };
    let listener = match Listener::behind(alloc, tables, laps, isns) {
        Ok(listener) => listener,
        Err(_) => return Err(WalkHalt::Memory),
    };
    let index = SessionIndex::new(alloc);
    let mut counter = PacketCounter {
        listener,
        index,
        since: None,
        document,
        request,
        alloc,
    };
    let fault = ended(walk(&mut reader, &mut counter, input, out))?;
    Ok(Counted {
        listener: counter.listener,
        index: counter.index,
        fault,
    })
}
