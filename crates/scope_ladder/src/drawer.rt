//! A session of a capture, drawn packet by packet.
ghost use Rattle.std.specs.Prelude.{◌≡◌, ◌<◌, ◌≤◌, ◌/◌, [], false, List, IfOk, IsSome, Ok, OnOk, Some, length};
ghost use Rattle.book_captures.specs.Captures.{CapturePacket};
ghost use Rattle.book_segments.specs.declared.fault.DatagramFault.{DatagramFault};
ghost use Rattle.book_segments.specs.Segments.{Read, Segment as Cut, reading};
ghost use Rattle.book_cmd_check.specs.Captures.{Stored};
ghost use Rattle.book_sessions.specs.AsSent.{is_segment, mended};
ghost use Rattle.book_sessions.specs.Listening.{Listening, listening_behind};
ghost use Rattle.book_sessions.specs.Sessions.{stored_by};
ghost use Rattle.book_draw.specs.SessionRungs.{session_rung};
ghost use Rattle.book_draw.specs.declared.session_rung.SessionRung.{SessionRung as Segment};
ghost use Rattle.scope_lines.specs.Writes.{found_in};
ghost use Rattle.scope_ladder.specs.Drawing.{Adds, AddsPacket, AddsRead, Follows, IsCutAs, Request, request_of};

use crate::draw::LadderRequest;
use crate::protections::protection_of;
use crate::search::Search;
use crate::shown::{NANOSECONDS, keep_shown, left_with, push_shown};
use ao_base::{Sink, Steps};
use book_draw::{DrawnTime, LeftOut, SessionRung};
use book_sessions::{GivenIsns, SegmentOutcome};
use capture_listener::{HeardSegment, Listener, cut_whole, key_ids, mended};
use capture_reader::FoundDatagram;
use capture_walk::{CaptureReader, HearHalt, Heard, Hearer, Skipped, tell};
use key_table::Tables;
use page_draw_svg::LadderForm;
use scope_lines::judged;
use std::alloc::{AllocError, Global};
use std::marker::Brand;
use std::sync::ledger::{Blank, Ledger};
use tcp_segment::{Datagram, read_datagram};

/// What draws a session in a form, of those segments that were seen within a time: what is heard of the capture, the
/// search for the session, how many of its segments are left out, the text that is drawn of the packet that came
/// last, and the segments that are kept for a picture. It hears packets, and tells the text of each.
#[derive(Drop)]
pub(crate) struct Drawer {
    pub(crate) alloc: Global,
    pub(crate) form: LadderForm,
    pub(crate) within: DrawnTime,
    pub(crate) listener: Listener,
    pub(crate) search: Search,
    pub(crate) left: LeftOut,
    pub(crate) text: Vec<u8>,
    pub(crate) kept: Vec<SessionRung>,
}

fn session_rung(packet: u64, time: u64, datagram: &Datagram<'_>, heard: HeardSegment) -> SessionRung
    ensures { result ≡ session_rung packet time datagram.now heard.outcome heard.pass }
{
    SessionRung {
        packet,
        time,
        source: datagram.source(),
        destination: datagram.destination(),
        flags: datagram.flags(),
        sequence: datagram.sequence(),
        acknowledgement: datagram.acknowledgement(),
        length: datagram.payload().len() as u64,
        ids: key_ids(datagram),
        protection: protection_of(datagram),
        outcome: heard.outcome,
        pass: heard.pass,
    }
}

impl Drawer {
    /// What draws the session that is asked for: nothing came yet.
    pub(crate) fn new(
        alloc: Global,
        asked: LadderRequest,
        tables: Tables,
        isns: &[GivenIsns],
    ) -> Result<Drawer, AllocError>
        ensures { IfOk result (λ d. Follows (request_of asked tables isns.now) d [] (listening_behind isns.now)) }
    {
        let listener = Listener::behind(alloc, tables, asked.laps, isns)?;
        Ok(Drawer {
            alloc,
            form: asked.form,
            within: asked.within,
            listener,
            search: Search::new(alloc, asked.number),
            left: LeftOut {
                before: 0,
                after: 0,
            },
            text: Vec::new(alloc),
            kept: Vec::new(alloc),
        })
    }

    // Draws a datagram that was seen at a time, in nanoseconds since 1970.
    fn draw_datagram<L: Ledger>(
        &mut self,
        steps: &mut Steps<L>,
        packet: u64,
        time: u64,
        datagram: &Datagram<'_>,
    ) -> Result<(), AllocError>
        requires { self.old.text.items ≡ [] }
        ensures { (q : Request) (rungs : List Segment) (k : Listening) → Follows q self.old rungs k
            → OnOk result (AddsRead q self.new rungs k packet time datagram.now) }
    {
        let heard = self
            .listener
            .hear(self.alloc, time / NANOSECONDS, datagram, steps)?;
        let form = self.form;
        let within = self.within;
        let rung = session_rung(packet, time, datagram, heard);
        let shown = self.search.place(&rung)?;
        self.left = left_with(within, shown, self.left, &rung);
        push_shown(&mut self.text, form, within, shown, &rung)?;
        keep_shown(&mut self.kept, form, within, shown, &rung)
    }

    // Draws a segment that was cut off, whose bytes are those of the stored ones, with zeros for the missing ones.
    fn draw_whole(&mut self, packet: u64, time: u64, bytes: &[u8]) -> Result<(), AllocError>
        requires { self.old.text.items ≡ [] }
        ensures { (q : Request) (rungs : List Segment) (k : Listening) (s : Stored) (fault : DatagramFault) (d : Cut)
            → Follows q self.old rungs k → reading bytes.now ≡ Read d
            → IsCutAs s packet fault d → OnOk result (Adds q self.new rungs k (Some time) (Ok s)) }
    {
        let heard = HeardSegment {
            outcome: SegmentOutcome::CutOff,
            pass: None,
        };
        match read_datagram(bytes) {
            Err(_) => Ok(()),
            Ok(datagram) => {
                let form = self.form;
                let within = self.within;
                let rung = session_rung(packet, time, &datagram, heard);
                let shown = self.search.place(&rung)?;
                self.left = left_with(within, shown, self.left, &rung);
                push_shown(&mut self.text, form, within, shown, &rung)?;
                keep_shown(&mut self.kept, form, within, shown, &rung)
            }
        }
    }

    // Draws bytes that are no datagram: a segment that was cut off, or nothing.
    fn draw_cut(&mut self, packet: u64, time: u64, bytes: &[u8]) -> Result<(), AllocError>
        requires text { self.old.text.items ≡ [] }
        requires bad { is_segment (reading bytes.now) ≡ false }
        ensures { (q : Request) (rungs : List Segment) (k : Listening) → Follows q self.old rungs k
            → OnOk result (Adds q self.new rungs k (Some time)
            (Ok (record { number = packet; time = time / 1000000000; bytes = bytes.now }))) }
    {
        let found = cut_whole(self.alloc, bytes)?;
        match found {
            None => Ok(()),
            Some(whole) => self.draw_whole(packet, time, whole.as_slice()),
        }
    }

    // Draws the bytes that are judged at a time, in nanoseconds since 1970.
    fn draw_judged<L: Ledger>(
        &mut self,
        steps: &mut Steps<L>,
        packet: u64,
        time: u64,
        bytes: &[u8],
    ) -> Result<(), AllocError>
        requires { self.old.text.items ≡ [] }
        ensures { (q : Request) (rungs : List Segment) (k : Listening) → Follows q self.old rungs k
            → OnOk result (Adds q self.new rungs k (Some time)
            (Ok (record { number = packet; time = time / 1000000000; bytes = bytes.now }))) }
    {
        match read_datagram(bytes) {
            Err(_) => self.draw_cut(packet, time, bytes),
            Ok(datagram) => self.draw_datagram(steps, packet, time, &datagram),
        }
    }

    // Draws the bytes that were seen at a time, in nanoseconds since 1970, with their header checksum.
    fn draw_stored<L: Ledger>(
        &mut self,
        steps: &mut Steps<L>,
        packet: u64,
        time: u64,
        bytes: &[u8],
    ) -> Result<(), AllocError>
        requires { self.old.text.items ≡ [] }
        ensures { (q : Request) (rungs : List Segment) (k : Listening) → Follows q self.old rungs k
            → OnOk result (Adds q self.new rungs k (Some time)
            (Ok (record { number = packet; time = time / 1000000000; bytes = mended bytes.now }))) }
    {
        let found = mended(self.alloc, bytes)?;
        match found {
            None => self.draw_judged(steps, packet, time, bytes),
            Some(whole) => self.draw_judged(steps, packet, time, whole.as_slice()),
        }
    }

    // Draws a packet whose frame has this datagram, or none for this reason.
    fn draw_found<L: Ledger>(
        &mut self,
        steps: &mut Steps<L>,
        packet: u64,
        time: Option<u64>,
        frame: &[u8],
        found: Result<FoundDatagram, Skipped>,
    ) -> Result<(), AllocError>
        requires found { IfOk found (λ d. (d.first ≤ d.after) × (d.after ≤ length frame.now)) }
        requires text { self.old.text.items ≡ [] }
        ensures { (q : Request) (rungs : List Segment) (k : Listening) → Follows q self.old rungs k
            → OnOk result (Adds q self.new rungs k time (stored_by packet time (found_in frame.now found))) }
    {
        match found {
            Err(_) => Ok(()),
            Ok(datagram) => match time {
                None => Ok(()),
                Some(time) => {
                    self.draw_stored(steps, packet, time, judged(frame, datagram.first))
                }
            },
        }
    }

    // Draws the packet that the reader shows, with a new counter of derivations.
    fn draw_packet<L: Ledger>(
        &mut self,
        reader: &CaptureReader,
        blank: Blank,
    ) -> Result<(), AllocError>
        requires name { blank.name ≡ L.name }
        requires parts { blank.parts ≡ L.parts }
        requires part { 0 < blank.parts }
        requires shown { IsSome reader.now.packet }
        ensures { (q : Request) (rungs : List Segment) (k : Listening) (p : CapturePacket) → reader.now.packet ≡ Some p
            → Follows q self.old rungs k
            → OnOk result (AddsPacket q self.new rungs k p) }
    {
        let mut steps = Steps::<L>::new(blank);
        self.text.clear();
        self.draw_found(
            &mut steps,
            reader.number(),
            reader.time(),
            reader.frame(),
            reader.datagram(),
        )
    }
}

impl Hearer for Drawer {
    ghost use Rattle.scope_ladder.specs.Drawing.{Request, StandsAfter, flow_text};

    ghost Asked = { Request };

    ghost told = { flow_text };

    ghost stands = { StandsAfter };

    ghost stops = { λ q drawer packets last. ⊥ };

    fn hear<O: Sink>(&mut self, shown: &CaptureReader, out: &mut O) -> Result<Heard, HearHalt> {
        match self.draw_packet::<Brand>(shown, Blank::new(1)) {
            Ok(()) => tell(self.text.as_slice(), out),
            Err(_) => Err(HearHalt::Memory),
        }
    }
}
