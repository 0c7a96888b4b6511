//! The packets of a capture, one after another.
ghost use Rattle.std.specs.Prelude.{◌≡◌, ◌+◌, ◌<◌, ◌≤◌, ℕ, true, false, List, length, IfOk, IsSome, IfSome, Some};
ghost use Rattle.std.specs.Prelude.{None, Ok, Err};
ghost use Rattle.ao_base.specs.Outside.{Side, told};
ghost use Rattle.book_captures.specs.Captures.{frame_datagram};
ghost use Rattle.capture_reader.specs.Found.{Gives, seen};
ghost use Rattle.capture_reader.specs.FoundParts.{seen_part, IsPartWithin};
ghost use Rattle.capture_walk.specs.Reads.{new_reading, Steps, Walks};
ghost use Rattle.capture_walk.specs.Passes.{interfaces_at, step_by, taken};

use crate::fronts::{Found, Opened, find_part, open};
use crate::interfaces::Interfaces;
use ao_base::{Buffer, Source};
use book_captures::{CaptureFault, Cause, Format};
use capture_reader::{
    FoundDatagram, FoundPart, MOST_IN_BLOCK, PartSays, Skipped, find_datagram, link_type,
};
use std::alloc::{AllocError, Global};
use std::marker::Model;

/// What a call of `CaptureReader::next` has read.
#[derive(Clone, Copy, Debug, PartialEq, Eq)]
pub enum CaptureStep {
    /// A packet, which the reader shows.
    Packet,
    /// A block that holds no packet.
    Block,
    /// Nothing: the source is at its end, and all packets were shown.
    End,
}

/// Why a call of `CaptureReader::next` has read nothing.
#[derive(Clone, Copy, Debug, PartialEq, Eq)]
pub enum CaptureHalt {
    /// A read failed.
    Read,
    /// The source gave more than 2^63 bytes.
    TooLong,
    /// The file is faulty here.
    Broken(CaptureFault),
}

/// The most bytes that are read of a file: more than any has, so that the counters of a reader hold.
const MOST_READ: u64 = 0x8000_0000_0000_0000;

/// How many bytes are kept besides the longest block.
const SPARE: usize = 65_536;

/// A reader of a capture, which keeps one packet and at most 16,842,752 bytes, with the interfaces of one
/// section.
#[derive(Debug, Drop)]
pub struct CaptureReader {
    buffer: Buffer,
    interfaces: Interfaces,
    format: Option<Format>,
    packets: u64,
    parts: u64,
    // how many bytes were passed
    bytes: u64,
    passed: u64,
    time: Option<u64>,
    link: u32,
    original: u32,
    shown: bool,
    over: bool,
}

impl Model for CaptureReader {
    ghost use Rattle.std.specs.Prelude.{◌≡◌, ◌+◌, ◌≤◌, [], cond, Some, None};
    ghost use Rattle.capture_walk.specs.Fronts.{place_of};
    ghost use Rattle.capture_walk.specs.Reads.{Reading};

    ghost Value = { Reading };

    ghost view = { λ r. record {
      kept = r.buffer.kept;
      place = place_of r.format r.interfaces;
      counts = record { packets = r.packets; parts = r.parts; bytes = r.bytes };
      passed = r.passed;
      over = r.over;
      packet = cond r.shown (Some (record {
        number = r.packets;
        frame = record {
          time = r.time;
          link = r.link;
          original = r.original;
          bytes = r.buffer.piece;
        };
      })) None;
    } };

    ghost invariant = { λ r. (r.bytes ≤ 9223372036854775808) × (r.parts ≤ r.bytes) × (r.packets + r.passed ≤ r.parts)
        × (r.buffer.size ≡ 16842752) × (r.format ≡ None → r.interfaces ≡ []) };
}

impl CaptureReader {
    /// A reader at the front of a file. It takes all its memory here.
    pub fn new(alloc: Global) -> Result<CaptureReader, AllocError>
        ensures { IfOk result (λ r. r ≡ new_reading) }
    {
        let buffer = Buffer::new(alloc, MOST_IN_BLOCK + SPARE)?;
        let interfaces = Interfaces::new(alloc)?;
        Ok(CaptureReader {
            buffer,
            interfaces,
            format: None,
            packets: 0,
            parts: 0,
            bytes: 0,
            passed: 0,
            time: None,
            link: 0,
            original: 0,
            shown: false,
            over: false,
        })
    }

    /// Reads the next record or block of the file. No call before may have answered anything but Packet and
    /// Block.
    ///
    /// Packet: the next packet of the capture is shown. Block: a block was read that holds none; it counts
    /// as passed over where it neither begins a section nor describes an interface. Whatever follows, what
    /// was read is a front of the file with this packet or none, and what is to come of the capture is
    /// what is to come behind it. End comes only at the source's end, where nothing more is to come, and
    /// Broken where only this fault is, whatever the source has left; Read only where the source's count of
    /// faults rose, and TooLong only where the source gave more than 2^63 bytes. At most 16,842,752 bytes
    /// are kept after any call.
    pub fn next<S: Source>(&mut self, src: &mut S) -> Result<CaptureStep, CaptureHalt>
        requires { self.old.over ≡ false }
        ensures steps { (given : List ℕ) × Steps self.old self.new (S.side src.old) (S.side src.new) given result }
        ensures walks { (left : List ℕ) → (S.side src.old).bytes ≡ Some left
            → Walks self.old self.new left (told (S.side src.new).bytes) result }
        ensures shown { result ≡ Ok CaptureStep.Packet → IsSome self.new.packet }
    {
        self.advance(src)
    }

    fn advance<S: Source>(&mut self, src: &mut S) -> Result<CaptureStep, CaptureHalt>
        requires { self.old.over ≡ false }
        ensures { (given : List ℕ) × Steps self.old self.new (S.side src.old) (S.side src.new) given result }
    {
        let had = self.format;
        let front = match open(&mut self.buffer, src, had, self.interfaces.as_slice()) {
            Opened::At(front) => front,
            Opened::Bad(why) => return self.halt(CaptureHalt::Broken(in_head(why))),
            Opened::Fault => return self.halt(CaptureHalt::Read),
        };
        let size = front.size as u64;
        if size > MOST_READ - self.bytes {
            return self.halt(CaptureHalt::TooLong);
        }
        self.bytes += size;
        self.format = Some(front.format);
        match find_part(
            &mut self.buffer,
            src,
            front.format,
            self.interfaces.as_slice(),
        ) {
            Found::Whole(part) => {
                if part.size as u64 > MOST_READ - self.bytes {
                    return self.halt(CaptureHalt::TooLong);
                }
                Ok(self.take(part))
            }
            Found::Done => Ok(self.end()),
            Found::Broken(why) => {
                let fault = self.fault(why);
                self.halt(CaptureHalt::Broken(fault))
            }
            Found::Fault => self.halt(CaptureHalt::Read),
        }
    }

    // Passes over the part at the front of what is kept.
    fn take(&mut self, part: FoundPart) -> CaptureStep
        requires within { IsPartWithin part (length (interfaces_at self.old.place)) (length self.old.kept) }
        requires some { 0 < part.size }
        requires room { self.old.counts.bytes + part.size ≤ 9223372036854775808 }
        requires going { self.old.over ≡ false }
        ensures step { result ≡ step_by part.says }
        ensures taken { self.new ≡ taken self.old (seen_part (interfaces_at self.old.place) self.old.kept part) }
    {
        self.bytes += part.size as u64;
        self.parts += 1;
        self.format = Some(part.format);
        match part.says {
            PartSays::Packet(frame) => {
                self.buffer.pass(frame.first, frame.after, part.size);
                self.packets += 1;
                self.time = frame.time;
                self.link = frame.link;
                self.original = frame.original;
                self.shown = true;
                CaptureStep::Packet
            }
            PartSays::Section => {
                self.buffer.pass(0, 0, part.size);
                self.interfaces.clear();
                self.shown = false;
                CaptureStep::Block
            }
            PartSays::Interface(interface) => {
                self.buffer.pass(0, 0, part.size);
                self.interfaces.push(interface);
                self.shown = false;
                CaptureStep::Block
            }
            PartSays::Other => {
                self.buffer.pass(0, 0, part.size);
                self.passed += 1;
                self.shown = false;
                CaptureStep::Block
            }
        }
    }

    fn halt(&mut self, halt: CaptureHalt) -> Result<CaptureStep, CaptureHalt>
        ensures answer { result ≡ Err halt }
        ensures over { self.new ≡ record self.old { over = true; packet = None } }
    {
        self.shown = false;
        self.over = true;
        Err(halt)
    }

    fn end(&mut self) -> CaptureStep
        ensures answer { result ≡ CaptureStep.End }
        ensures over { self.new ≡ record self.old { over = true; packet = None } }
    {
        self.shown = false;
        self.over = true;
        CaptureStep::End
    }

    // A fault of the part behind those that were passed.
    fn fault(&self, cause: Cause) -> CaptureFault
        ensures { result ≡ record { cause = cause; number = self.now.counts.parts + 1; byte = self.now.counts.bytes } }
    {
        CaptureFault {
            cause,
            number: self.parts + 1,
            byte: self.bytes,
        }
    }

    /// The number of the last packet in its file, from 1 on. The last `next` answered Packet.
    pub fn number(&self) -> u64
        requires { IsSome self.now.packet }
        ensures { IfSome self.now.packet (λ p. result ≡ p.number) }
    {
        self.packets
    }

    /// When the last packet was seen, in nanoseconds since 1970; None where the file doesn't say it. The last
    /// `next` answered Packet.
    pub fn time(&self) -> Option<u64>
        requires { IsSome self.now.packet }
        ensures { IfSome self.now.packet (λ p. result ≡ p.frame.time) }
    {
        self.time
    }

    /// The bytes that the snapshot left of the last packet. The last `next` answered Packet.
    pub fn frame(&self) -> &[u8]
        requires { IsSome self.now.packet }
        ensures { IfSome self.now.packet (λ p. result.now ≡ p.frame.bytes) }
    {
        self.buffer.piece()
    }

    /// Where the datagram of the last packet lies in its frame, or why the packet is passed over. The last
    /// `next` answered Packet.
    #[tactic(auto, unfolding(book_captures::specs::Captures::frame_datagram))]
    pub fn datagram(&self) -> Result<FoundDatagram, Skipped>
        requires { IsSome self.now.packet }
        ensures exact { IfSome self.now.packet (λ p. Gives (seen p.frame.bytes) result (frame_datagram p.frame)) }
        ensures ordered { IfOk result (λ d. d.first ≤ d.after) }
        ensures within { IfSome self.now.packet (λ p. IfOk result (λ d. d.after ≤ length p.frame.bytes)) }
    {
        match link_type(self.link) {
            Some(link) => find_datagram(link, self.buffer.piece(), self.original),
            None => Err(Skipped::UnknownLink(self.link)),
        }
    }

    /// How many blocks were passed over so far, that neither hold a packet nor begin a section nor describe
    /// an interface.
    pub fn passed(&self) -> u64
        ensures { result ≡ self.now.passed }
    {
        self.passed
    }
}

// A fault of a classic file's header.
fn in_head(cause: Cause) -> CaptureFault
    ensures { result ≡ record { cause = cause; number = 0; byte = 0 } }
{
    CaptureFault {
        cause,
        number: 0,
        byte: 0,
    }
}
