//! The packets of a pcap file, one after another.
ghost use Rattle.std.specs.Prelude.{◌≡◌, ◌++◌, ℕ, true, false, List, [], IfOk, IsSome, IfSome, Some, None};
ghost use Rattle.ao_base.specs.Outside.{Side, told};
ghost use Rattle.pcap_file.specs.declared.packets.PacketStep.TheVariants.{Packet};
ghost use Rattle.pcap_file.specs.Reads.{Reading, Steps, GoesOn, has_whole, header_length, wanted_step, Exactly};
ghost use Rattle.pcap_file.specs.Reads.{Walks, IsQuiet, IsPacketOrEnd};

use crate::head::HEAD;
use crate::records::{
    Found, MOST_KEPT, Opened, RECORD, find_datagram, find_record, kept_record, open,
};
use ao_base::{Buffer, Source};
use book_pcap::{Head, HeadFault, MOST_CAPTURE};
use std::alloc::{AllocError, Global};
use std::marker::Model;

/// What a call of `Packets::next` answers.
#[derive(Clone, Copy, Debug, PartialEq, Eq)]
pub enum PacketStep {
    /// There is a next packet, and the reader shows it.
    Packet,
    /// The source is at its end, and all its packets were shown.
    End,
    /// A read failed.
    Fault,
    /// The source gave more than 268,435,456 bytes.
    TooLong,
    /// The file's header is refused.
    BadHead(HeadFault),
    /// The record of this number, from 1 on, isn't all there, or keeps more than 262,144 bytes.
    BadRecord(u32),
}

/// How many bytes are kept besides the longest record.
const SPARE: usize = 65_536;

/// A reader of the packets of a pcap file, which keeps one packet and at most 65,536 bytes more.
#[derive(Debug, Drop)]
pub struct Packets {
    buffer: Buffer,
    // how many bytes were taken and aren't kept
    handed: u64,
    count: u32,
    head: Option<Head>,
    seconds: u32,
    shown: bool,
    over: bool,
}

impl Model for Packets {
    ghost use Rattle.std.specs.Prelude.{◌≡◌, ◌+◌, ◌*◌, ◌≤◌, cond, Some, None, length};
    ghost use Rattle.book_pcap.specs.Packets.{most_capture};
    ghost use Rattle.pcap_file.specs.Reads.{Reading, header_length};

    ghost Value = { Reading };

    ghost view = { λ r. record {
      kept = r.buffer.kept;
      taken = r.handed + length r.buffer.kept;
      count = r.count;
      head = r.head;
      over = r.over;
      packet = cond r.shown (Some (record { number = r.count; seconds = r.seconds; datagram = r.buffer.piece })) None;
    } };

    ghost invariant = { λ r. (r.handed + header_length r.head ≤ most_capture) × (16 * r.count ≤ r.handed)
        × (r.buffer.size ≡ 327696) };
}

impl Packets {
    /// A reader of packets. It takes all its memory here.
    pub fn new(alloc: Global) -> Result<Packets, AllocError>
        ensures { IfOk result
            (λ r. r ≡ record { kept = []; taken = 0; count = 0; head = None; over = false; packet = None }) }
    {
        let buffer = Buffer::new(alloc, RECORD + MOST_KEPT + SPARE)?;
        Ok(Packets {
            buffer,
            handed: 0,
            count: 0,
            head: None,
            seconds: 0,
            shown: false,
            over: false,
        })
    }

    /// Goes to the next packet of the source. No call before may have answered anything but Packet.
    ///
    /// The content is what the reader keeps, and then what the source has left. It begins with the
    /// header at the first call, and with a record at each later one (pcap-savefile). Packet: the
    /// record at the front is shown, also of a packet that has no datagram, and the content afterwards
    /// is what follows it; what was taken shows this, whatever follows. End comes only at the source's
    /// end, with all packets shown. BadHead and BadRecord come exactly where the header, or the record
    /// at the front, has a fault; but Fault may come before both, and TooLong before BadRecord. Fault
    /// comes only where the source's count of faults rose, TooLong only where the source gave more than
    /// 268,435,456 bytes. Where none of this is so, the answer is Packet or End. At most 327,696 bytes
    /// are kept after any call.
    pub fn next<S: Source>(&mut self, src: &mut S) -> PacketStep
        requires { self.old.over ≡ false }
        ensures steps { (given : List ℕ) × Steps self.old self.new (S.side src.old) (S.side src.new) given result
            × GoesOn self.old self.new (self.old.kept ++ given) result }
        ensures exact { (left : List ℕ) → (S.side src.old).bytes ≡ Some left
            → Exactly (wanted_step self.old left) result }
        ensures walks { (left : List ℕ) → (S.side src.old).bytes ≡ Some left
            → Walks self.old self.new left (told (S.side src.new).bytes) result }
        ensures quiet { (left : List ℕ) → IsQuiet self.old (S.side src.old) (S.side src.new) left
            → IsPacketOrEnd result }
    {
        self.advance(src)
    }

    /// Goes to the next packet where that needs no source, and answers whether it does: the header was
    /// read, the next record is kept whole, and it ends within the 268,435,456 bytes. Then the packet is
    /// shown as by `next`, which would ask no source for it. Else nothing changes. No call before may
    /// have answered anything but Packet or a truth value.
    pub fn next_kept(&mut self) -> bool
        requires { self.old.over ≡ false }
        ensures whole { result ≡ has_whole self.old }
        ensures steps { result ≡ true → (side : Side) → Steps self.old self.new side side [] Packet }
        ensures goes { result ≡ true → GoesOn self.old self.new (self.old.kept ++ []) Packet }
        ensures same { result ≡ false → self.new ≡ self.old }
    {
        self.advance_kept()
    }

    fn advance_kept(&mut self) -> bool
        requires { self.old.over ≡ false }
        ensures whole { result ≡ has_whole self.old }
        ensures steps { result ≡ true → (side : Side) → Steps self.old self.new side side [] Packet }
        ensures same { result ≡ false → self.new ≡ self.old }
    {
        let head = match self.head {
            Some(head) => head,
            None => return false,
        };
        let (seconds, len) = match kept_record(self.buffer.kept(), head.order) {
            Some(found) => found,
            None => return false,
        };
        let past = RECORD + len;
        if past as u64 > MOST_CAPTURE - self.handed {
            return false;
        }
        let number = self.count + 1;
        let cut = find_datagram(head.link, &self.buffer.kept()[RECORD..past]);
        self.buffer
            .pass(RECORD + cut.first, RECORD + cut.after, past);
        self.handed += past as u64;
        self.count = number;
        self.seconds = seconds;
        self.shown = true;
        true
    }

    fn advance<S: Source>(&mut self, src: &mut S) -> PacketStep
        requires { self.old.over ≡ false }
        ensures { (given : List ℕ) × Steps self.old self.new (S.side src.old) (S.side src.new) given result }
    {
        let had = self.head;
        let head = match open(&mut self.buffer, src, had) {
            Opened::Head(head) => head,
            Opened::Bad(fault) => return self.stop(PacketStep::BadHead(fault)),
            Opened::Fault => return self.stop(PacketStep::Fault),
        };
        let past = head_length(had);
        self.handed += past;
        self.head = Some(head);
        let number = self.count + 1;
        match find_record(&mut self.buffer, src, head.order) {
            Found::Whole(seconds, len) => {
                let past = RECORD + len;
                if past as u64 > MOST_CAPTURE - self.handed {
                    return self.stop(PacketStep::TooLong);
                }
                let cut = find_datagram(head.link, &self.buffer.kept()[RECORD..past]);
                self.buffer
                    .pass(RECORD + cut.first, RECORD + cut.after, past);
                self.handed += past as u64;
                self.count = number;
                self.seconds = seconds;
                self.shown = true;
                PacketStep::Packet
            }
            Found::Done => self.stop(PacketStep::End),
            Found::Broken => self.stop(PacketStep::BadRecord(number)),
            Found::Fault => self.stop(PacketStep::Fault),
        }
    }

    fn stop(&mut self, step: PacketStep) -> PacketStep
        ensures step { result ≡ step }
        ensures over { self.new ≡ record self.old { over = true; packet = None } }
    {
        self.shown = false;
        self.over = true;
        step
    }

    /// The number of the last packet in its file, from 1 on. Packets without a datagram count too.
    /// The last `next` answered Packet.
    pub fn number(&self) -> u32
        requires { IsSome self.now.packet }
        ensures { IfSome self.now.packet (λ p. result ≡ p.number) }
    {
        self.count
    }

    /// When the last packet was seen, in seconds since 1970. The last `next` answered Packet.
    pub fn seconds(&self) -> u32
        requires { IsSome self.now.packet }
        ensures { IfSome self.now.packet (λ p. result ≡ p.seconds) }
    {
        self.seconds
    }

    /// The datagram of the last packet, without a byte where it has none: its kept bytes behind raw IP;
    /// behind Ethernet those after the first 14, where bytes 12 and 13 say IPv4 or IPv6 (RFC 894; RFC
    /// 2464, section 3); at most 65,575 of them. The last `next` answered Packet.
    pub fn datagram(&self) -> &[u8]
        requires { IsSome self.now.packet }
        ensures { IfSome self.now.packet (λ p. result.now ≡ p.datagram) }
    {
        self.buffer.piece()
    }
}

// How many bytes the header takes, where it wasn't read before.
fn head_length(had: Option<Head>) -> u64
    ensures { result ≡ header_length had }
{
    if had.is_some() { 0 } else { HEAD as u64 }
}
