//! What comes of a stored datagram, as a segment that was seen.
ghost use Rattle.std.specs.Prelude.{◌≡◌, IfOk, None, Ok, OnOk};
ghost use Rattle.book_segments.specs.Segments.{Read, Segment, reading};
ghost use Rattle.book_cmd_check.specs.Captures.{Stored};
ghost use Rattle.book_sessions.specs.declared.outcome.SegmentOutcome.TheVariants.{CutOff};
ghost use Rattle.book_sessions.specs.CutOff.{cut_segment};
ghost use Rattle.book_sessions.specs.Listening.{Listening, listen};
ghost use Rattle.book_sessions.specs.Sessions.{bits_of, seen_cut, seen_segment};
ghost use Rattle.capture_listener.specs.Listeners.{Knows};
ghost use Rattle.scope_sessions.specs.Counting.{IsHeard, IsSeen, stored_at};

use crate::protections::protection_of;
use ao_base::Steps;
use book_sessions::{PassedOver, SeenBits, SeenSegment, SegmentOutcome};
use capture_listener::{HeardSegment, Listener, cut_whole, key_ids, told_fault};
use std::alloc::{AllocError, Global};
use std::sync::ledger::Ledger;
use tcp_segment::{Datagram, DatagramFault, Flag, read_datagram};

fn bits_of(datagram: &Datagram<'_>) -> SeenBits
    ensures { result ≡ bits_of datagram.now }
{
    SeenBits {
        syn: datagram.has(Flag::Syn),
        ack: datagram.has(Flag::Ack),
        fin: datagram.has(Flag::Fin),
        rst: datagram.has(Flag::Rst),
    }
}

fn seen_segment(packet: u64, time: u64, datagram: &Datagram<'_>, heard: HeardSegment) -> SeenSegment
    ensures { (s : Stored) → s.number ≡ packet → s.time ≡ time
        → result ≡ seen_segment s datagram.now heard.outcome heard.pass }
{
    SeenSegment {
        packet,
        time,
        source: datagram.source(),
        destination: datagram.destination(),
        ids: key_ids(datagram),
        protection: protection_of(datagram),
        bits: bits_of(datagram),
        outcome: heard.outcome,
        pass: heard.pass,
    }
}

// What is seen of a datagram that was read, by what was heard before.
fn listen<L: Ledger>(
    listener: &mut Listener,
    alloc: Global,
    steps: &mut Steps<L>,
    packet: u64,
    time: u64,
    datagram: &Datagram<'_>,
) -> Result<SeenSegment, AllocError>
    ensures seen { (k : Listening) (s : Stored) → Knows listener.old k → s.number ≡ packet → s.time ≡ time
        → IfOk result (λ seen. IsSeen s datagram.now seen (listen listener.old.judging k time (Read datagram.now))) }
    ensures knows { (k : Listening) → Knows listener.old k → OnOk result
        (Knows listener.new (listen listener.old.judging k time (Read datagram.now)).listening) }
    ensures judging { listener.new.judging ≡ listener.old.judging }
{
    let heard = listener.hear(alloc, time, datagram, steps)?;
    Ok(seen_segment(packet, time, datagram, heard))
}

// What is seen of the bytes of a segment that was cut off, with zeros for those that are missing.
fn seen_whole(packet: u64, time: u64, bytes: &[u8]) -> Result<SeenSegment, DatagramFault>
    ensures { (s : Stored) (d : Segment) → reading bytes.now ≡ Read d → s.number ≡ packet → s.time ≡ time
        → result ≡ Ok (seen_segment s d CutOff None) }
{
    let heard = HeardSegment {
        outcome: SegmentOutcome::CutOff,
        pass: None,
    };
    match read_datagram(bytes) {
        Err(fault) => Err(fault),
        Ok(datagram) => Ok(seen_segment(packet, time, &datagram, heard)),
    }
}

// What is seen of bytes with this fault: a segment that was cut off, or why they are passed over.
fn seen_cut(
    alloc: Global,
    packet: u64,
    time: u64,
    bytes: &[u8],
    fault: DatagramFault,
) -> Result<Result<SeenSegment, PassedOver>, AllocError>
    ensures { (s : Stored) → s.number ≡ packet → s.time ≡ time → s.bytes ≡ bytes.now
        → IfOk result (λ seen. seen ≡ seen_cut s (cut_segment bytes.now) fault) }
{
    let found = cut_whole(alloc, bytes)?;
    match found {
        None => Ok(Err(PassedOver::Faulty(told_fault(bytes, fault)))),
        Some(whole) => match seen_whole(packet, time, whole.as_slice()) {
            Err(other) => Ok(Err(PassedOver::Faulty(other))),
            Ok(seen) => Ok(Ok(seen)),
        },
    }
}

/// What is seen of the bytes of a packet that were stored at a time, in seconds since 1970, by what was heard
/// before. An error for want of memory alone.
pub(crate) fn hear<L: Ledger>(
    listener: &mut Listener,
    alloc: Global,
    steps: &mut Steps<L>,
    packet: u64,
    time: u64,
    bytes: &[u8],
) -> Result<Result<SeenSegment, PassedOver>, AllocError>
    ensures heard { (k : Listening) → Knows listener.old k
        → IfOk result (λ seen. IsHeard (stored_at packet time bytes.now) (reading bytes.now) seen listener.new
        (listen listener.old.judging k time (reading bytes.now))) }
    ensures judging { listener.new.judging ≡ listener.old.judging }
{
    match read_datagram(bytes) {
        Err(fault) => seen_cut(alloc, packet, time, bytes, fault),
        Ok(datagram) => {
            let seen = listen(listener, alloc, steps, packet, time, &datagram)?;
            Ok(Ok(seen))
        }
    }
}
