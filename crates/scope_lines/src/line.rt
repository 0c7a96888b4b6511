//! The line of a packet.
ghost use Rattle.std.specs.Prelude.{◌≡◌, ◌/◌, ◌++◌, ◌∷◌, [], ◌≤◌, OnOk, IfOk, IfSome, IsSome, codes, decimal, drop};
ghost use Rattle.std.specs.Prelude.{take, length};
ghost use Rattle.book_base.specs.Hexadecimal.{hex_of};
ghost use Rattle.book_pcap.specs.Packets.{longest_datagram};
ghost use Rattle.book_captures.specs.PacketLines.{header_text, reason_text, remark, line_by, packet_line};
ghost use Rattle.scope_lines.specs.Writes.{found_in};

use ao_base::{push_decimal, push_hex};
use book_pcap::LONGEST_DATAGRAM;
use capture_reader::FoundDatagram;
use capture_walk::{CaptureReader, Header, Skipped};
use std::alloc::AllocError;

/// How many nanoseconds a second has.
const NANOSECONDS: u64 = 1_000_000_000;

fn header_name(header: Header) -> &'static [u8]
    ensures { result.now ≡ header_text header }
{
    match header {
        Header::Link => b"link header",
        Header::Tag => b"VLAN tag",
        Header::Session => b"PPPoE header",
        Header::Label => b"MPLS label",
        Header::Datagram => b"IP header",
    }
}

// Puts this text and the name of the header behind `out`.
fn push_header(out: &mut Vec<u8>, text: &[u8], header: Header) -> Result<(), AllocError>
    ensures { OnOk result (out.new.items ≡ out.old.items ++ (text.now ++ header_text header)) }
{
    out.extend_from_slice(text)?;
    out.extend_from_slice(header_name(header))
}

// Puts the number of a link type behind `out`.
fn push_link(out: &mut Vec<u8>, number: u32) -> Result<(), AllocError>
    ensures { OnOk result (out.new.items ≡ out.old.items ++ (codes "link type " ++ decimal number)) }
{
    out.extend_from_slice(b"link type ")?;
    push_decimal(out, u64::from(number))
}

/// Puts why a packet is passed over behind `out`. Where memory runs out a part of it may stand there.
pub fn push_reason(out: &mut Vec<u8>, why: Skipped) -> Result<(), AllocError>
    ensures { OnOk result (out.new.items ≡ out.old.items ++ reason_text why) }
{
    match why {
        Skipped::UnknownLink(number) => push_link(out, number),
        Skipped::NotIp => out.extend_from_slice(b"not IP"),
        Skipped::Version => out.extend_from_slice(b"IP version"),
        Skipped::NotSession => out.extend_from_slice(b"not PPPoE data"),
        Skipped::Short(header) => push_header(out, b"ends in ", header),
        Skipped::Cut(header) => push_header(out, b"cut in ", header),
    }
}

// Puts the front of a remark on the packet of this number behind `out`.
fn push_remark(out: &mut Vec<u8>, number: u64) -> Result<(), AllocError>
    ensures { OnOk result (out.new.items ≡ out.old.items ++ remark number []) }
{
    out.extend_from_slice(b"# packet ")?;
    push_decimal(out, number)?;
    out.push(b' ')?;
    Ok(())
}

// Puts the line of a packet that is passed over behind `out`.
fn push_passed(out: &mut Vec<u8>, number: u64, why: Skipped) -> Result<(), AllocError>
    ensures { OnOk result (out.new.items ≡ out.old.items ++ remark number (reason_text why)) }
{
    push_remark(out, number)?;
    push_reason(out, why)
}

// Puts the line of a packet that was seen at no known time behind `out`.
fn push_timeless(out: &mut Vec<u8>, number: u64) -> Result<(), AllocError>
    ensures { OnOk result (out.new.items ≡ out.old.items ++ remark number (codes "no time")) }
{
    push_remark(out, number)?;
    out.extend_from_slice(b"no time")
}

// Puts the seconds of this time and the bytes behind `out`.
fn push_stored(out: &mut Vec<u8>, time: u64, bytes: &[u8]) -> Result<(), AllocError>
    ensures { OnOk result (out.new.items ≡ out.old.items ++ (decimal (time / 1000000000) ++ 32 ∷ hex_of bytes.now)) }
{
    push_decimal(out, time / NANOSECONDS)?;
    out.push(b' ')?;
    push_hex(out, bytes)
}

/// What is judged of the datagram that begins here in a frame: its bytes there, but no more than those of the
/// longest datagram of either version of IP.
pub fn judged(frame: &[u8], first: usize) -> &[u8]
    requires { first ≤ length frame.now }
    ensures { result.now ≡ take longest_datagram (drop first frame.now) }
{
    let behind = &frame[first..];
    &behind[..LONGEST_DATAGRAM.min(behind.len())]
}

// Puts the line of a packet behind `out`, whose frame has this datagram, or none for this reason.
fn push_line(
    out: &mut Vec<u8>,
    number: u64,
    time: Option<u64>,
    frame: &[u8],
    found: Result<FoundDatagram, Skipped>,
) -> Result<(), AllocError>
    requires { IfOk found (λ d. (d.first ≤ d.after) × (d.after ≤ length frame.now)) }
    ensures { OnOk result (out.new.items ≡ out.old.items ++ line_by number time (found_in frame.now found)) }
{
    match found {
        Err(why) => push_passed(out, number, why),
        Ok(datagram) => match time {
            None => push_timeless(out, number),
            Some(time) => push_stored(out, time, judged(frame, datagram.first)),
        },
    }
}

/// Makes `line` the line of the packet that the reader shows, with its newline. Where memory runs out a part
/// of it may stand there.
pub(crate) fn print_line(line: &mut Vec<u8>, reader: &CaptureReader) -> Result<(), AllocError>
    requires { IsSome reader.now.packet }
    ensures { OnOk result (IfSome reader.now.packet (λ p. line.new.items ≡ packet_line p ++ 10 ∷ [])) }
{
    line.clear();
    push_line(
        line,
        reader.number(),
        reader.time(),
        reader.frame(),
        reader.datagram(),
    )?;
    line.push(b'\n')?;
    Ok(())
}
