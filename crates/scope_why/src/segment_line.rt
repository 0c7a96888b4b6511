//! The line of a segment.
ghost use Rattle.std.specs.Prelude.{◌≡◌, ◌++◌, ◌∷◌, ℕ, [], List, OnOk, codes, decimal};
ghost use Rattle.book_cmd_check.specs.DatagramTexts.{number_texts};
ghost use Rattle.book_lines.specs.Texts.{line_text, spaced};
ghost use Rattle.book_scope_texts.specs.Addresses.{usual_address_text};
ghost use Rattle.book_scope_texts.specs.Instants.{instant_text};
ghost use Rattle.book_segments.specs.Options.{find_ao};
ghost use Rattle.book_sessions.specs.OutcomeTexts.{passed_text};
ghost use Rattle.book_why.specs.Answers.{hex_or_hyphen, no_packet_line, no_segment_line, option_texts_of};
ghost use Rattle.book_why.specs.Answers.{segment_line};
ghost use Rattle.tcp_segment.specs.Views.{view_ao, view_found};

use ao_base::{push_decimal, push_hex};
use book_base::Socket;
use book_sessions::PassedOver;
use cmd_show::push_numbers;
use scope_sessions::{push_host, push_passed, push_time};
use std::alloc::AllocError;
use tcp_segment::{AoFound, AoOption, Datagram};
use text_lines::{push_field, push_newline, push_number, push_text};

fn push_bytes(out: &mut Vec<u8>, bytes: &[u8]) -> Result<(), AllocError>
    ensures { OnOk result (out.new.items ≡ out.old.items ++ hex_or_hyphen bytes.now) }
{
    match bytes {
        [] => out.extend_from_slice(b"-"),
        [_, ..] => push_hex(out, bytes),
    }
}

// The KeyID, the RNextKeyID and the MAC of an option.
fn push_option(out: &mut Vec<u8>, ao: AoOption<'_>) -> Result<(), AllocError>
    ensures { OnOk result (out.new.items ≡ out.old.items ++ spaced
        (codes "key" ∷ decimal ao.entry.key_id ∷ codes "asks" ∷ decimal ao.entry.rnext
        ∷ codes "mac" ∷ hex_or_hyphen ao.entry.mac.now ∷ [])) }
{
    push_field(out, b"key", u64::from(ao.key_id))?;
    push_field(out, b"asks", u64::from(ao.rnext))?;
    push_text(out, b"mac")?;
    out.push(b' ')?;
    push_bytes(out, ao.mac)
}

fn push_found(out: &mut Vec<u8>, found: AoFound<'_>) -> Result<(), AllocError>
    ensures { OnOk result (out.new.items ≡ out.old.items ++ spaced (option_texts_of (view_found found.entry))) }
{
    match found {
        AoFound::Absent => Ok(()),
        AoFound::Two => Ok(()),
        AoFound::WithMd5 => Ok(()),
        AoFound::One(ao) => push_option(out, ao),
    }
}

// Puts the address and the port behind `out`, with a space in front of each.
fn push_end(out: &mut Vec<u8>, socket: &Socket) -> Result<(), AllocError>
    ensures { OnOk result (out.new.items ≡ out.old.items ++ spaced
        (usual_address_text socket.now.address ∷ decimal socket.now.port ∷ [])) }
{
    push_host(out, &socket.address)?;
    push_number(out, u64::from(socket.port))
}

// The sockets of a segment.
fn push_ends(out: &mut Vec<u8>, source: &Socket, destination: &Socket) -> Result<(), AllocError>
    ensures { OnOk result (out.new.items ≡ out.old.items ++ spaced
        (usual_address_text source.now.address ∷ decimal source.now.port
        ∷ codes ">" ∷ usual_address_text destination.now.address ∷ decimal destination.now.port ∷ [])) }
{
    push_end(out, source)?;
    push_text(out, b">")?;
    push_end(out, destination)
}

// The number of a packet, and when it was seen.
fn push_seen(out: &mut Vec<u8>, number: u64, time: u64) -> Result<(), AllocError>
    ensures { OnOk result
        (out.new.items ≡ out.old.items
        ++ (codes "packet" ++ spaced (decimal number ∷ codes "at" ∷ instant_text time ∷ []))) }
{
    out.extend_from_slice(b"packet")?;
    push_number(out, number)?;
    push_text(out, b"at")?;
    push_time(out, time)
}

// The fields of a segment.
fn push_fields(out: &mut Vec<u8>, datagram: &Datagram<'_>) -> Result<(), AllocError>
    ensures { OnOk result
        (out.new.items ≡ out.old.items ++ (spaced (number_texts datagram.now [])
        ++ spaced (option_texts_of (find_ao datagram.now.area)))) }
{
    push_numbers(out, datagram)?;
    push_found(out, datagram.options().find_ao())
}

/// Puts the line of a segment behind `out`: its packet's number, when it was seen, in seconds since 1970, its
/// sockets and its fields. Where memory runs out a part of it may stand there.
pub(crate) fn push_segment_line(
    out: &mut Vec<u8>,
    number: u64,
    time: u64,
    datagram: &Datagram<'_>,
) -> Result<(), AllocError>
    ensures { (bytes : List ℕ)
        → OnOk result (out.new.items ≡ out.old.items ++ segment_line
        (record { number = number; time = time; bytes = bytes }) datagram.now) }
{
    push_seen(out, number, time)?;
    push_ends(out, &datagram.source(), &datagram.destination())?;
    push_fields(out, datagram)?;
    push_newline(out)
}

/// Puts the line of a packet that is no segment, for this reason, behind `out`. Where memory runs out a part of
/// it may stand there.
pub(crate) fn push_no_segment(
    out: &mut Vec<u8>,
    number: u64,
    why: PassedOver,
) -> Result<(), AllocError>
    ensures { OnOk result (out.new.items ≡ out.old.items ++ no_segment_line number why) }
{
    out.extend_from_slice(b"packet")?;
    push_number(out, number)?;
    push_text(out, b"other")?;
    out.push(b' ')?;
    push_passed(out, why)?;
    push_newline(out)
}

/// Puts the line behind `out` where a capture of so many packets has none of this number. Where memory runs out
/// a part of it may stand there.
pub(crate) fn push_no_packet(out: &mut Vec<u8>, number: u64, count: u64) -> Result<(), AllocError>
    ensures { OnOk result (out.new.items ≡ out.old.items ++ no_packet_line number count) }
{
    out.extend_from_slice(b"no packet ")?;
    push_decimal(out, number)?;
    out.extend_from_slice(b" of ")?;
    push_decimal(out, count)?;
    push_newline(out)
}
