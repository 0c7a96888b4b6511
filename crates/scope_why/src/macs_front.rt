//! What a MAC is computed over in front of the payload.
ghost use Rattle.std.specs.Prelude.{◌≡◌, ◌≤◌, ◌<◌, ◌+◌, [], ◌∷◌, ◌++◌, OnOk, IfOk, true, false, length};
ghost use Rattle.book_segments.specs.Bytes.{put2, put4};
ghost use Rattle.book_segments.specs.Options.{One, find_ao};
ghost use Rattle.book_segments.specs.Segments.{header, pseudo, tcp_length};
ghost use Rattle.book_segments.specs.Spelling.{Fits};
ghost use Rattle.book_why.specs.Recipes.{behind_pseudo, covered_with};
ghost use Rattle.tcp_segment.specs.Views.{view_ao};
ghost use Rattle.scope_why.specs.MacsViews.{front_made, choices_view};

use crate::choices::MacChoices;
use book_base::Address;
use std::alloc::{AllocError, Global};
use tcp_segment::{AO_HEAD, AO_KIND, AoOption, Datagram, TCP_PROTOCOL};

pub(crate) fn push_piece(out: &mut Vec<u8>, piece: &[u8]) -> Result<(), AllocError>
    ensures { OnOk result (out.new.items ≡ out.old.items ++ piece.now) }
{
    out.extend_from_slice(piece)
}

#[tactic(auto, unfolding(book_segments::specs::Bytes::put2))]
fn two(number: u16) -> [u8; 2]
    ensures { result ≡ put2 number [] }
{
    [(number / 0x100 % 0x100) as u8, (number % 0x100) as u8]
}

#[tactic(auto, unfolding(book_segments::specs::Bytes::put4))]
fn four(number: u64) -> [u8; 4]
    ensures { result ≡ put4 number [] }
{
    [
        (number / 0x1000000 % 0x100) as u8,
        (number / 0x10000 % 0x100) as u8,
        (number / 0x100 % 0x100) as u8,
        (number % 0x100) as u8,
    ]
}

pub(crate) fn push_two(out: &mut Vec<u8>, number: u16) -> Result<(), AllocError>
    ensures { OnOk result (out.new.items ≡ out.old.items ++ put2 number []) }
{
    push_piece(out, &two(number))
}

pub(crate) fn push_four(out: &mut Vec<u8>, number: u64) -> Result<(), AllocError>
    ensures { OnOk result (out.new.items ≡ out.old.items ++ put4 number []) }
{
    push_piece(out, &four(number))
}

fn tcp_length_of(datagram: &Datagram<'_>) -> u16
    ensures length { result ≡ tcp_length datagram.now }
    ensures fits { Fits datagram.now }
    ensures short { result < 65536 }
{
    (20 + datagram.options().area().len() + datagram.payload().len()) as u16
}

// A pseudo-header: two addresses, and what stands behind them.
fn push_addressed(
    out: &mut Vec<u8>,
    source: &[u8],
    destination: &[u8],
    tail: &[u8],
) -> Result<(), AllocError>
    ensures { OnOk result (out.new.items ≡ out.old.items ++ (source.now ++ (destination.now ++ tail.now))) }
{
    push_piece(out, source)?;
    push_piece(out, destination)?;
    push_piece(out, tail)?;
    Ok(())
}

// The pseudo-header (RFC 9293, section 3.1; RFC 8200, section 8.1).
pub(crate) fn push_pseudo(out: &mut Vec<u8>, datagram: &Datagram<'_>) -> Result<(), AllocError>
    ensures { OnOk result (out.new.items ≡ out.old.items ++ pseudo datagram.now []) }
{
    let length = tcp_length_of(datagram);
    let [high, low] = length.to_be_bytes();
    match (datagram.source().address, datagram.destination().address) {
        (Address::V4(source), Address::V4(destination)) => {
            push_addressed(out, &source, &destination, &[0, TCP_PROTOCOL, high, low])
        }
        (Address::V6(source), Address::V6(destination)) => {
            let tail = [0, 0, high, low, 0, 0, 0, TCP_PROTOCOL];
            push_addressed(out, &source, &destination, &tail)
        }
        _ => unreachable!(),
    }
}

// The TCP header with this checksum (RFC 9293, section 3.1).
pub(crate) fn push_header(
    out: &mut Vec<u8>,
    datagram: &Datagram<'_>,
    checksum: u16,
) -> Result<(), AllocError>
    ensures { OnOk result (out.new.items ≡ out.old.items ++ header datagram.now checksum []) }
{
    let header = datagram.header();
    push_piece(out, &header[..16])?;
    push_two(out, checksum)?;
    push_piece(out, &header[18..])?;
    Ok(())
}

// All options, with these bytes in the MAC's place.
fn push_all_options(
    out: &mut Vec<u8>,
    area: &[u8],
    ao: AoOption<'_>,
    mac: &[u8],
) -> Result<(), AllocError>
    requires within { ao.place + 4 + length ao.mac.now ≤ length area.now }
    requires room { length area.now ≤ 40 }
    ensures { OnOk result (out.new.items ≡ out.old.items ++ covered_with true area.now (view_ao ao.entry) mac.now) }
{
    let length = ao.mac.len();
    let front = ao.place as usize + 4;
    push_piece(out, &area[..front])?;
    push_piece(out, mac)?;
    push_piece(out, &area[front + length..])?;
    Ok(())
}

// The TCP-AO option alone, with these bytes in the MAC's place.
fn push_own_option(
    out: &mut Vec<u8>,
    area: &[u8],
    ao: AoOption<'_>,
    mac: &[u8],
) -> Result<(), AllocError>
    requires within { ao.place + 4 + length ao.mac.now ≤ length area.now }
    requires room { length area.now ≤ 40 }
    ensures { OnOk result (out.new.items ≡ out.old.items ++ covered_with false area.now (view_ao ao.entry) mac.now) }
{
    let length = ao.mac.len();
    push_piece(out, &[AO_KIND, AO_HEAD + length as u8, ao.key_id, ao.rnext])?;
    push_piece(out, mac)?;
    Ok(())
}

// The options that the MAC covers, with these bytes in its place (RFC 5925, section 5.1).
pub(crate) fn push_covered(
    out: &mut Vec<u8>,
    area: &[u8],
    ao: AoOption<'_>,
    with_options: bool,
    mac: &[u8],
) -> Result<(), AllocError>
    requires within { ao.place + 4 + length ao.mac.now ≤ length area.now }
    requires room { length area.now ≤ 40 }
    ensures { OnOk result (out.new.items ≡ out.old.items ++ covered_with with_options area.now (view_ao ao.entry)
        mac.now) }
{
    if with_options {
        push_all_options(out, area, ao, mac)
    } else {
        push_own_option(out, area, ao, mac)
    }
}

// The pseudo-header and the header.
fn push_both_headers(
    out: &mut Vec<u8>,
    datagram: &Datagram<'_>,
    checksum: u16,
) -> Result<(), AllocError>
    ensures { OnOk result (out.new.items ≡ out.old.items ++ pseudo datagram.now (header datagram.now checksum [])) }
{
    push_pseudo(out, datagram)?;
    push_header(out, datagram, checksum)?;
    Ok(())
}

// The pseudo-header, where it is there, and the header.
fn push_headers(
    out: &mut Vec<u8>,
    present: bool,
    datagram: &Datagram<'_>,
    checksum: u16,
) -> Result<(), AllocError>
    ensures { OnOk result (out.new.items ≡ out.old.items ++ behind_pseudo present datagram.now
        (header datagram.now checksum [])) }
{
    if present {
        push_both_headers(out, datagram, checksum)
    } else {
        push_header(out, datagram, checksum)
    }
}

// The front up to the options: the extension, the pseudo-header where it is there, the header.
fn push_head(
    out: &mut Vec<u8>,
    choices: &MacChoices,
    datagram: &Datagram<'_>,
) -> Result<(), AllocError>
    ensures { OnOk result (out.new.items ≡ out.old.items ++ put4 choices.now.extension
        (behind_pseudo choices.now.pseudo_header datagram.now (header datagram.now choices.now.checksum []))) }
{
    push_four(out, choices.extension)?;
    push_headers(out, choices.pseudo_header, datagram, choices.checksum)?;
    Ok(())
}

/// What a MAC is computed over in front of the payload, by these choices (RFC 5925, section 5.1).
pub(crate) fn front_of(
    alloc: Global,
    choices: &MacChoices,
    datagram: &Datagram<'_>,
    ao: AoOption<'_>,
) -> Result<Vec<u8>, AllocError>
    requires { find_ao datagram.now.area ≡ One (view_ao ao) }
    ensures { IfOk result (λ front. front.items ≡ front_made (choices_view choices.now) datagram.now
        (view_ao ao.entry)) }
{
    let mut out = Vec::new(alloc);
    let options = datagram.options();
    push_head(&mut out, choices, datagram)?;
    push_covered(
        &mut out,
        options.area(),
        ao,
        choices.with_options,
        choices.mac_bytes.as_slice(),
    )?;
    Ok(out)
}
