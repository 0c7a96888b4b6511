//! The fields of a datagram as text.
ghost use Rattle.std.specs.Prelude.{◌≡◌, ◌++◌, ◌∷◌, [], OnOk, IfOk, codes, decimal, length, map};
ghost use Rattle.book_base.specs.Hexadecimal.{hex_of};
ghost use Rattle.book_segments.specs.Options.{plains, listed, options_of};
ghost use Rattle.book_segments.specs.Segments.{reading};
ghost use Rattle.tcp_segment.specs.Views.{view_opt};
ghost use Rattle.book_lines.specs.Texts.{socket_texts, spaced};
ghost use Rattle.book_cmd_check.specs.DatagramTexts.{datagram_texts, family_text, number_texts, option_text};
ghost use Rattle.book_cmd_check.specs.DatagramTexts.{options_texts, rest_texts};
ghost use Rattle.book_cmd_check.specs.Show.{reading_texts};

use ao_base::{push_decimal, push_hex};
use book_base::Address;
use segment_words::{checksum_in, push_checksum, push_fault};
use std::alloc::{AllocError, Global};
use tcp_segment::{Datagram, Opt, OptionIter, read_datagram};
use text_lines::{push_bytes, push_field, push_socket, push_text};

fn family(address: &Address) -> &[u8]
    ensures { result.now ≡ family_text address.now }
{
    match address {
        Address::V4(_) => b"ipv4".as_slice(),
        Address::V6(_) => b"ipv6".as_slice(),
    }
}

/// The kind of an option, and from kind 2 on its body.
fn push_option(out: &mut Vec<u8>, option: Opt<'_>) -> Result<(), AllocError>
    ensures { OnOk result (out.new.items ≡ out.old.items ++ 32 ∷ option_text (view_opt option.entry)) }
{
    out.push(b' ')?;
    push_decimal(out, u64::from(option.kind))?;
    if option.kind >= 2 {
        out.push(b':')?;
        push_hex(out, option.body)?;
    }
    Ok(())
}

/// Puts the options behind `out`, with a space in front of each, or a space and a hyphen where there is none. Where
/// memory runs out a part of them may stand there.
pub fn push_options(out: &mut Vec<u8>, mut options: OptionIter<'_>) -> Result<(), AllocError>
    ensures { OnOk result (out.new.items ≡ out.old.items ++ spaced (options_texts options.entry)) }
{
    let Some(first) = options.next() else {
        return push_text(out, b"-");
    };
    push_option(out, first)?;
    push_others(out, options)
}

fn push_others(out: &mut Vec<u8>, mut options: OptionIter<'_>) -> Result<(), AllocError>
    ensures { OnOk result (out.new.items ≡ out.old.items ++ spaced (map option_text options.entry)) }
{
    while let Some(option) = options.next() {
        push_option(out, option)?;
    }
    Ok(())
}

/// Family, sender and receiver.
fn push_sockets(alloc: Global, out: &mut Vec<u8>, datagram: &Datagram<'_>) -> Result<(), AllocError>
    ensures { OnOk result (out.new.items ≡ out.old.items ++ spaced
        (family_text datagram.now.source.address ∷ socket_texts datagram.now.source
        (socket_texts datagram.now.destination []))) }
{
    let source = datagram.source();
    push_text(out, family(&source.address))?;
    push_socket(alloc, out, &source)?;
    push_socket(alloc, out, &datagram.destination())
}

/// Puts the numbers, the flags and the length of the payload of a datagram behind `out`, with a space in front of
/// each. Where memory runs out a part of them may stand there.
pub fn push_numbers(out: &mut Vec<u8>, datagram: &Datagram<'_>) -> Result<(), AllocError>
    ensures { OnOk result (out.new.items ≡ out.old.items ++ spaced (number_texts datagram.now [])) }
{
    push_field(out, b"seq", u64::from(datagram.sequence()))?;
    push_field(out, b"ack", u64::from(datagram.acknowledgement()))?;
    push_text(out, b"flags")?;
    push_bytes(out, &[datagram.flags()])?;
    push_field(out, b"window", u64::from(datagram.window()))?;
    push_field(out, b"urgent", u64::from(datagram.urgent()))?;
    push_field(out, b"len", datagram.payload().len() as u64)
}

/// Whether the checksum is right, and the options.
fn push_rest(out: &mut Vec<u8>, datagram: &Datagram<'_>) -> Result<(), AllocError>
    ensures { OnOk result (out.new.items ≡ out.old.items ++ spaced (rest_texts datagram.now)) }
{
    push_checksum(out, checksum_in(datagram))?;
    push_text(out, b"options")?;
    push_options(out, datagram.options().iter())
}

/// The fields of a datagram.
#[tactic(auto, unfolding(book_cmd_check::specs::DatagramTexts::datagram_texts))]
fn push_datagram(
    alloc: Global,
    out: &mut Vec<u8>,
    datagram: &Datagram<'_>,
) -> Result<(), AllocError>
    ensures { OnOk result (out.new.items ≡ out.old.items ++ spaced (datagram_texts datagram.now)) }
{
    push_sockets(alloc, out, datagram)?;
    push_numbers(out, datagram)?;
    push_rest(out, datagram)
}

/// The fields of the datagram that a prefix of the bytes is, or `bad` and why there is none.
pub(crate) fn push_reading(alloc: Global, out: &mut Vec<u8>, bytes: &[u8]) -> Result<(), AllocError>
    ensures { OnOk result (out.new.items ≡ out.old.items ++ spaced (reading_texts (reading bytes.now))) }
{
    match read_datagram(bytes) {
        Ok(datagram) => push_datagram(alloc, out, &datagram),
        Err(fault) => {
            push_text(out, b"bad")?;
            push_fault(out, fault)
        }
    }
}
