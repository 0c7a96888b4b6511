//! The context of a traffic key, and what the key derivation hashes.
ghost use Rattle.std.specs.Prelude.{◌≡◌, [], ◌++◌, OnOk, IfOk};
ghost use Rattle.book_macs.specs.Keys.{derivation_input};
ghost use Rattle.book_macs.specs.Contexts.{context};
ghost use Rattle.book_segments.specs.Bytes.{put2, put4};
ghost use Rattle.book_segments.specs.Sockets.{octets};

use crate::choices::MacChoices;
use crate::macs_front::{push_four, push_piece, push_two};
use book_base::{Address, Socket};
use std::alloc::{AllocError, Global};

fn push_address(out: &mut Vec<u8>, address: &Address) -> Result<(), AllocError>
    ensures { OnOk result (out.new.items ≡ out.old.items ++ octets address.now) }
{
    match address {
        Address::V4(bytes) => out.extend_from_slice(bytes),
        Address::V6(bytes) => out.extend_from_slice(bytes),
    }
}

fn push_addresses(
    out: &mut Vec<u8>,
    source: &Socket,
    destination: &Socket,
) -> Result<(), AllocError>
    ensures { OnOk result
        (out.new.items ≡ out.old.items ++ (octets source.now.address ++ octets destination.now.address)) }
{
    push_address(out, &source.address)?;
    push_address(out, &destination.address)
}

fn push_ports(out: &mut Vec<u8>, source: &Socket, destination: &Socket) -> Result<(), AllocError>
    ensures { OnOk result (out.new.items ≡ out.old.items ++ put2 source.now.port (put2 destination.now.port [])) }
{
    push_two(out, source.port)?;
    push_two(out, destination.port)?;
    Ok(())
}

fn push_isns(out: &mut Vec<u8>, source_isn: u32, destination_isn: u32) -> Result<(), AllocError>
    ensures { OnOk result (out.new.items ≡ out.old.items ++ put4 source_isn (put4 destination_isn [])) }
{
    push_four(out, source_isn as u64)?;
    push_four(out, destination_isn as u64)?;
    Ok(())
}

/// Puts the context behind `out` (RFC 5925, section 5.2).
pub(crate) fn push_context(out: &mut Vec<u8>, choices: &MacChoices) -> Result<(), AllocError>
    ensures { OnOk result (out.new.items ≡ out.old.items ++ context choices.now.source choices.now.destination
        choices.now.source_isn choices.now.destination_isn) }
{
    push_addresses(out, &choices.source, &choices.destination)?;
    push_ports(out, &choices.source, &choices.destination)?;
    push_isns(out, choices.source_isn, choices.destination_isn)?;
    Ok(())
}

/// What the key derivation hashes (RFC 5926, section 3.1).
pub(crate) fn derivation_of(alloc: Global, choices: &MacChoices) -> Result<Vec<u8>, AllocError>
    ensures { IfOk result (λ bytes. bytes.items ≡ derivation_input
        (context choices.now.source choices.now.destination choices.now.source_isn choices.now.destination_isn)
        choices.now.output_length) }
{
    let mut out = Vec::new(alloc);
    push_piece(&mut out, b"\x01TCP-AO")?;
    push_context(&mut out, choices)?;
    push_two(&mut out, choices.output_length)?;
    Ok(out)
}
