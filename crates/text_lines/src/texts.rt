//! Texts put behind one another, with a space in front of each. Where memory runs out, a part of
//! them may stand there.
ghost use Rattle.std.specs.Prelude.{◌≡◌, ◌++◌, ◌∷◌, [], OnOk, decimal};
ghost use Rattle.book_base.specs.Hexadecimal.{hex_of};
ghost use Rattle.book_lines.specs.Texts.{end_text, socket_texts, spaced};

use ao_base::{print_address, push_decimal, push_hex};
use book_base::{End, Socket};
use std::alloc::{AllocError, Global};

/// Puts a space and the text behind `out`.
pub fn push_text(out: &mut Vec<u8>, text: &[u8]) -> Result<(), AllocError>
    ensures { OnOk result (out.new.items ≡ out.old.items ++ 32 ∷ text.now) }
{
    out.push(b' ')?;
    out.extend_from_slice(text)
}

/// Puts a space and the number in decimal behind `out`.
pub fn push_number(out: &mut Vec<u8>, number: u64) -> Result<(), AllocError>
    ensures { OnOk result (out.new.items ≡ out.old.items ++ 32 ∷ decimal number) }
{
    out.push(b' ')?;
    push_decimal(out, number)
}

/// Puts the name and the number behind `out`, with a space in front of each.
pub fn push_field(out: &mut Vec<u8>, name: &[u8], number: u64) -> Result<(), AllocError>
    ensures { OnOk result (out.new.items ≡ out.old.items ++ spaced (name.now ∷ decimal number ∷ [])) }
{
    push_text(out, name)?;
    push_number(out, number)
}

/// Puts a space and the bytes in hexadecimal behind `out`.
pub fn push_bytes(out: &mut Vec<u8>, bytes: &[u8]) -> Result<(), AllocError>
    ensures { OnOk result (out.new.items ≡ out.old.items ++ 32 ∷ hex_of bytes.now) }
{
    out.push(b' ')?;
    push_hex(out, bytes)
}

/// Puts a space and the name of the end, `a` or `b`, behind `out`.
pub fn push_end(out: &mut Vec<u8>, end: End) -> Result<(), AllocError>
    ensures { OnOk result (out.new.items ≡ out.old.items ++ 32 ∷ end_text end) }
{
    match end {
        End::A => push_text(out, b"a"),
        End::B => push_text(out, b"b"),
    }
}

/// Puts the address and the port behind `out`, with a space in front of each.
pub fn push_socket(alloc: Global, out: &mut Vec<u8>, socket: &Socket) -> Result<(), AllocError>
    ensures { OnOk result (out.new.items ≡ out.old.items ++ spaced (socket_texts socket.now [])) }
{
    let address = print_address(alloc, &socket.address)?;
    push_text(out, address.as_slice())?;
    push_number(out, u64::from(socket.port))
}

/// Puts a newline behind `out`.
pub fn push_newline(out: &mut Vec<u8>) -> Result<(), AllocError>
    ensures { OnOk result (out.new.items ≡ out.old.items ++ 10 ∷ []) }
{
    out.push(b'\n')?;
    Ok(())
}
