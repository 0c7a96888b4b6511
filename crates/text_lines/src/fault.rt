//! The text of a fault.
ghost use Rattle.std.specs.Prelude.{◌≡◌, ◌++◌, ◌∷◌, [], OnOk, IfOk, codes, decimal};
ghost use Rattle.book_lines.specs.Faults.{input_fault_text, kind_text};
ghost use Rattle.book_lines.specs.Texts.{line_text, spaced};

use crate::texts::{push_newline, push_number, push_text};
use book_base::Bytes;
use book_lines::{LineKind, TextFault};
use std::alloc::{AllocError, Global};

fn kind_name(kind: LineKind) -> &'static [u8]
    ensures { result.now ≡ kind_text kind }
{
    match kind {
        LineKind::Word => b"word",
        LineKind::Number => b"number",
        LineKind::Hex => b"hex",
        LineKind::Range => b"range",
        LineKind::Header => b"header",
        LineKind::Shared => b"shared",
    }
}

fn push_place(out: &mut Vec<u8>, number: u32, kind: LineKind) -> Result<(), AllocError>
    ensures { OnOk result (out.new.items ≡ out.old.items ++ spaced (decimal number ∷ kind_text kind ∷ [])) }
{
    push_number(out, u64::from(number))?;
    push_text(out, kind_name(kind))
}

fn push_line(out: &mut Vec<u8>, number: u32, kind: LineKind) -> Result<(), AllocError>
    ensures { OnOk result (out.new.items ≡ out.old.items ++ line_text
        (codes "input: line" ∷ decimal number ∷ kind_text kind ∷ [])) }
{
    out.extend_from_slice(b"input: line")?;
    push_place(out, number, kind)?;
    push_newline(out)
}

fn push_fault(out: &mut Vec<u8>, fault: &TextFault) -> Result<(), AllocError>
    ensures { OnOk result (out.new.items ≡ out.old.items ++ input_fault_text fault.now) }
{
    match fault {
        TextFault::Memory => out.extend_from_slice(b"memory\n"),
        TextFault::TooManyLines => out.extend_from_slice(b"input: too many lines\n"),
        TextFault::Line(number, kind) => push_line(out, *number, *kind),
    }
}

/// The text that says why an input of lines isn't read.
pub fn print_fault(alloc: Global, fault: &TextFault) -> Result<Bytes, AllocError>
    ensures { IfOk result (λ text. text ≡ input_fault_text fault.now) }
{
    let mut text = Vec::new(alloc);
    push_fault(&mut text, fault)?;
    Ok(Bytes::from_vec(text))
}
