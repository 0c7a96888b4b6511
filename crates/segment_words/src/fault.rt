//! Why bytes are no datagram.
ghost use Rattle.std.specs.Prelude.{◌≡◌, ◌++◌, ◌∷◌, OnOk, decimal};
ghost use Rattle.book_segments.specs.Faults.{fault_text};

use ao_base::push_decimal;
use book_segments::{DatagramFault, OptionFault};
use std::alloc::AllocError;

/// Puts this text and a place in a datagram behind `out`.
fn push_place(out: &mut Vec<u8>, text: &[u8], place: u8) -> Result<(), AllocError>
    ensures { OnOk result (out.new.items ≡ out.old.items ++ (text.now ++ decimal place)) }
{
    out.extend_from_slice(text)?;
    push_decimal(out, u64::from(place))
}

/// Puts the text of a fault behind `out`, with the place of a faulty option. Where memory runs out, a
/// part of it may stand there.
pub fn push_fault_text(out: &mut Vec<u8>, fault: DatagramFault) -> Result<(), AllocError>
    ensures { OnOk result (out.new.items ≡ out.old.items ++ fault_text fault) }
{
    match fault {
        DatagramFault::Truncated => out.extend_from_slice(b"truncated"),
        DatagramFault::Version => out.extend_from_slice(b"version"),
        DatagramFault::HeaderLength => out.extend_from_slice(b"header-length"),
        DatagramFault::HeaderChecksum => out.extend_from_slice(b"header-checksum"),
        DatagramFault::Fragment => out.extend_from_slice(b"fragment"),
        DatagramFault::NotTcp => out.extend_from_slice(b"not-tcp"),
        DatagramFault::ExtensionHeader => out.extend_from_slice(b"extension-header"),
        DatagramFault::DataOffset => out.extend_from_slice(b"data-offset"),
        DatagramFault::BadOption(OptionFault::ShortLength(place)) => {
            push_place(out, b"option short-length ", place)
        }
        DatagramFault::BadOption(OptionFault::PastEnd(place)) => {
            push_place(out, b"option past-end ", place)
        }
    }
}

/// Puts a space and the text of a fault behind `out`, with the place of a faulty option. Where memory
/// runs out, a part of it may stand there.
pub fn push_fault(out: &mut Vec<u8>, fault: DatagramFault) -> Result<(), AllocError>
    ensures { OnOk result (out.new.items ≡ out.old.items ++ 32 ∷ fault_text fault) }
{
    out.push(b' ')?;
    push_fault_text(out, fault)
}
