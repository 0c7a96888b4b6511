//! What is wrong with a capture, in words.
ghost use Rattle.std.specs.Prelude.{◌≡◌, ◌++◌, OnOk, decimal};
ghost use Rattle.book_captures.specs.FaultTexts.{header_fault_text, record_fault_text, block_fault_text};
ghost use Rattle.book_captures.specs.FaultTexts.{body_fault_text};
ghost use Rattle.book_captures.specs.FaultTexts.{part_text, cause_text, capture_fault_text};

use ao_base::push_decimal;
use capture_walk::{BlockFault, BodyFault, CaptureFault, Cause, PcapHeadFault, RecordFault};
use std::alloc::AllocError;

fn head_fault_name(why: PcapHeadFault) -> &'static [u8]
    ensures { result.now ≡ header_fault_text why }
{
    match why {
        PcapHeadFault::Short => b"the file ends in it",
        PcapHeadFault::Magic => b"neither pcap nor pcapng",
        PcapHeadFault::Version => b"its version is not 2.4",
    }
}

fn record_fault_name(why: RecordFault) -> &'static [u8]
    ensures { result.now ≡ record_fault_text why }
{
    match why {
        RecordFault::Short => b"the file ends in it",
        RecordFault::TooLong => b"it keeps more than 262144 bytes",
    }
}

fn block_fault_name(why: BlockFault) -> &'static [u8]
    ensures { result.now ≡ block_fault_text why }
{
    match why {
        BlockFault::Short => b"the file ends in it",
        BlockFault::NoSection => b"no section header is before it",
        BlockFault::Order => b"its byte-order magic is none",
        BlockFault::Length => b"its total length is none",
        BlockFault::TooLong => b"it has more than 16777216 bytes",
        BlockFault::Trailer => b"its two total lengths differ",
    }
}

fn body_fault_name(why: BodyFault) -> &'static [u8]
    ensures { result.now ≡ body_fault_text why }
{
    match why {
        BodyFault::Short => b"it is too short for its fields",
        BodyFault::Version => b"its major version is not 1",
        BodyFault::NoInterface => b"its interface is not described",
        BodyFault::TooManyInterfaces => b"its section has more than 4096 interfaces",
    }
}

fn cause_name(cause: Cause) -> &'static [u8]
    ensures { result.now ≡ cause_text cause }
{
    match cause {
        Cause::Head(why) => head_fault_name(why),
        Cause::Record(why) => record_fault_name(why),
        Cause::Block(why) => block_fault_name(why),
        Cause::Body(why) => body_fault_name(why),
    }
}

// Puts a text and a number behind `out`.
fn push_numbered(out: &mut Vec<u8>, text: &[u8], number: u64) -> Result<(), AllocError>
    ensures { OnOk result (out.new.items ≡ out.old.items ++ (text.now ++ decimal number)) }
{
    out.extend_from_slice(text)?;
    push_decimal(out, number)
}

// Puts which part of a file it is behind `out`.
fn push_part(out: &mut Vec<u8>, cause: Cause, number: u64) -> Result<(), AllocError>
    ensures { OnOk result (out.new.items ≡ out.old.items ++ part_text cause number) }
{
    match cause {
        Cause::Head(_) => out.extend_from_slice(b"header"),
        Cause::Record(_) => push_numbered(out, b"record ", number),
        Cause::Block(_) => push_numbered(out, b"block ", number),
        Cause::Body(_) => push_numbered(out, b"block ", number),
    }
}

/// Puts the text of a fault, with its newline, behind `out`: in which part of the file it is, at which byte
/// that begins, and what is wrong. Where memory runs out a part of it may stand there.
#[tactic(auto, unfolding(book_captures::specs::FaultTexts::capture_fault_text))]
pub fn push_fault(out: &mut Vec<u8>, fault: CaptureFault) -> Result<(), AllocError>
    ensures { OnOk result (out.new.items ≡ out.old.items ++ capture_fault_text fault) }
{
    out.extend_from_slice(b"input: ")?;
    push_part(out, fault.cause, fault.number)?;
    push_numbered(out, b", byte ", fault.byte)?;
    out.extend_from_slice(b": ")?;
    out.extend_from_slice(cause_name(fault.cause))?;
    out.push(b'\n')?;
    Ok(())
}
