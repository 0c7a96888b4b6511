//! The text of a pcap file's fault.
ghost use Rattle.std.specs.Prelude.{◌≡◌, IfOk};
ghost use Rattle.book_pcap.specs.Packets.{BadHead, BadRecord};
ghost use Rattle.book_answer.specs.Answers.{head_fault_text, pcap_fault_line, refusal};
ghost use Rattle.ao_run.specs.Stops.{Stopped};

use crate::stop::Stop;
use book_base::Bytes;
use pcap_file::HeadFault;
use std::alloc::{AllocError, Global};
use text_lines::{push_newline, push_number, push_text};

fn head_fault_word(fault: HeadFault) -> &'static [u8]
    ensures { result.now ≡ head_fault_text fault }
{
    match fault {
        HeadFault::Short => b"short",
        HeadFault::Magic => b"magic",
        HeadFault::Version => b"version",
        HeadFault::LinkType => b"link-type",
    }
}

fn print_head_fault(alloc: Global, fault: HeadFault) -> Result<Bytes, AllocError>
    ensures { IfOk result (λ text. text ≡ pcap_fault_line (BadHead fault)) }
{
    let mut text = Vec::from_slice(alloc, b"input: pcap")?;
    push_text(&mut text, head_fault_word(fault))?;
    push_newline(&mut text)?;
    Ok(Bytes::from_vec(text))
}

fn print_record_fault(alloc: Global, number: u32) -> Result<Bytes, AllocError>
    ensures { IfOk result (λ text. text ≡ pcap_fault_line (BadRecord number)) }
{
    let mut text = Vec::from_slice(alloc, b"input: pcap record")?;
    push_number(&mut text, u64::from(number))?;
    push_newline(&mut text)?;
    Ok(Bytes::from_vec(text))
}

/// Why a file whose header is refused has no more output.
pub(crate) fn of_head(alloc: Global, fault: HeadFault) -> Stop
    ensures { Stopped result (refusal 4 (pcap_fault_line (BadHead fault))) }
{
    match print_head_fault(alloc, fault) {
        Ok(text) => Stop::Input(text),
        Err(_) => Stop::Memory,
    }
}

/// Why a file whose record of this number is faulty has no more output.
pub(crate) fn of_record(alloc: Global, number: u32) -> Stop
    ensures { Stopped result (refusal 4 (pcap_fault_line (BadRecord number))) }
{
    match print_record_fault(alloc, number) {
        Ok(text) => Stop::Input(text),
        Err(_) => Stop::Memory,
    }
}
