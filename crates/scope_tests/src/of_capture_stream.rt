//! Captures, part by part.
ghost use Rattle.std.specs.Prelude.{◌≡◌, false};

use crate::files::{PCAP, PCAPNG};
use ao_base::MemSource;
use book_base::{Bytes, Numbers};
use capture_walk::{CaptureHalt, CaptureReader, CaptureStep};
use std::alloc::{AllocError, Global};
use std::test::Fail;

/// What a reading to the end of a capture came to: its last answer, and how many blocks were passed over.
#[derive(Clone, Copy, PartialEq, Eq)]
struct Walked {
    end: Result<CaptureStep, CaptureHalt>,
    passed: u64,
}

/// Reads on to the first answer that is neither a packet nor a block.
fn go_on(reader: &mut CaptureReader, input: &mut MemSource) -> Result<CaptureStep, CaptureHalt>
    requires { reader.old.over ≡ false }
{
    'parts: loop {
        match reader.next(input) {
            Ok(CaptureStep::Packet) => {}
            Ok(CaptureStep::Block) => continue 'parts,
            Ok(CaptureStep::End) => return Ok(CaptureStep::End),
            Err(halt) => return Err(halt),
        }
    }
}

/// Reads a capture in pieces of three bytes.
fn walk(alloc: Global, file: &[u8]) -> Result<Walked, AllocError> {
    let content = Bytes::from_vec(Vec::from_slice(alloc, file)?);
    let mut input = MemSource::new(content, 3, Numbers::from_vec(Vec::new(alloc)));
    let mut reader = CaptureReader::new(alloc)?;
    let end = go_on(&mut reader, &mut input);
    Ok(Walked {
        end,
        passed: reader.passed(),
    })
}

fn expect(walked: Walked, wanted: Walked) -> Result<(), Fail> {
    if walked == wanted {
        return Ok(());
    }
    Err(Fail::from(walked.passed))
}

#[test]
fn a_classic_file_is_read_to_its_end(rt: HostRuntime) -> Result<(), Fail> {
    let end = Ok(CaptureStep::End);
    expect(walk(rt.alloc(), PCAP)?, Walked { end, passed: 0 })
}

#[test]
fn a_block_of_another_kind_is_passed_over(rt: HostRuntime) -> Result<(), Fail> {
    let end = Ok(CaptureStep::End);
    expect(walk(rt.alloc(), PCAPNG)?, Walked { end, passed: 1 })
}
