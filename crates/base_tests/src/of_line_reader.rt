//! Lines of sources that come in pieces, are too long or fail.
ghost use Rattle.std.specs.Prelude.{◌≡◌, ◌≤◌, false, IsSome, OnOk};

use ao_base::{LineReader, LineStep, MemSource};
use book_base::{Bytes, Numbers};
use std::alloc::{AllocError, Global};
use std::test::Fail;

fn source(alloc: Global, text: &[u8], piece: u32, failing: &[u64]) -> Result<MemSource, AllocError>
    requires { 1 ≤ piece }
{
    let failing = Numbers::from_vec(Vec::from_slice(alloc, failing)?);
    let content = Bytes::from_vec(Vec::from_slice(alloc, text)?);
    Ok(MemSource::new(content, piece, failing))
}

/// Shows the next line; else what the reader answers in its place.
fn show_next(reader: &mut LineReader, src: &mut MemSource) -> Result<(), LineStep>
    requires { reader.old.over ≡ false }
    ensures over { OnOk result (reader.new.over ≡ false) }
    ensures line { OnOk result (IsSome reader.new.line) }
{
    match reader.next(src) {
        LineStep::Line => Ok(()),
        LineStep::End => Err(LineStep::End),
        LineStep::Fault => Err(LineStep::Fault),
        LineStep::TooLong => Err(LineStep::TooLong),
        LineStep::LongLine => Err(LineStep::LongLine),
    }
}

/// Each line with a bar behind it, and then the last answer.
fn read(
    alloc: Global,
    src: &mut MemSource,
    longest: u32,
    most: u64,
) -> Result<(Vec<u8>, LineStep), AllocError> {
    let mut reader = LineReader::new(alloc, longest, most)?;
    let mut out = Vec::new(alloc);
    'lines: for _ in 0..20 {
        match show_next(&mut reader, src) {
            Ok(()) => {
                out.extend_from_slice(reader.line())?;
                out.push(b'|')?;
            }
            Err(step) => return Ok((out, step)),
        }
    }
    Ok((out, LineStep::Line))
}

/// Whether three lines, the second of which is empty and the last of which lacks its newline, are read
/// from this source as these, with a bar behind each, and this is the last answer.
fn three_are(
    alloc: Global,
    source: MemSource,
    longest: u32,
    most: u64,
    lines: &[u8],
    last: LineStep,
) -> Result<bool, AllocError> {
    let mut src = source;
    let (out, step) = read(alloc, &mut src, longest, most)?;
    Ok(out.as_slice() == lines && step == last)
}

fn three(alloc: Global, piece: u32, failing: &[u64]) -> Result<MemSource, AllocError>
    requires { 1 ≤ piece }
{
    source(alloc, b"one\n\nlast".as_slice(), piece, failing)
}

#[test]
fn lines_come_in_order(rt: HostRuntime) -> Result<(), Fail> {
    let src = three(rt.alloc(), 2, &[])?;
    assert!(rt; three_are(rt.alloc(), src, 4, 9, b"one||last|", LineStep::End)?);
    Ok(())
}

#[test]
fn limits_and_a_fault_end_it(rt: HostRuntime) -> Result<(), Fail> {
    let src = three(rt.alloc(), 2, &[])?;
    assert!(rt; three_are(rt.alloc(), src, 4, 8, b"one||", LineStep::TooLong)?);
    let src = three(rt.alloc(), 9, &[])?;
    assert!(rt; three_are(rt.alloc(), src, 3, 9, b"one||", LineStep::LongLine)?);
    let src = three(rt.alloc(), 2, &[3])?;
    assert!(rt; three_are(rt.alloc(), src, 4, 9, b"one|", LineStep::Fault)?);
    Ok(())
}

/// Seven lines of 9,999 bytes, and one of three without its newline.
fn long_lines(alloc: Global) -> Result<Vec<u8>, AllocError> {
    let mut text = Vec::new(alloc);
    for _ in 0..7 {
        for _ in 0..9999 {
            text.push(b'a')?;
        }
        text.push(b'\n')?;
    }
    text.extend_from_slice(b"end".as_slice())?;
    Ok(text)
}

#[test]
fn a_line_is_moved_to_the_front(rt: HostRuntime) -> Result<(), Fail> {
    let text = long_lines(rt.alloc())?;
    let mut src = source(rt.alloc(), text.as_slice(), 4000, &[])?;
    let (out, step) = read(rt.alloc(), &mut src, 9999, 80000)?;
    assert!(rt; out.len() == 70004 && out.ends_with(b"|end|".as_slice()));
    assert!(rt; step == LineStep::End);
    Ok(())
}

/// Shows the next line; fails where it is another than this, or lacks its newline and shouldn't.
fn expect_next(
    reader: &mut LineReader,
    src: &mut MemSource,
    line: &[u8],
    is_lacking: bool,
) -> Result<(), Fail>
    requires { reader.old.over ≡ false }
    ensures { OnOk result (reader.new.over ≡ false) }
{
    match show_next(reader, src) {
        Ok(()) => {}
        Err(_step) => return Err(Fail::from("no line")),
    }
    if reader.line() != line || reader.lacks_newline() != is_lacking {
        return Err(Fail::from("another line"));
    }
    Ok(())
}

/// Shows the line of the first source, which lacks its newline, and then the only one of the second.
fn expect_both(
    reader: &mut LineReader,
    first: &mut MemSource,
    second: &mut MemSource,
) -> Result<(), Fail>
    requires { reader.old.over ≡ false }
{
    expect_next(reader, first, b"one".as_slice(), true)?;
    expect_next(reader, second, b"two".as_slice(), false)?;
    match show_next(reader, second) {
        Err(LineStep::End) => Ok(()),
        _ => Err(Fail::from("the second source doesn't end")),
    }
}

#[test]
fn behind_a_last_line_the_source_is_asked_again(rt: HostRuntime) -> Result<(), Fail> {
    let mut first = source(rt.alloc(), b"one".as_slice(), 2, &[])?;
    let mut second = source(rt.alloc(), b"two\n".as_slice(), 2, &[])?;
    let mut reader = LineReader::new(rt.alloc(), 4, 9)?;
    expect_both(&mut reader, &mut first, &mut second)
}
