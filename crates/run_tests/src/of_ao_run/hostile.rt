//! Failing reads and writes, small pieces and a full output, as one table: what is answered, and that
//! nothing else happens. Each row is a run of the top call.
use super::check::{expect_checked, thirteen};
use super::halting::expect_halting;
use super::{Case, Disturbed, expect_disturbed, in_pieces, one_row, undisturbed, usage};
use std::alloc::Global;
use std::test::Fail;

/// A link file in which five bytes arrive, of 187 bytes.
fn five_bytes() -> &'static [u8] {
    b"aotcp-link 1
a 10.0.0.1 1000
b 10.0.0.2 2000
shared HMAC-SHA-1-96 0b0b0b0b0b0b0b0b0b0b0b0b0b0b0b0b0b0b0b0b
start a 100 200
start b 200 100
give a 68656c6c6f
send a
deliver b 1
take b 100
"
}

/// The report of that run, of 243 bytes.
fn report() -> &'static [u8] {
    b"1 ok
2 ok
3 ok
4 sent 1 AP seq 101 ack 201 len 5 key 0 next 0
5 taken
6 took 68656c6c6f
session a 1 isn 100 peer 200 established given 5 delivered 0 open
session b 1 isn 200 peer 100 established given 0 delivered 5 open
segments 1 forgeries 0
"
}

/// What the run in which five bytes arrive is to leave.
fn five<'a>(status: u8, out: &'a [u8], err: &'a [u8]) -> Case<'a> {
    Case {
        words: &[b"link"],
        keys: b"",
        input: five_bytes(),
        status,
        out,
        err,
    }
}

#[test]
fn each_read_that_fails_leaves_nothing_written(rt: HostRuntime) -> Result<(), Fail> {
    // 187 bytes are nineteen reads, and one more that shows the end.
    for read in 1..21 {
        expect_halting(rt.alloc(), five(5, b"", b"read fault\n"), read, 0)?;
    }
    expect_halting(rt.alloc(), five(0, report(), b""), 21, 0)
}

/// The write with that number fails: those before it have written ten bytes each.
fn expect_unwritten(alloc: Global, write: u64) -> Result<(), Fail> {
    let length = 10 * (write.saturating_sub(1) as usize).min(24);
    let front = report().get(..length).unwrap_or(b"");
    expect_halting(alloc, five(6, front, b"write fault\n"), 0, write)
}

#[test]
fn each_write_that_fails_leaves_a_front_part(rt: HostRuntime) -> Result<(), Fail> {
    // 243 bytes are twenty-five writes.
    for write in 1..26 {
        expect_unwritten(rt.alloc(), write)?;
    }
    expect_halting(rt.alloc(), five(0, report(), b""), 0, 26)
}

#[test]
fn small_pieces_change_nothing(rt: HostRuntime) -> Result<(), Fail> {
    for piece in [1, 2, 7] {
        expect_disturbed(rt.alloc(), five(0, report(), b""), in_pieces(piece))?;
    }
    Ok(())
}

/// An output with that room is full of a front part.
fn expect_full(alloc: Global, room: usize) -> Result<(), Fail> {
    let mut how = undisturbed();
    how.room = room;
    let front = report().get(..room).unwrap_or(b"");
    expect_disturbed(alloc, five(6, front, b"write fault\n"), how)
}

#[test]
fn an_output_that_is_full_has_a_front_part(rt: HostRuntime) -> Result<(), Fail> {
    for room in [0, 1, 5, 100, 242] {
        expect_full(rt.alloc(), room)?;
    }
    Ok(())
}

/// What is said of the first three of the thirteen segments.
fn said_of_three() -> &'static [u8] {
    b"1 pass row 1 number 100 checksum good
2 pass row 1 number 200 checksum good
3 pass row 1 number 101 checksum good
"
}

#[test]
fn a_write_behind_the_third_line_of_a_check_fails(rt: HostRuntime) -> Result<(), Fail> {
    let mut how = in_pieces(7);
    how.out = 4;
    expect_checked(
        rt.alloc(),
        thirteen(),
        how,
        6,
        said_of_three(),
        b"write fault\n",
    )
}

/// Words of no command, and what is told of them.
fn expect_usage(alloc: Global, how: Disturbed, err: &[u8]) -> Result<(), Fail> {
    let case = Case {
        words: &[b"frobnicate"],
        keys: b"",
        input: b"",
        status: 2,
        out: b"",
        err,
    };
    expect_disturbed(alloc, case, how)
}

#[test]
fn a_fault_of_the_error_output_changes_no_status(rt: HostRuntime) -> Result<(), Fail> {
    let mut how = undisturbed();
    expect_usage(rt.alloc(), how, usage())?;
    how.err = 1;
    expect_usage(rt.alloc(), how, b"")
}

/// The rows of a key file whose first read fails.
fn without_keys() -> Case<'static> {
    Case {
        words: &[b"keys", b"keys.toml", b"19700101000000Z"],
        keys: one_row(),
        input: b"",
        status: 5,
        out: b"",
        err: b"read fault\n",
    }
}

#[test]
fn a_key_file_that_fails_at_once_is_a_read_fault(rt: HostRuntime) -> Result<(), Fail> {
    let mut how = undisturbed();
    how.keys = 1;
    expect_disturbed(rt.alloc(), without_keys(), how)
}
