//! Link files that are printed, which no command does. What is read of them, and each of their faults,
//! stands in the examples of `link` and `timed`.
use book_base::Bytes;
use link_script::{KeysFrom, print_script, read_script};
use std::alloc::Global;
use std::test::Fail;

/// A file in all the forms that are read: both cases of digits, leading zeros, tabs, silent lines.
const FILE: &[u8] = b"aotcp-link 1
a 10.0.0.1 1000
b 10.0.0.2 2000
shared HMAC-SHA-256-128 0B0b0b0b0b0b0b0b
# times and sessions
clock a 00000000000000000007
open a 0
listen b 4294967295
 start b 1 4294967295\r
give a 00fF
fill b 0 0A
send\ta

resend b
deliver b 20000
inject a 00fF
alter b 20000 65535 80 fix
alter a 1 0 0F keep
take a 65535
close a
abort b
withdraw a 64
dump 9
add a 255 0 AES-128-CMAC-96 0B no-options both 0 253402300799 5 5
add b 1 2 HMAC-SHA-1-96 00 options in 1 2 3 4
add b 1 2 HMAC-SHA-1-96 00 options out 1 2 3 4
add b 1 2 HMAC-SHA-1-96 00 options disabled 1 2 3 4";

/// The same, as it is printed.
const PRINTED: &[u8] = b"aotcp-link 1
a 10.0.0.1 1000
b 10.0.0.2 2000
shared HMAC-SHA-256-128 0b0b0b0b0b0b0b0b
clock a 7
open a 0
listen b 4294967295
start b 1 4294967295
give a 00ff
fill b 0 0a
send a
resend b
deliver b 20000
inject a 00ff
alter b 20000 65535 80 fix
alter a 1 0 0f keep
take a 65535
close a
abort b
withdraw a 64
dump 9
add a 255 0 AES-128-CMAC-96 0b no-options both 0 253402300799 5 5
add b 1 2 HMAC-SHA-1-96 00 options in 1 2 3 4
add b 1 2 HMAC-SHA-1-96 00 options out 1 2 3 4
add b 1 2 HMAC-SHA-1-96 00 options disabled 1 2 3 4
";

// Functions without clauses: a goal then names the text and does not spell it.
fn file() -> &'static [u8] {
    FILE
}

fn lines() -> &'static [u8] {
    PRINTED
}

/// What is printed of a file with its shared key, once it is read.
fn printed(alloc: Global, text: &[u8]) -> Result<Bytes, Fail> {
    let script = read_script(alloc, KeysFrom::LinkFile, text)?;
    Ok(print_script(alloc, &script)?)
}

#[test]
fn each_event_is_printed_in_its_words_and_read_again(rt: HostRuntime) -> Result<(), Fail> {
    let once = printed(rt.alloc(), file())?;
    let again = printed(rt.alloc(), once.as_slice())?;
    assert!(rt; once.as_slice() == lines() && again.as_slice() == lines());
    Ok(())
}
