//! `check KEYS`: stored segments that `oracle/stored_segments.py` made, a program on Python's `hmac`
//! alone.
use super::{Case, Disturbed, expect_disturbed, in_pieces};
use std::alloc::Global;
use std::test::Fail;

/// Two nodes with one key.
fn keys() -> &'static [u8] {
    b"[[node]]
name = \"client\"
address = \"10.0.0.1\"
[[node.key]]
AdminKeyName = \"first\"
LocalKeyName = \"0\"
PeerKeyName = \"0\"
Peers = [\"any\"]
Protocol = \"TCP-AO\"
ProtocolSpecificInfo = \"options\"
KDF = \"HMAC-SHA-1\"
AlgID = \"HMAC-SHA-1-96\"
Key = \"74657374766563746f72\"
Direction = \"both\"
[[node]]
name = \"server\"
address = \"10.0.0.2\"
[[node.key]]
AdminKeyName = \"first\"
LocalKeyName = \"0\"
PeerKeyName = \"0\"
Peers = [\"any\"]
Protocol = \"TCP-AO\"
ProtocolSpecificInfo = \"options\"
KDF = \"HMAC-SHA-1\"
AlgID = \"HMAC-SHA-1-96\"
Key = \"74657374766563746f72\"
Direction = \"both\"
"
}

/// A SYN, a SYN with ACK, ten segments of one byte at numbers that lie 2^30 apart, and one that lies 2^31
/// past the number expected.
pub(super) fn thirteen() -> &'static [u8] {
    b"0 4500003800004000400626be0a0000010a00000203e807d0000000640000000090020200105a00001d1000007ea7\
    3786bb128f7ecf895001\n\
0 4500003800004000400626be0a0000020a00000107d003e8000000c80000006590120200b11300001d1000001f5d71ab36d7e281e733ed21\n\
0 4500003900004000400626bd0a0000010a00000203e807d000000065000000c990100200839500001d100000a50224117cc8c10206a726af78\n\
0 4500003900004000400626bd0a0000010a00000203e807d040000065000000c9901002005af100001d10000061fd0abf9fd1444d5f636c9a78\n\
0 4500003900004000400626bd0a0000010a00000203e807d080000065000000c990100200377000001d100000f1660b8b8e5650491dd306f578\n\
0 4500003900004000400626bd0a0000010a00000203e807d0c0000065000000c990100200284400001d1000004ad85870fdf7b26f4d1a2ebb78\n\
0 4500003900004000400626bd0a0000010a00000203e807d000000065000000c990100200437800001d10000076080d7d08936aca01eb7b8478\n\
0 4500003900004000400626bd0a0000010a00000203e807d040000065000000c99010020088d800001d1000008be182a59c6377a6e2b7e9a878\n\
0 4500003900004000400626bd0a0000010a00000203e807d080000065000000c990100200391100001d1000004d561c0cb7f1eb421f83d29e78\n\
0 4500003900004000400626bd0a0000010a00000203e807d0c0000065000000c9901002005d8700001d100000009ace5ae1f980e544c123ad78\n\
0 4500003900004000400626bd0a0000010a00000203e807d000000065000000c9901002008f7500001d100000f5cebc4282403d29beedf7eb78\n\
0 4500003900004000400626bd0a0000010a00000203e807d040000065000000c990100200785400001d10000082888a5b275f7e03d0c67c6878\n\
0 4500003900004000400626bd0a0000010a00000203e807d0c0000066000000c990100200544f00001d100000ff5debdd982bfe6c2fc0f1e478\n"
}

fn said() -> &'static [u8] {
    b"1 pass row 1 number 100 checksum good
2 pass row 1 number 200 checksum good
3 pass row 1 number 101 checksum good
4 pass row 1 number 1073741925 checksum good
5 pass row 1 number 2147483749 checksum good
6 pass row 1 number 3221225573 checksum good
7 pass row 1 number 4294967397 checksum good
8 pass row 1 number 5368709221 checksum good
9 pass row 1 number 6442451045 checksum good
10 pass row 1 number 7516192869 checksum good
11 pass row 1 number 8589934693 checksum good
12 pass row 1 number 9663676517 checksum good
13 refused bad-mac checksum good
"
}

/// Checks this input by those keys, disturbed so, and compares what it left.
pub(super) fn expect_checked(
    alloc: Global,
    input: &[u8],
    how: Disturbed,
    status: u8,
    out: &[u8],
    err: &[u8],
) -> Result<(), Fail> {
    let case = Case {
        words: &[b"check", b"KEYS"],
        keys: keys(),
        input,
        status,
        out,
        err,
    };
    expect_disturbed(alloc, case, how)
}

#[test]
fn the_extension_reaches_two_in_pieces_of_any_size(rt: HostRuntime) -> Result<(), Fail> {
    for piece in [1, 7, 4_096] {
        expect_checked(rt.alloc(), thirteen(), in_pieces(piece), 1, said(), b"")?;
    }
    Ok(())
}

#[test]
fn a_faulty_line_ends_it_with_the_lines_before(rt: HostRuntime) -> Result<(), Fail> {
    expect_checked(
        rt.alloc(),
        b"0 45\n# 0\n0 4\n0 45\n",
        in_pieces(7),
        4,
        b"1 bad truncated\n",
        b"input: line 3 hex\n",
    )
}
