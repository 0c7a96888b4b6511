//! What a message has behind its header, and how many bytes are used: `bgp` tells types, lengths and places.
use bgp_messages::{BgpFault, BgpReader, Found};
use std::test::Fail;

/// An OPEN message of version 4, AS 65033, hold time 180 and identifier 192.168.0.15, and then a
/// KEEPALIVE message.
const OPEN_AND_KEEPALIVE: &[u8] =
    b"\xff\xff\xff\xff\xff\xff\xff\xff\xff\xff\xff\xff\xff\xff\xff\xff\x00\x1d\x01\
\x04\xfe\x09\x00\xb4\xc0\xa8\x00\x0f\x00\
\xff\xff\xff\xff\xff\xff\xff\xff\xff\xff\xff\xff\xff\xff\xff\xff\x00\x13\x04";

/// A header of a type that isn't known, and a byte behind it.
const FAULTY: &[u8] =
    b"\xff\xff\xff\xff\xff\xff\xff\xff\xff\xff\xff\xff\xff\xff\xff\xff\x00\x13\x06\x00";

// Feeds a piece: what is found, and how many of its bytes are used.
fn fed(reader: &mut BgpReader, piece: &[u8]) -> (Found, usize) {
    let fed = reader.feed(piece);
    (fed.found, fed.used)
}

// Whether this piece completes a message with this body and uses so many bytes.
fn completes(reader: &mut BgpReader, piece: &[u8], body: &[u8], used: usize) -> bool {
    let fed = reader.feed(piece);
    match fed.found {
        Found::Message => fed.used == used && reader.body() == body,
        Found::More => false,
        Found::Fault(_) => false,
    }
}

#[test]
fn a_message_has_its_body(rt: HostRuntime) -> Result<(), Fail> {
    let mut reader = BgpReader::new(rt.alloc())?;
    let (first, second) = OPEN_AND_KEEPALIVE.split_at(20);
    assert!(rt; fed(&mut reader, first) == (Found::More, 20));
    let body = b"\x04\xfe\x09\x00\xb4\xc0\xa8\x00\x0f\x00";
    assert!(rt; completes(&mut reader, second, body, 9));
    assert!(rt; completes(&mut reader, &OPEN_AND_KEEPALIVE[29..], b"", 19));
    Ok(())
}

#[test]
fn no_byte_is_used_behind_a_fault(rt: HostRuntime) -> Result<(), Fail> {
    let mut reader = BgpReader::new(rt.alloc())?;
    let fault = Found::Fault(BgpFault::Kind);
    assert!(rt; fed(&mut reader, &FAULTY[..18]) == (Found::More, 18));
    assert!(rt; fed(&mut reader, &FAULTY[18..]) == (fault, 1));
    assert!(rt; fed(&mut reader, OPEN_AND_KEEPALIVE) == (fault, 0));
    reader.restart();
    assert!(rt; fed(&mut reader, OPEN_AND_KEEPALIVE) == (Found::Message, 29));
    Ok(())
}
