//! What an ICMP datagram is, by worked ones: a change of a few bytes tells one case from another.
use book_base::{Address, Pair, Socket};
use book_shim::Notice;
use shim_pairs::read_notice;
use std::test::Fail;

/// "Port unreachable" from 10.0.0.2 about a segment from 10.0.0.1, port 179, to 10.0.0.2, port 40000.
const V4: [u8; 52] = [
    0x45, 0x00, 0x00, 0x34, 0x00, 0x00, 0x00, 0x00, 0x40, 0x01, 0x66, 0xc7, 0x0a, 0x00, 0x00, 0x02,
    0x0a, 0x00, 0x00, 0x01, 0x03, 0x03, 0x00, 0x00, 0x00, 0x00, 0x00, 0x00, 0x45, 0x00, 0x00, 0x28,
    0x00, 0x00, 0x40, 0x00, 0x40, 0x06, 0x26, 0xce, 0x0a, 0x00, 0x00, 0x01, 0x0a, 0x00, 0x00, 0x02,
    0x00, 0xb3, 0x9c, 0x40,
];

/// "Packet too big" from fd00::2 about a segment from fd00::1, port 179, to fd00::2, port 40000.
const V6: [u8; 92] = [
    0x60, 0x00, 0x00, 0x00, 0x00, 0x34, 0x3a, 0x40, 0xfd, 0x00, 0x00, 0x00, 0x00, 0x00, 0x00, 0x00,
    0x00, 0x00, 0x00, 0x00, 0x00, 0x00, 0x00, 0x02, 0xfd, 0x00, 0x00, 0x00, 0x00, 0x00, 0x00, 0x00,
    0x00, 0x00, 0x00, 0x00, 0x00, 0x00, 0x00, 0x01, 0x02, 0x00, 0x00, 0x00, 0x00, 0x00, 0x05, 0x00,
    0x60, 0x00, 0x00, 0x00, 0x00, 0x14, 0x06, 0x40, 0xfd, 0x00, 0x00, 0x00, 0x00, 0x00, 0x00, 0x00,
    0x00, 0x00, 0x00, 0x00, 0x00, 0x00, 0x00, 0x01, 0xfd, 0x00, 0x00, 0x00, 0x00, 0x00, 0x00, 0x00,
    0x00, 0x00, 0x00, 0x00, 0x00, 0x00, 0x00, 0x02, 0x00, 0xb3, 0x9c, 0x40,
];

fn pair(local: Address, remote: Address) -> Pair {
    Pair {
        local: Socket {
            address: local,
            port: 179,
        },
        remote: Socket {
            address: remote,
            port: 40000,
        },
    }
}

fn v4_pair() -> Pair {
    pair(Address::V4([10, 0, 0, 1]), Address::V4([10, 0, 0, 2]))
}

fn v6_pair() -> Pair {
    let mut one = [0; 16];
    one[0] = 0xfd;
    let mut two = one;
    one[15] = 1;
    two[15] = 2;
    pair(Address::V6(one), Address::V6(two))
}

/// Whether a datagram is this, once one of its bytes is changed.
fn is_so<const N: usize>(datagram: [u8; N], at: usize, byte: u8, notice: Notice) -> bool {
    let mut changed = datagram;
    match changed.get_mut(at) {
        Some(place) => *place = byte,
        None => return false,
    }
    read_notice(&changed) == notice
}

#[test]
fn an_error_quotes_its_pair(rt: HostRuntime) -> Result<(), Fail> {
    assert!(rt; read_notice(&V4) == Notice::Quotes(v4_pair()));
    assert!(rt; read_notice(&V6) == Notice::Quotes(v6_pair()));
    let quotes = Notice::Quotes(v4_pair());
    for kind in [4, 5, 11, 12] {
        assert!(rt; is_so(V4, 20, kind, quotes));
    }
    // the first of several fragments
    assert!(rt; is_so(V4, 34, 0x20, quotes));
    assert!(rt; is_so(V6, 40, 127, Notice::Quotes(v6_pair())));
    let mut longer = [0; 60];
    longer[..52].copy_from_slice(&V4);
    assert!(rt; read_notice(&longer) == quotes);
    Ok(())
}

#[test]
fn other_messages_pass(rt: HostRuntime) -> Result<(), Fail> {
    for kind in [0, 8, 13] {
        assert!(rt; is_so(V4, 20, kind, Notice::Other));
    }
    assert!(rt; is_so(V4, 37, 17, Notice::Other));
    for kind in [128, 135] {
        assert!(rt; is_so(V6, 40, kind, Notice::Other));
    }
    assert!(rt; is_so(V6, 54, 17, Notice::Other));
    Ok(())
}

#[test]
fn what_cannot_be_read_is_told(rt: HostRuntime) -> Result<(), Fail> {
    assert!(rt; read_notice(&[]) == Notice::Unread);
    // version, header length, length, protocol
    for (at, byte) in [(0, 0x75), (0, 0x44), (3, 0x35), (3, 0x1b), (9, 6)] {
        assert!(rt; is_so(V4, at, byte, Notice::Unread));
    }
    // fragments: the first, and one behind it
    for (at, byte) in [(6, 0x20), (7, 1)] {
        assert!(rt; is_so(V4, at, byte, Notice::Unread));
    }
    // the quote: version, header length, a fragment behind the first, ports cut off
    for (at, byte) in [(28, 0x65), (28, 0x44), (28, 0x46), (35, 1), (3, 0x33)] {
        assert!(rt; is_so(V4, at, byte, Notice::Unread));
    }
    // a fragment, another protocol, too long, and the quote: version, ports cut off
    for (at, byte) in [(6, 44), (6, 6), (5, 0x35), (48, 0x45), (5, 0x33)] {
        assert!(rt; is_so(V6, at, byte, Notice::Unread));
    }
    // extension and authentication headers in the quote
    for next in [0, 43, 44, 51, 60] {
        assert!(rt; is_so(V6, 54, next, Notice::Unread));
    }
    Ok(())
}
