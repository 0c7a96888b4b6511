//! A draft that a sender fills in: what it lends, and what it shows before it is done.
ghost use Rattle.std.specs.Prelude.{◌≤◌, length};

use book_base::{Address, Socket};
use tcp_segment::{DatagramMut, Head, write_datagram};

/// Five bytes with a maximum segment size and a MAC of 12 bytes, over IPv4.
const FIVE: [u8; 65] = [
    0x45, 0x00, 0x00, 0x41, 0x00, 0x00, 0x40, 0x00, 0x40, 0x06, 0x26, 0xb5, 0x0a, 0x00, 0x00, 0x01,
    0x0a, 0x00, 0x00, 0x02, 0x03, 0xe8, 0x07, 0xd0, 0x00, 0x00, 0x00, 0x65, 0x00, 0x00, 0x00, 0xc9,
    0xa0, 0x18, 0xff, 0xff, 0xaa, 0xfe, 0x00, 0x00, 0x02, 0x04, 0x05, 0xb4, 0x1d, 0x10, 0x07, 0x08,
    0x01, 0x02, 0x03, 0x04, 0x05, 0x06, 0x07, 0x08, 0x09, 0x0a, 0x0b, 0x0c, 0x68, 0x65, 0x6c, 0x6c,
    0x6f,
];

/// The head of `FIVE`.
const HEAD: Head = Head {
    source: Socket {
        address: Address::V4([10, 0, 0, 1]),
        port: 1000,
    },
    destination: Socket {
        address: Address::V4([10, 0, 0, 2]),
        port: 2000,
    },
    sequence: 101,
    acknowledgement: 201,
    flags: 0x18,
    window: 65535,
    mss: Some(1460),
    key_id: 7,
    rnext: 8,
    mac_length: 12,
};

/// What a draft shows before its MAC stands in it: whether it has this payload and this option area, and a
/// checksum that isn't right yet.
fn shows(draft: &DatagramMut<'_>, payload: &[u8], area: &[u8]) -> bool {
    let shown = draft.as_datagram();
    shown.payload() == payload && shown.options().area() == area && !shown.checksum_ok()
}

/// Writes `FIVE` in front of a buffer, as a sender does: whether its draft shows what stands in it, and its length.
fn send(out: &mut [u8]) -> (bool, usize)
    requires room { 1500 ≤ length out.old }
{
    let mut draft = write_datagram(out, &HEAD, 5);
    draft.payload_mut().copy_from_slice(b"hello");
    let area = [
        2, 4, 5, 0xb4, 0x1d, 0x10, 7, 8, 0, 0, 0, 0, 0, 0, 0, 0, 0, 0, 0, 0,
    ];
    let shown = shows(&draft, b"hello", &area);
    draft
        .mac_mut()
        .copy_from_slice(&[1, 2, 3, 4, 5, 6, 7, 8, 9, 10, 11, 12]);
    (shown, draft.finish())
}

#[test]
fn a_draft_is_filled_in(rt: HostRuntime) {
    let mut out = [0xff; 1500];
    assert!(rt; send(&mut out) == (true, 65));
    assert!(rt; out.starts_with(&FIVE));
    assert!(rt; out[65] == 0xff);
}
