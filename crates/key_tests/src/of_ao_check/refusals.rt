//! Each refusal in front of those behind it. The segments are over IPv6 and have 40 bytes of
//! options; their MACs are wrong.
use super::{END, LAST, four_rows, verdict};
use ao_check::{Passed, Refusal};
use book_base::{Address, Pair, Socket};
use key_table::Table;
use std::alloc::{AllocError, Global};
use std::test::Fail;

const ONE: [u8; 16] = [0x20, 1, 0xd, 0xb8, 0, 0, 0, 0, 0, 0, 0, 0, 0, 0, 0, 1];

const TWO: [u8; 16] = [0x20, 1, 0xd, 0xb8, 0, 0, 0, 0, 0, 0, 0, 0, 0, 0, 0, 2];

const PAIR: Pair = Pair {
    local: Socket {
        address: Address::V6(TWO),
        port: 179,
    },
    remote: Socket {
        address: Address::V6(ONE),
        port: 4096,
    },
};

/// The sequence of each segment.
const SEQUENCE: u32 = 5;

/// The option of TCP MD5.
const MD5: [u8; 18] = [19, 18, 0, 0, 0, 0, 0, 0, 0, 0, 0, 0, 0, 0, 0, 0, 0, 0];

/// TCP-AO with a MAC of 12 bytes, under id 1.
const TWELVE: [u8; 16] = [29, 16, 1, 1, 0, 0, 0, 0, 0, 0, 0, 0, 0, 0, 0, 0];

/// TCP-AO with a MAC of 16 bytes, under id 3.
const SIXTEEN: [u8; 20] = [29, 20, 3, 3, 0, 0, 0, 0, 0, 0, 0, 0, 0, 0, 0, 0, 0, 0, 0, 0];

/// Two parts of an option area; no-operations fill it. What is over 20 bytes of a part is left out.
fn area(first: &[u8], second: &[u8]) -> [u8; 40] {
    let mut area = [1; 40];
    let front = first.len().min(20);
    let back = second.len().min(20);
    area[..front].copy_from_slice(&first[..front]);
    area[front..front + back].copy_from_slice(&second[..back]);
    area
}

/// A segment without payload.
fn segment(flags: u8, area: &[u8; 40]) -> [u8; 100] {
    let mut bytes = [0; 100];
    bytes[0] = 0x60;
    bytes[5] = 60;
    bytes[6] = 6;
    bytes[8..24].copy_from_slice(&ONE);
    bytes[24..40].copy_from_slice(&TWO);
    bytes[40] = 0x10;
    bytes[43] = 179;
    bytes[44..48].copy_from_slice(&SEQUENCE.to_be_bytes());
    bytes[52] = 0xf0;
    bytes[53] = flags;
    bytes[60..].copy_from_slice(area);
    bytes
}

/// Why the same segment is refused with SYN, whose context and number are always known.
fn with_syn(why: Refusal) -> Refusal {
    match why {
        Refusal::NoContext => Refusal::BadMac,
        Refusal::Range => Refusal::BadMac,
        other => other,
    }
}

/// What is said of a segment with these flags and options.
fn seen(
    alloc: Global,
    table: &Table,
    now: u64,
    expected: Option<u64>,
    flags: u8,
    area: &[u8; 40],
) -> Result<Option<Result<Passed, Refusal>>, AllocError> {
    verdict(alloc, table, PAIR, now, expected, &segment(flags, area))
}

/// Each case has the fault that is wanted and those behind it that can stand beside it.
#[test]
fn the_first_fault_is_told(rt: HostRuntime) -> Result<(), Fail> {
    let table = four_rows(rt.alloc())?;
    let late = Some(END);
    let near = Some(5);
    let cases = [
        (area(&[], &MD5), 0, None, Refusal::NoAo),
        (area(&[], &MD5), 0, late, Refusal::NoAo),
        (
            area(&[29, 4, 9, 0, 29, 4, 9, 0], &MD5),
            0,
            None,
            Refusal::TwoAo,
        ),
        (
            area(&[29, 4, 1, 0, 29, 4, 1, 0], &MD5),
            LAST + 1,
            late,
            Refusal::TwoAo,
        ),
        (area(&[29, 4, 9, 0], &MD5), 0, None, Refusal::WithMd5),
        (area(&[29, 4, 1, 0], &MD5), LAST + 1, late, Refusal::WithMd5),
        (area(&[29, 4, 9, 0], &[]), 0, None, Refusal::NoTuple),
        (area(&[29, 4, 9, 0], &[]), 0, late, Refusal::NoTuple),
        (area(&[29, 4, 1, 0], &[]), LAST + 1, None, Refusal::Expired),
        (area(&[29, 4, 1, 0], &[]), LAST + 1, late, Refusal::Expired),
        (area(&[29, 4, 1, 0], &[]), LAST, None, Refusal::MacLength),
        (area(&[29, 4, 1, 0], &[]), LAST, late, Refusal::MacLength),
        (area(&[29, 16, 3, 3], &[0; 12]), 0, late, Refusal::MacLength),
        (area(&[29, 20, 1, 1], &[0; 16]), 0, late, Refusal::MacLength),
        (area(&TWELVE, &[]), LAST, None, Refusal::NoContext),
        (area(&TWELVE, &[]), LAST, late, Refusal::Range),
        (area(&TWELVE, &[]), LAST, near, Refusal::BadMac),
        (area(&SIXTEEN, &[]), LAST, near, Refusal::BadMac),
    ];
    for (area, now, expected, wanted) in cases {
        // Plain, with RST, and with FIN.
        for flags in [0x10, 0x14, 0x11] {
            let seen = seen(rt.alloc(), &table, now, expected, flags, &area)?;
            assert!(rt; seen == Some(Err(wanted)));
        }
        for flags in [0x02, 0x12] {
            let seen = seen(rt.alloc(), &table, now, expected, flags, &area)?;
            assert!(rt; seen == Some(Err(with_syn(wanted))));
        }
    }
    Ok(())
}
