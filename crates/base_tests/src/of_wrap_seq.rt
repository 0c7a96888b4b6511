//! The edges of the halves, of the ring and of 64 bits.
use tcp_segment::{Counter, ahead, extend, in_window, next_from};

/// A field, an expected number, and the number that the field means there.
const EDGES: [(u32, u64, Option<u64>); 28] = [
    (0x0, 0x0, Some(0x0)),
    (0x7fffffff, 0x0, Some(0x7fffffff)),
    (0x80000000, 0x0, None),
    (0xffffffff, 0x0, None),
    (0x0, 0x7fffffff, Some(0x0)),
    (0x7fffffff, 0x7fffffff, Some(0x7fffffff)),
    (0x80000000, 0x7fffffff, Some(0x80000000)),
    (0xffffffff, 0x7fffffff, None),
    (0x0, 0x80000000, Some(0x0)),
    (0x7fffffff, 0x80000000, Some(0x7fffffff)),
    (0x80000000, 0x80000000, Some(0x80000000)),
    (0xffffffff, 0x80000000, Some(0xffffffff)),
    (0x0, 0xffffffff, Some(0x100000000)),
    (0x7fffffff, 0xffffffff, Some(0x7fffffff)),
    (0x80000000, 0xffffffff, Some(0x80000000)),
    (0xffffffff, 0xffffffff, Some(0xffffffff)),
    (0x0, 0x100000000, Some(0x100000000)),
    (0x7fffffff, 0x100000000, Some(0x17fffffff)),
    (0x80000000, 0x100000000, Some(0x80000000)),
    (0xffffffff, 0x100000000, Some(0xffffffff)),
    (0x0, 0x8000000000000000, Some(0x8000000000000000)),
    (0x7fffffff, 0x8000000000000000, Some(0x800000007fffffff)),
    (0x80000000, 0x8000000000000000, Some(0x7fffffff80000000)),
    (0xffffffff, 0x8000000000000000, Some(0x7fffffffffffffff)),
    (0x0, 0xffffffffffffffff, None),
    (0x7fffffff, 0xffffffffffffffff, Some(0xffffffff7fffffff)),
    (0x80000000, 0xffffffffffffffff, Some(0xffffffff80000000)),
    (0xffffffff, 0xffffffffffffffff, Some(0xffffffffffffffff)),
];

#[test]
fn a_field_means_the_nearest_number(rt: HostRuntime) {
    for (seq, expected, meant) in EDGES {
        assert!(rt; extend(seq, expected) == meant);
    }
}

#[test]
fn a_number_is_ahead_by_less_than_half_the_ring(rt: HostRuntime) {
    assert!(rt; ahead(0, 0) == 0);
    assert!(rt; ahead(0, 0xffff_ffff) == 1);
    assert!(rt; ahead(0xffff_ffff, 0) == -1);
    assert!(rt; ahead(0x7fff_ffff, 0) == 2147483647);
    assert!(rt; ahead(0x8000_0000, 0) == -2147483648);
    assert!(rt; ahead(0, 0x8000_0000) == -2147483648);
}

#[test]
fn a_window_goes_over_the_end_of_the_ring(rt: HostRuntime) {
    assert!(rt; in_window(0xffff_ffff, 0xffff_ffff, 2));
    assert!(rt; in_window(0, 0xffff_ffff, 2));
    assert!(rt; !in_window(1, 0xffff_ffff, 2));
    assert!(rt; !in_window(0xffff_fffe, 0xffff_ffff, 2));
    assert!(rt; !in_window(7, 7, 0));
}

#[test]
fn a_counter_carries_into_its_extension(rt: HostRuntime) {
    let mut counter = Counter::of(0x1_ffff_fffe);
    counter.advance(3);
    assert!(rt; counter.value() == 0x2_0000_0001);
    assert!(rt; counter.low == 1 && counter.extension == 2);
    assert!(rt; Counter::of(0xffff_ffff_ffff_ffff).value() == 0xffff_ffff_ffff_ffff);
}

#[test]
fn the_next_number_is_less_than_a_lap_ahead(rt: HostRuntime) {
    assert!(rt; next_from(5, 5) == 5);
    assert!(rt; next_from(4, 5) == 0x1_0000_0004);
    assert!(rt; next_from(0, 0x7_ffff_ffff) == 0x8_0000_0000);
    assert!(rt; next_from(0xffff_fffe, 0x7_ffff_ffff) == 0x8_ffff_fffe);
}
