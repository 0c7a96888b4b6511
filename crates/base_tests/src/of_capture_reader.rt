//! Places, times below a second, and how much of a datagram there is: no line of a capture shows them.
use book_pcap::ByteOrder;
use capture_reader::{
    BlockFault, Extent, Format, FoundDatagram, FoundFrame, Interface, IpVersion, LinkType,
    PartSays, TimeOffset, TimeResolution, find_datagram, nanoseconds, read_block, read_part,
};

/// Units of time, an offset, and how many nanoseconds they come to.
const TIMES: [(TimeResolution, TimeOffset, u64, u64); 6] = [
    (
        TimeResolution::Decimal(6),
        TimeOffset::Later(0),
        1_700_000_000_123_456,
        1_700_000_000_123_456_000,
    ),
    (
        TimeResolution::Decimal(9),
        TimeOffset::Later(0),
        1_700_000_000_123_456_789,
        1_700_000_000_123_456_789,
    ),
    (TimeResolution::Decimal(12), TimeOffset::Later(0), 1_999, 1),
    (
        TimeResolution::Binary(1),
        TimeOffset::Later(0),
        3,
        1_500_000_000,
    ),
    (
        TimeResolution::Decimal(3),
        TimeOffset::Later(2),
        5,
        2_005_000_000,
    ),
    (
        TimeResolution::Decimal(0),
        TimeOffset::Later(0),
        u64::MAX,
        u64::MAX,
    ),
];

#[test]
fn times_are_in_nanoseconds(rt: HostRuntime) {
    for (resolution, offset, count, time) in TIMES {
        assert!(rt; nanoseconds(resolution, offset, count) == time);
    }
}

/// An empty block of type 5, with the highest bytes first.
const EMPTY: &[u8] = b"\x00\x00\x00\x05\x00\x00\x00\x0c\x00\x00\x00\x0c";

/// An enhanced block: interface 0, unit 5 of time, three bytes of nine, and padding; and a byte of what follows.
const ENHANCED: &[u8] =
    b"\x00\x00\x00\x06\x00\x00\x00\x24\x00\x00\x00\x00\x00\x00\x00\x00\x00\x00\x00\x05\x00\x00\x00\x03\
\x00\x00\x00\x09abc\x00\x00\x00\x00\x24\x07";

// What that block says, and how many bytes it has.
fn said() -> Option<(PartSays, usize)> {
    let interface = Interface {
        link: 101,
        snapshot: 2,
        resolution: TimeResolution::Decimal(3),
        offset: TimeOffset::Later(1),
    };
    let part = read_part(Format::Pcapng(Some(ByteOrder::Big)), &[interface], ENHANCED);
    part.ok().map(|p| (p.says, p.size))
}

// The type of that empty block, in a section of this order, if in one.
fn kind(section: Option<ByteOrder>) -> Result<u32, BlockFault> {
    let (block, _rest) = read_block(section, EMPTY)?;
    Ok(block.kind)
}

#[test]
fn a_packet_is_told_by_its_place_in_its_block(rt: HostRuntime) {
    let frame = FoundFrame {
        time: Some(1_005_000_000),
        link: 101,
        original: 9,
        first: 28,
        after: 31,
    };
    assert!(rt; said() == Some((PartSays::Packet(frame), 36)));
    assert!(rt; kind(Some(ByteOrder::Big)) == Ok(5));
    assert!(rt; kind(None) == Err(BlockFault::NoSection));
}

/// The header of IPv6 with four bytes, behind a family of Darwin, and four bytes more.
const LOOPBACK_V6: &[u8] =
    b"\x1e\x00\x00\x00\x60\x00\x00\x00\x00\x04\x06\x40\x20\x01\x0d\xb8\x00\x00\x00\x00\x00\x00\x00\x00\
\x00\x00\x00\x01\x20\x01\x0d\xb8\x00\x00\x00\x00\x00\x00\x00\x00\x00\x00\x00\x02abcdmore";

/// A datagram of which a network card was to fill in the total length and the header's checksum.
const OFFLOADED: &[u8] =
    b"\x45\x00\x00\x00\x00\x00\x40\x00\x40\x06\x00\x00\x0a\x00\x00\x01\x0a\x00\x00\x02abcdef";

// Whether this datagram is found in a whole frame.
fn finds(link: LinkType, frame: &[u8], right: FoundDatagram) -> bool {
    find_datagram(link, frame, 0) == Ok(right)
}

#[test]
fn a_datagram_is_told_by_its_place(rt: HostRuntime) {
    let right = FoundDatagram {
        version: IpVersion::V6,
        first: 4,
        after: 48,
        extent: Extent::Whole,
        no_length: false,
        no_checksum: false,
    };
    assert!(rt; finds(LinkType::BsdLoopback, LOOPBACK_V6, right));
    let right = FoundDatagram {
        version: IpVersion::V4,
        first: 0,
        after: 26,
        extent: Extent::Whole,
        no_length: true,
        no_checksum: true,
    };
    assert!(rt; finds(LinkType::RawIp, OFFLOADED, right));
}

/// The header of IPv4 with a total length of 24, and four bytes.
const DATAGRAM: &[u8] =
    b"\x45\x00\x00\x18\x00\x00\x40\x00\x40\x06\x26\xde\x0a\x00\x00\x01\x0a\x00\x00\x02abcd";

// How much there is of that datagram, in a packet of so many bytes of which the snapshot left so many.
fn extent_of(original: u32, kept: usize) -> Option<(usize, Extent)> {
    let found = find_datagram(LinkType::RawIpv4, &DATAGRAM[..kept.min(24)], original);
    found.ok().map(|d| (d.after, d.extent))
}

#[test]
fn what_the_snapshot_cut_is_told_apart(rt: HostRuntime) {
    for (original, kept, extent) in [
        (24, 24, Extent::Whole),
        (24, 23, Extent::Cut),
        (24, 19, Extent::Cut),
        (23, 23, Extent::Short),
        (23, 19, Extent::Cut),
        (19, 19, Extent::Short),
    ] {
        assert!(rt; extent_of(original, kept) == Some((kept, extent)));
    }
}
