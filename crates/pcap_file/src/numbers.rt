//! Numbers among bytes, in either order.
ghost use Rattle.std.specs.Prelude.{◌≡◌, ◌+◌, ◌<◌, length};
ghost use Rattle.book_pcap.specs.Packets.{two_at, four_at};

use book_pcap::ByteOrder;
use byteorder::{BigEndian, ByteOrder as ReadsNumbers, LittleEndian};

/// The number of the two bytes from byte `at` on, counted from 0: 0 to 65,535. Both are there: `at` is at
/// most the length less 2.
pub fn u16_at(order: ByteOrder, bytes: &[u8], at: usize) -> u16
    requires { at + 1 < length bytes.now }
    ensures { result ≡ two_at order bytes.now at }
{
    match order {
        ByteOrder::Big => BigEndian::read_u16(&bytes[at..]),
        ByteOrder::Little => LittleEndian::read_u16(&bytes[at..]),
    }
}

/// The number of the four bytes from byte `at` on, counted from 0: 0 to 4,294,967,295. All are there: `at` is
/// at most the length less 4.
pub fn u32_at(order: ByteOrder, bytes: &[u8], at: usize) -> u32
    requires { at + 3 < length bytes.now }
    ensures { result ≡ four_at order bytes.now at }
{
    match order {
        ByteOrder::Big => BigEndian::read_u32(&bytes[at..]),
        ByteOrder::Little => LittleEndian::read_u32(&bytes[at..]),
    }
}
