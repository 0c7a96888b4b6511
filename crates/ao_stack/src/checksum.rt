//! A checksum of 0000 is handed out as ffff.
ghost use Rattle.std.specs.Prelude.{◌≡◌, ◌≤◌, ◌<◌, ◌+◌, ◌++◌, ℕ, List, length, take};
ghost use Rattle.book_segments.specs.Bytes.{put2};
ghost use Rattle.book_segments.specs.Segments.{Segment, spell};
ghost use Rattle.book_stack.specs.Stacks.{handed};
ghost use Rattle.book_base.specs.Addresses.{IsOneFamily};
ghost use Rattle.tcp_segment.specs.Layout.{IsSized};
ghost use Rattle.ao_stack.specs.Checksums.{IsFrom, sum_handed, sum_place};

use book_base::{Address, Pair};

/// The bytes of an address.
fn octets_of(address: &Address) -> &[u8]
    ensures sized { IsSized address.now }
{
    match address {
        Address::V4(bytes) => bytes,
        Address::V6(bytes) => bytes,
    }
}

/// Where the TCP checksum stands in a datagram from this address.
fn sum_place(address: &Address) -> usize
    ensures place { result ≡ sum_place address.now }
    ensures sized { IsSized address.now }
{
    let _octets = octets_of(address);
    match address {
        Address::V4(_) => 36,
        Address::V6(_) => 56,
    }
}

/// Two bytes that are zero become ffff.
fn replace(room: &mut [u8], place: usize)
    requires { place + 1 < length room.old }
    ensures { (n : ℕ) (front back : List ℕ) (c : ℕ) → length front ≡ place → c ≤ 65535
        → take n room.old ≡ front ++ put2 c back
        → take n room.new ≡ front ++ put2 (sum_handed c) back }
{
    if room[place] != 0 {
        return;
    }
    if room[place + 1] != 0 {
        return;
    }
    room[place] = 0xff;
    room[place + 1] = 0xff;
}

/// The datagram of this pair in front of `room` is as it is handed out.
pub(crate) fn hand(pair: &Pair, room: &mut [u8])
    requires { 1500 ≤ length room.old }
    ensures { (n : ℕ) (d : Segment) → IsOneFamily pair.now.local.address pair.now.remote.address → IsFrom pair.now d
        → take n room.old ≡ spell d → take n room.new ≡ spell (handed d) }
{
    let place = sum_place(&pair.local.address);
    let _other = sum_place(&pair.remote.address);
    replace(room, place);
}
