//! A TCP checksum of 0000 is sent as ffff.
ghost use Rattle.std.specs.Prelude.{◌≡◌, ℕ, List, ◌+◌, ◌<◌, ◌++◌, length};
ghost use Rattle.book_segments.specs.Bytes.{put2};
ghost use Rattle.ao_shim.specs.Laying.{sum_sent};

/// Two bytes that are zero become ffff.
pub(crate) fn replace(room: &mut [u8], place: usize)
    requires { place + 1 < length room.old }
    ensures { (front back : List ℕ) (c : ℕ) → length front ≡ place → c < 65536 → room.old ≡ front ++ put2 c back
        → room.new ≡ front ++ put2 (sum_sent c) back }
{
    if room[place] != 0 {
        return;
    }
    if room[place + 1] != 0 {
        return;
    }
    room[place] = 0xff;
    room[place + 1] = 0xff;
}
