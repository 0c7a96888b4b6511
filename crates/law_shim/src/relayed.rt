//! What holds of each datagram that is relayed.
ghost use Rattle.std.specs.Prelude.{◌≡◌, ◌||◌, ◌≤◌, ◌<◌, ◌+◌, ℕ, List, length, map, Ok, is_some, true, false};
ghost use Rattle.std.specs.List.{Contains};
ghost use Rattle.book_base.specs.declared.address.Pair.{Pair};
ghost use Rattle.book_segments.specs.Segments.{Segment, Read, reading, spell, has, SYN, ACK};
ghost use Rattle.book_segments.specs.Spelling.{AreBytes, Fits};
ghost use Rattle.book_shim.specs.declared.kept.Kept.{Kept};
ghost use Rattle.book_shim.specs.Keeping.{Setting};
ghost use Rattle.book_shim.specs.Leaving.{Sealed, outbound, send_sealed};
ghost use Rattle.book_shim.specs.Relaying.{headers_length, longest_ao};
ghost use Rattle.book_shim.specs.Arriving.{Opened, inbound, take_in};
ghost use Rattle.law_shim.specs.Worlds.{Side, other, Event, pair_at, kept_at, run, was_made, IsBytewise};
ghost use Rattle.law_shim.specs.Origins.{IsMet};
ghost use Rattle.law_shim.specs.Closed.{IsSigned, IsChecked};
ghost use Rattle.law_shim.specs.Laps.{HasOneNumber};
ghost use Rattle.law_shim.specs.Sizes.{KeepsTo, left_of, sizes_told};
ghost use Rattle.law_shim.specs.Staying.{HasSameConnection};
ghost use Rattle.law_shim.specs.Whole.{StaysWhole, ComesBack};

/// Nothing leaves unsigned: whatever is sealed, of whatever the own kernel gave, has exactly one TCP-AO option
/// and none of TCP MD5, under the identifier of a row that may send for its pair at the time. And nothing comes
/// in unchecked: whatever is taken, of whatever came, had exactly one TCP-AO option and none of TCP MD5, under
/// the identifier of a row that may accept for its pair at the time, with the MAC of that row's algorithm and
/// key; what is handed on has no TCP-AO option.
pub fn fails_closed()
    ensures leaving { (here : Setting) (pair : Pair) (kept : Kept) (d : Segment) (m : Sealed) → Fits d
        → send_sealed here pair kept d ≡ Ok m → IsSigned here pair m }
    ensures arriving { (here : Setting) (pair : Pair) (kept : Kept) (d : Segment) (t : Opened) → Fits d
        → take_in here pair kept d ≡ Ok t → IsChecked here pair d t }
{}

/// A SYN without ACK that passes, be it a replay, leaves all that is kept of the connection, and of the SYNs that
/// are out, as it is; and where a connection is in use or opening, the current key too.
pub fn syn_leaves_the_connection()
    ensures connection { (here : Setting) (pair : Pair) (kept : Kept) (d : Segment) (t : Opened)
        → take_in here pair kept d ≡ Ok t → has SYN d ≡ true → has ACK d ≡ false → HasSameConnection kept t.kept }
    ensures key { (here : Setting) (pair : Pair) (kept : Kept) (d : Segment) (t : Opened)
        → take_in here pair kept d ≡ Ok t → has SYN d ≡ true → has ACK d ≡ false
        → (is_some kept.isns || is_some kept.opening) ≡ true → t.kept ≡ kept }
{}

/// No number comes around: of whatever datagrams two kernels give, whatever comes from the network, and under
/// whatever tables, clocks and MTUs, a segment without SYN that is handed to a kernel, unless it is a forgery, was
/// sealed under the very number of 64 bits under which it passed, and that is within 2^31 of the number heard.
pub fn no_laps()
    ensures { (pair : Pair) (events : List Event) (at : Side) (here : Setting) (bytes : List ℕ) (t : Opened)
        → IsBytewise events → AreBytes bytes
        → inbound here (pair_at pair at) (kept_at (run pair events) at) bytes ≡ Ok t
        → was_made at t.passed (run pair events).made ≡ true
        → has SYN t.segment ≡ false → HasOneNumber pair events here at t }
{}

/// What a kernel gave comes out at the other one byte for byte, whatever bytes arrive that are read as what
/// was sealed: where the other guard is ready for it, its options fit beside TCP-AO as they stand, it has no SYN,
/// and its checksums are right, as senders compute them.
pub fn round_trip()
    ensures { (pair : Pair) (at : Side) (sending here : Setting) (there kept : Kept) (bytes arrived : List ℕ)
        (m : Sealed) → AreBytes bytes → outbound sending (pair_at pair (other at)) there bytes ≡ Ok m
        → StaysWhole m.given m.sending → IsMet here (pair_at pair at) kept m
        → reading arrived ≡ Read m.segment → ComesBack here (pair_at pair at) kept m bytes arrived }
{}

/// A datagram that is sealed has at most 20 bytes more than the kernel gave. Each maximum segment size that a SYN
/// tells, as it is handed on, is the one that came, or what the own device leaves beside the headers where that is
/// less, and 20 less than that. So what a kernel then gives, if it keeps to what it was told, fits the own device
/// once it is sealed.
pub fn sizes()
    ensures longer { (here : Setting) (pair : Pair) (kept : Kept) (d : Segment) (m : Sealed) → Fits d
        → send_sealed here pair kept d ≡ Ok m → length (spell m.segment) ≤ length (spell d) + longest_ao }
    ensures told { (here : Setting) (pair : Pair) (kept : Kept) (d : Segment) (t : Opened) → Fits d
        → take_in here pair kept d ≡ Ok t → has SYN d ≡ true
        → sizes_told t.segment ≡ map (left_of here.mtu d.ip) (sizes_told d) }
    ensures room { (here sending : Setting) (pair : Pair) (kept later : Kept) (syn d : Segment) (t : Opened)
        (m : Sealed) (told : ℕ) → Fits syn → take_in here pair kept syn ≡ Ok t → has SYN syn ≡ true
        → Contains (sizes_told t.segment) told → 0 < told
        → Fits d → headers_length d.ip ≡ headers_length syn.ip → KeepsTo d told
        → send_sealed sending pair later d ≡ Ok m → length (spell m.segment) ≤ here.mtu }
{}
