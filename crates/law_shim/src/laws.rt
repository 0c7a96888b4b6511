//! What holds of each step.
ghost use Rattle.std.specs.Prelude.{◌≡◌, ℕ, List, Ok, Err, Some, true, false};
ghost use Rattle.book_base.specs.declared.address.Pair.{Pair};
ghost use Rattle.book_segments.specs.Segments.{Segment, has, SYN, ACK};
ghost use Rattle.book_shim.specs.declared.kept.Kept.{Kept};
ghost use Rattle.book_shim.specs.declared.refusal.Unsent.{Unsent};
ghost use Rattle.book_shim.specs.declared.refusal.Untaken.{Untaken};
ghost use Rattle.book_shim.specs.Keeping.{Setting, answered_isn, is_the_number};
ghost use Rattle.book_shim.specs.Leaving.{Sealed, outbound, send_sealed};
ghost use Rattle.book_segments.specs.Spelling.{AreBytes, Fits};
ghost use Rattle.book_shim.specs.Arriving.{Opened, inbound, take_in};
ghost use Rattle.law_shim.specs.Origins.{ComesOut, IsMet, IsOriginal};
ghost use Rattle.law_shim.specs.Worlds.{Side, Event, World, Leaves, Arrives, pair_at, kept_at, step, run, was_made};
ghost use Rattle.law_shim.specs.Worlds.{IsBytewise};

/// A datagram that is refused, on its way out or in, changes nothing.
pub fn refused_changes_nothing()
    ensures leaving { (pair : Pair) (w : World) (at : Side) (here : Setting) (bytes : List ℕ) (why : Unsent)
        → outbound here (pair_at pair at) (kept_at w at) bytes ≡ Err why → step pair w (Leaves at here bytes) ≡ w }
    ensures arriving { (pair : Pair) (w : World) (at : Side) (here : Setting) (bytes : List ℕ) (why : Untaken)
        → inbound here (pair_at pair at) (kept_at w at) bytes ≡ Err why → step pair w (Arrives at here bytes) ≡ w }
{}

/// Whatever datagrams two kernels give to their guards, whatever comes from the network, and under
/// whatever tables, clocks and MTUs: what is handed to a kernel is a datagram that the other kernel gave
/// before, but for its IP header, its options and its checksum, sealed in the same context (so with the
/// same two initial sequence numbers); unless it is a forgery. Where both rows cover options, those that
/// fitted come too, but for the maximum segment size of a SYN.
pub fn authentic()
    ensures { (pair : Pair) (events : List Event) (at : Side) (here : Setting) (bytes : List ℕ) (t : Opened)
        → IsBytewise events → AreBytes bytes
        → inbound here (pair_at pair at) (kept_at (run pair events) at) bytes ≡ Ok t
        → was_made at t.passed (run pair events).made ≡ true → IsOriginal pair events here at t }
{}

/// What one guard seals is taken by the other one, as it is and within 2^31 of the number that it
/// expects, and comes out as the kernel gave it, but for its IP header, its options and its checksum.
pub fn opened_is_sealed()
    ensures { (sending here : Setting) (pair_there pair : Pair) (there kept : Kept) (d : Segment) (m : Sealed) → Fits d
        → send_sealed sending pair_there there d ≡ Ok m → IsMet here pair kept m → ComesOut here pair kept m }
{}

/// Once a SYN with ACK was sealed, the guard has the connection of its two initial sequence numbers in
/// use. So has a guard that took one which answers its own SYN that is out, and, as long as nothing but SYNs
/// passed in its connection, one which answers no SYN given up: the guards of both ends have the same two. One
/// that answers a SYN given up is late, and leaves the connection in use.
pub fn both_know_the_numbers()
    ensures sealed_so { (here : Setting) (pair : Pair) (kept : Kept) (d : Segment) (m : Sealed)
        → send_sealed here pair kept d ≡ Ok m → has SYN d ≡ true → has ACK d ≡ true
        → m.kept.isns ≡ Some (record { own = d.sequence; peer = answered_isn d }) }
    ensures joined_so { (here : Setting) (pair : Pair) (kept : Kept) (d : Segment) (t : Opened)
        → take_in here pair kept d ≡ Ok t → has SYN d ≡ true → has ACK d ≡ true
        → is_the_number kept.opening (answered_isn d) ≡ true → t.kept.isns
        ≡ Some (record { own = answered_isn d; peer = d.sequence }) }
    ensures anew_so { (here : Setting) (pair : Pair) (kept : Kept) (d : Segment) (t : Opened)
        → take_in here pair kept d ≡ Ok t → has SYN d ≡ true → has ACK d ≡ true
        → is_the_number kept.given_up (answered_isn d) ≡ false → kept.settled ≡ false
        → t.kept.isns ≡ Some (record { own = answered_isn d; peer = d.sequence }) }
{}
