//! What holds of many pairs.
ghost use Rattle.std.specs.Prelude.{◌≡◌, ◌≢◌, ◌⊎◌, ℕ, List, option_map};
ghost use Rattle.book_base.specs.declared.address.Pair.{Pair};
ghost use Rattle.book_segments.specs.Segments.{Segment, Read, pair_reached, reading};
ghost use Rattle.shim_pairs.specs.declared.answer.Passed.{Passed};
ghost use Rattle.shim_pairs.specs.Holdings.{Holding, found};
ghost use Rattle.shim_pairs.specs.Passing.{Enters, Leaves, Stays, pair_left, seen};
ghost use Rattle.shim_pairs.specs.Touching.{IsInOrder, IsUntouched, MakesRoom};

/// A datagram of one pair leaves what is held of every other pair as it is, but for the one that goes for
/// want of room where the datagram's pair comes about. After one from the network that is refused, what is
/// kept of every pair, and when something of it passed last, is as it was.
pub fn pairs_do_not_touch()
    ensures leaving { (now : ℕ) (h k : Holding) (bytes old new : List ℕ) (p : Passed) (d : Segment) (q : Pair)
        → IsInOrder h
        → Leaves now h k bytes old new p → reading bytes ≡ Read d → q ≢ pair_left d
        → IsUntouched h k q ⊎ MakesRoom h (pair_left d) q }
    ensures entering { (now mtu : ℕ) (h k : Holding) (bytes old new : List ℕ) (p : Passed) (d : Segment) (q : Pair)
        → Enters now mtu h k bytes old new p → reading bytes ≡ Read d → q ≢ pair_reached d → IsUntouched h k q }
    ensures staying { (h k : Holding) (q : Pair) → Stays h k → option_map seen (found q k.entries)
        ≡ option_map seen (found q h.entries) }
{}
