//! While keys roll over.
ghost use Rattle.std.specs.Prelude.{◌≡◌, Ok};
ghost use Rattle.book_base.specs.declared.address.Pair.{Pair};
ghost use Rattle.book_keys.specs.declared.plan.Plan.{Plan};
ghost use Rattle.book_keys.specs.Overlaps.{IsValid};
ghost use Rattle.book_keys.specs.Plans.{mirrored};
ghost use Rattle.book_segments.specs.Segments.{Segment};
ghost use Rattle.book_shim.specs.declared.kept.Kept.{Kept};
ghost use Rattle.book_shim.specs.Keeping.{Setting};
ghost use Rattle.book_shim.specs.Leaving.{Sealed, send_sealed};
ghost use Rattle.law_shim.specs.Rolling.{AreAligned, IsInTime, IsPlanned, IsTakenUnder, IsKeyed};

/// Where the tables of two guards are aligned, what either of them seals isn't refused by the other one for want
/// of a row, from as long before as the plan's lead until as long after as its lag: a row with the same
/// algorithm, master key and option flag takes its KeyID.
pub fn rolls_over()
    ensures to_b { (plan : Plan) (pair : Pair) (a b : Setting) (kept : Kept) (d : Segment) (m : Sealed)
        → AreAligned plan pair a b → IsValid b.rows → IsInTime plan a.now b.now
        → send_sealed a pair kept d ≡ Ok m → IsTakenUnder b (mirrored pair) m }
    ensures to_a { (plan : Plan) (pair : Pair) (a b : Setting) (kept : Kept) (d : Segment) (m : Sealed)
        → AreAligned plan pair a b → IsValid a.rows → IsInTime plan b.now a.now
        → send_sealed b (mirrored pair) kept d ≡ Ok m → IsTakenUnder a pair m }
{}

/// Where the tables of two guards are aligned, neither refuses a datagram of its kernel for want of a row, within
/// the times for which the plan was judged.
pub fn never_keyless()
    ensures at_a { (plan : Plan) (pair : Pair) (a b : Setting)
        → AreAligned plan pair a b → IsPlanned plan a.now → IsKeyed a pair }
    ensures at_b { (plan : Plan) (pair : Pair) (a b : Setting)
        → AreAligned plan pair a b → IsPlanned plan b.now → IsKeyed b (mirrored pair) }
{}
